// The data of a scan, by the format of its run: a packet, flat peaks or an SRM scan. They are found first, so that a scan is
// judged whole before anything is written, and their pairs are written after.
#![tactic(auto)]

ghost use Rattle.std.specs.Prelude.{◌≡◌};
ghost use Rattle.refusal.specs.Number.{outcome_of};
ghost use Rattle.lists.specs.Left.{pairs_if_fit, LeftPairs};
ghost use Rattle.refusal.specs.Outcome.{on_ok};
ghost use Rattle.packet_places.specs.Places.{find_places};
ghost use Rattle.tray_data.specs.Data.{packet_data, narrow_peaks, pairs, find_data, content_at, count_of};

use packet_places::find_places;
use packet_profile::Profile;
use packet_record::PacketPlaces;
use pairs::{peak_pairs, to_mz_intensity};
use peaks::PeakRow;
use reader::saturating_add;
use refusal::Refusal;
use scan_format::ScanDataFormat;
use srm_flat_peaks::find_flat_peaks;
use srm_scan::find_srm_peaks;

#[derive(Clone, Copy)]
pub enum ScanData {
    Profile(Profile),
    Peaks(PeakRow),
}

// A packet's profile, if it has one, else its peaks.
fn packet_data(places: PacketPlaces) -> ScanData
    ensures { result ≡ packet_data places.profile places }
{
    match places.profile {
        Some(p) => ScanData::Profile(p),
        None => ScanData::Peaks(places.list.row()),
    }
}

fn narrow_peaks(found: Result<(u64, u64), Refusal>, stride: u64) -> Result<ScanData, Refusal>
    ensures { outcome_of result ≡ on_ok (narrow_peaks stride) (outcome_of found) }
{
    let (place, count) = found?;
    Ok(ScanData::Peaks(PeakRow {
        at: place,
        stride,
        count,
        wide: false,
    }))
}

fn find_packet(run: &[u8], at: u64) -> Result<ScanData, Refusal>
    ensures { outcome_of result ≡ on_ok (λ v. packet_data v.0.profile v.0) (find_places at run.now) }
{
    let places = find_places(run, at)?;
    Ok(packet_data(places))
}

// The data at `data` and `offset`, in a run of this format.
pub fn find_data(
    run: &[u8],
    format: ScanDataFormat,
    data: u64,
    offset: u64,
    size: u32,
) -> Result<ScanData, Refusal>
    ensures { outcome_of result ≡ find_data format «data» offset size run.now }
{
    match format {
        ScanDataFormat::PacketHeader => find_packet(run, saturating_add(data, offset)),
        ScanDataFormat::FlatV63 => narrow_peaks(find_flat_peaks(run, data, offset, size), 8),
        ScanDataFormat::FlatV66 => narrow_peaks(find_srm_peaks(run, data, offset), 12),
    }
}

// How many pairs data that were found give.
pub fn pair_count(found: ScanData) -> u64
    ensures { result ≡ count_of found }
{
    match found {
        ScanData::Profile(p) => p.points,
        ScanData::Peaks(w) => w.count,
    }
}

// The pairs of data that were found, over the fronts of both slices.
pub fn data_pairs(
    run: &[u8],
    found: ScanData,
    coefficients: &[u64],
    mz: &mut [f64],
    intensity: &mut [f64],
) -> Result<u64, Refusal>
    ensures { LeftPairs (λ m i. pairs_if_fit m i (pairs coefficients.now (content_at found run.now))) mz.old intensity.old result mz.new intensity.new }
{
    match found {
        ScanData::Profile(p) => to_mz_intensity(run, p, coefficients, mz, intensity),
        ScanData::Peaks(w) => peak_pairs(run, w, mz, intensity),
    }
}

// Scan k of a run, by its tray's header: the entry, the event and the data are found, the room of all slices is tested, and
// then they are written.
#![tactic(auto)]

ghost use Rattle.std.specs.Prelude.{◌≡◌, [], ◌∷◌};
ghost use Rattle.refusal.specs.Number.{outcome_of};
ghost use Rattle.refusal.specs.Outcome.{on_ok};
ghost use Rattle.lists.specs.Left.{LeftListsAndPairs};
ghost use Rattle.tray_data.specs.Data.{find_data};
ghost use Rattle.tray_scan.specs.Scan.{format_in, scan_if_fits, scan_at, end_in, place_or_end};
ghost use Rattle.tray_scan.specs.Internal.{entry_of, in_turn, parts_at, CountHolds, CountHoldsIn, event_found, next_place};

use event_record::{Places, ScanEvent};
use event_writer::write_event;
use events::find_event;
use lists::fits;
use refusal::Refusal;
use scan_format::ScanDataFormat;
use scan_index::ScanIndexEntry;
use tray_data::{ScanData, data_pairs, find_data, pair_count};
use tray_header::TrayHeader;

#[derive(Clone, Copy)]
pub struct Scan {
    pub entry: ScanIndexEntry,
    pub event: ScanEvent,
    // The place after the event.
    pub next: u64,
    // How many pairs were written.
    pub pairs: u64,
}

// A scan's answer, and the place to read the next event at: after the scan's event, or the largest of all where that was not
// found, whatever became of the entry and the data.
#[derive(Clone, Copy)]
pub struct ScanAndNext {
    pub scan: Result<Scan, Refusal>,
    pub next: u64,
}

// A scan whose bytes are all there.
#[derive(Clone, Copy)]
struct ScanPlaces {
    entry: ScanIndexEntry,
    event: Places,
    data: ScanData,
}

// Entry k of the index.
fn entry_of(run: &[u8], h: TrayHeader, k: u32) -> Result<ScanIndexEntry, Refusal>
    ensures { outcome_of result ≡ entry_of h k run.now }
{
    let size = ScanIndexEntry::min_size_for_version(h.version);
    ScanIndexEntry::read(run, h.index as u64 + k as u64 * size, h.version)
}

// The format of a tray's scans, by its header.
pub fn format_in(h: TrayHeader) -> ScanDataFormat
    ensures { result ≡ format_in h }
{
    ScanDataFormat::detect(h.version, h.flat == 1)
}

fn data_of(run: &[u8], h: TrayHeader, entry: ScanIndexEntry) -> Result<ScanData, Refusal>
    ensures { outcome_of result ≡ find_data (format_in h) h.«data» entry.offset entry.data_size run.now }
{
    let format = format_in(h);
    find_data(run, format, h.data as u64, entry.offset, entry.data_size)
}

// Entry k and its data, with the event that was sought.
fn find_scan(
    run: &[u8],
    h: TrayHeader,
    k: u32,
    event: Result<Places, Refusal>,
) -> Result<ScanPlaces, Refusal>
    ensures result_value { on_ok (parts_at run.now) (outcome_of result) ≡ in_turn h k (event_found run.now event) run.now }
    ensures count_holds_in { CountHoldsIn run.now result }
{
    let entry = entry_of(run, h, k)?;
    let places = event?;
    let data = data_of(run, h, entry)?;
    Ok(ScanPlaces {
        entry,
        event: places,
        data,
    })
}

// A scan that was found, where the slices hold it. The event's room is tested where it is written.
fn write_scan(
    run: &[u8],
    p: ScanPlaces,
    preamble: &mut [u8],
    precursors: &mut [u64],
    energies: &mut [u64],
    coefficients: &mut [u64],
    mz: &mut [f64],
    intensity: &mut [f64],
) -> Result<Scan, Refusal>
    requires { CountHolds run.now p.«data» }
    ensures { LeftListsAndPairs (λ c. scan_if_fits c (parts_at run.now p))
        (preamble.old ∷ precursors.old ∷ energies.old ∷ coefficients.old ∷ []) mz.old intensity.old
        (outcome_of result) (preamble.new ∷ precursors.new ∷ energies.new ∷ coefficients.new ∷ []) mz.new intensity.new }
{
    let entry = p.entry;
    let places = p.event;
    let data = p.data;
    let pairs = pair_count(data);
    if fits([pairs, pairs], [mz.len(), intensity.len()]) {
        let read = write_event(run, places, preamble, precursors, energies, coefficients)?;
        let event = read.event;
        let n = event.coefficients as usize;
        let _ = data_pairs(run, data, &coefficients[..n], mz, intensity);
        return Ok(Scan {
            entry,
            event,
            next: read.next,
            pairs,
        });
    }
    Err(Refusal::NoRoom)
}

// The place to read the next event at.
fn next_place(event: Result<Places, Refusal>) -> u64
    ensures { result ≡ next_place event }
{
    event.map_or(u64::MAX, |p| p.next)
}

// Scan k, whose event stands at a place of the run.
pub fn scan_at(
    run: &[u8],
    at: u64,
    h: TrayHeader,
    k: u32,
    preamble: &mut [u8],
    precursors: &mut [u64],
    energies: &mut [u64],
    coefficients: &mut [u64],
    mz: &mut [f64],
    intensity: &mut [f64],
) -> ScanAndNext
    ensures left_lists_and_pairs { LeftListsAndPairs (λ c. scan_at c h k at run.now)
        (preamble.old ∷ precursors.old ∷ energies.old ∷ coefficients.old ∷ []) mz.old intensity.old
        (outcome_of result.scan) (preamble.new ∷ precursors.new ∷ energies.new ∷ coefficients.new ∷ []) mz.new intensity.new }
    ensures next_value { result.next ≡ place_or_end (end_in h at run.now) }
{
    let event = find_event(run, at, h.version, h.primary, h.dependent);
    let next = next_place(event);
    match find_scan(run, h, k, event) {
        Err(r) => ScanAndNext { scan: Err(r), next },
        Ok(places) => ScanAndNext {
            scan: write_scan(
                run,
                places,
                preamble,
                precursors,
                energies,
                coefficients,
                mz,
                intensity,
            ),
            next,
        },
    }
}

// Answers the requests on scan formats, entries of the scan index, the data of a scan and which pairs of it are listed: the
// crates `scan_format`, `scan_index`, `tray_data` and `listing_pairs`.
#![tactic(auto)]

ghost use Rattle.std.specs.Prelude.{◌≡◌, Ok, OnOk, false};
ghost use Rattle.probe_scans.specs.Text.{with_entry};

use listing_pairs::keep_listed;
use packet_profile::Profile;
use peaks::PeakRow;
use probe_text::fields::LENT;
use probe_text::{Answer, Fields, ProbeError};
use scan_format::ScanDataFormat;
use scan_index::ScanIndexEntry;
use tray_data::ScanData;

// Answers a request by its word and the fields after that: whether the word is one of these. Where it is none, the fields
// and the answer stay as they were, for the next crate that is asked.
pub fn try_answer(word: &str, fields: &mut Fields, answer: &mut Answer) -> Result<bool, ProbeError>
    ensures { result ≡ Ok false → (fields.new ≡ fields.old) × (answer.new ≡ answer.old) }
{
    match word {
        "entry" => entry(fields, answer)?,
        "entry_size" => entry_size(fields, answer)?,
        "format" => format(fields, answer)?,
        "display_name" => display_name(fields, answer)?,
        "find_data" => find_data(fields, answer)?,
        "listed" => listed(fields, answer)?,
        _ => return Ok(false),
    }
    Ok(true)
}

fn format_number(format: ScanDataFormat) -> u64 {
    match format {
        ScanDataFormat::PacketHeader => 0,
        ScanDataFormat::FlatV63 => 1,
        ScanDataFormat::FlatV66 => 2,
    }
}

// The field FORMAT.
fn format_of(fields: &mut Fields) -> Result<ScanDataFormat, ProbeError> {
    match fields.number::<u64>()? {
        0 => Ok(ScanDataFormat::PacketHeader),
        1 => Ok(ScanDataFormat::FlatV63),
        2 => Ok(ScanDataFormat::FlatV66),
        _ => Err(ProbeError::Malformed),
    }
}

fn format(fields: &mut Fields, answer: &mut Answer) -> Result<(), ProbeError> {
    let version = fields.number()?;
    let flat = fields.flag()?;
    fields.end()?;
    let format = ScanDataFormat::detect(version, flat);
    answer.ok_number(format_number(format))?;
    answer.flag(format.is_flat())
}

fn display_name(fields: &mut Fields, answer: &mut Answer) -> Result<(), ProbeError> {
    let format = format_of(fields)?;
    let mut lent = fields.lent::<u8>(LENT)?;
    fields.end()?;
    let written = format.display_name(&mut lent);
    answer.name(written, &lent)
}

fn entry_size(fields: &mut Fields, answer: &mut Answer) -> Result<(), ProbeError> {
    let version = fields.number()?;
    fields.end()?;
    answer.ok_number(ScanIndexEntry::min_size_for_version(version))
}

pub fn put_entry(answer: &mut Answer, e: ScanIndexEntry) -> Result<(), ProbeError>
    ensures { OnOk result (answer.new ≡ with_entry answer.old e) }
{
    answer.ok_number(e.index)?;
    answer.number(e.scan_event)?;
    answer.number(e.scan_segment)?;
    answer.number(e.data_size)?;
    answer.bits(e.start_time)?;
    answer.bits(e.total_current)?;
    answer.bits(e.base_intensity)?;
    answer.bits(e.base_mz)?;
    answer.bits(e.low_mz)?;
    answer.bits(e.high_mz)?;
    answer.number(e.offset)
}

fn entry(fields: &mut Fields, answer: &mut Answer) -> Result<(), ProbeError> {
    let version = fields.number()?;
    let place = fields.number()?;
    let run = fields.bytes()?;
    fields.end()?;
    match ScanIndexEntry::read(&run, place, version) {
        Ok(e) => put_entry(answer, e),
        Err(refusal) => answer.refused(refusal),
    }
}

fn put_profile(answer: &mut Answer, p: Profile) -> Result<(), ProbeError> {
    answer.ok_number(0u64)?;
    answer.number(p.chunks_at)?;
    answer.number(p.peak_count)?;
    answer.number(p.points)
}

fn put_row(answer: &mut Answer, row: PeakRow) -> Result<(), ProbeError> {
    answer.ok_number(1u64)?;
    answer.number(row.at)?;
    answer.number(row.stride)?;
    answer.number(row.count)?;
    answer.flag(row.wide)
}

fn find_data(fields: &mut Fields, answer: &mut Answer) -> Result<(), ProbeError> {
    let format = format_of(fields)?;
    let data = fields.number()?;
    let offset = fields.number()?;
    let size = fields.number()?;
    let run = fields.bytes()?;
    fields.end()?;
    match tray_data::find_data(&run, format, data, offset, size) {
        Ok(ScanData::Profile(p)) => put_profile(answer, p),
        Ok(ScanData::Peaks(row)) => put_row(answer, row),
        Err(refusal) => answer.refused(refusal),
    }
}

// How many pairs of two lists are listed, and the lists.
fn listed(fields: &mut Fields, answer: &mut Answer) -> Result<(), ProbeError> {
    let format = format_of(fields)?;
    let mut masses = fields.f64s()?;
    let mut intensities = fields.f64s()?;
    fields.end()?;
    let kept = keep_listed(format, &mut masses, &mut intensities);
    answer.ok_number(kept as u64)?;
    answer.slice(&masses)?;
    answer.slice(&intensities)
}

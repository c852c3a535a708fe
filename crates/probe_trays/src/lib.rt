// Answers the requests on scans of a tray and the places of their events: the crate `tray`.
#![tactic(auto)]

ghost use Rattle.std.specs.Prelude.{◌≡◌, Ok, false};

use probe_events::scan_events;
use probe_events::scan_events::EventSlices;
use probe_scans::put_entry;
use probe_text::fields::LENT;
use probe_text::{Answer, Fields, ProbeError};
use tray::{read_scan, read_scan_from};
use tray_scan::Scan;

// Answers a request by its word and the fields after that: whether the word is one of these. Where it is none, the fields
// and the answer stay as they were, for the next crate that is asked.
pub fn try_answer(word: &str, fields: &mut Fields, answer: &mut Answer) -> Result<bool, ProbeError>
    ensures { result ≡ Ok false → (fields.new ≡ fields.old) × (answer.new ≡ answer.old) }
{
    match word {
        "scan" => scan(fields, answer)?,
        "scan_from" => scan_from(fields, answer)?,
        "event_of" => event_of(fields, answer)?,
        "next_event" => next_event(fields, answer)?,
        _ => return Ok(false),
    }
    Ok(true)
}

// The fields of a scan.
fn put_scan(answer: &mut Answer, scan: Scan) -> Result<(), ProbeError> {
    put_entry(answer, scan.entry)?;
    scan_events::put_event(answer, scan.event, scan.next)?;
    answer.number(scan.pairs)
}

// Scan k, whose event is walked to, or is read at the place `at` where that is given; and the slices that are lent for it.
fn put_read(
    fields: &mut Fields,
    answer: &mut Answer,
    k: u32,
    at: Option<u64>,
) -> Result<(), ProbeError> {
    let mut event = EventSlices::lent(fields)?;
    let mut masses = fields.lent::<f64>(LENT)?;
    let mut intensities = fields.lent::<f64>(LENT)?;
    let tray = fields.bytes()?;
    fields.end()?;
    let read = match at {
        None => read_scan(
            &tray,
            k,
            &mut event.preamble,
            &mut event.precursors,
            &mut event.energies,
            &mut event.coefficients,
            &mut masses,
            &mut intensities,
        ),
        Some(at) => read_scan_from(
            &tray,
            k,
            at,
            &mut event.preamble,
            &mut event.precursors,
            &mut event.energies,
            &mut event.coefficients,
            &mut masses,
            &mut intensities,
        ),
    };
    match read {
        Ok(scan) => put_scan(answer, scan)?,
        Err(refusal) => answer.refused(refusal)?,
    }
    event.put(answer)?;
    answer.slice(&masses)?;
    answer.slice(&intensities)
}

fn scan(fields: &mut Fields, answer: &mut Answer) -> Result<(), ProbeError> {
    let k = fields.number()?;
    put_read(fields, answer, k, None)
}

fn scan_from(fields: &mut Fields, answer: &mut Answer) -> Result<(), ProbeError> {
    let k = fields.number()?;
    let at = fields.number()?;
    put_read(fields, answer, k, Some(at))
}

fn event_of(fields: &mut Fields, answer: &mut Answer) -> Result<(), ProbeError> {
    let k = fields.number()?;
    let tray = fields.bytes()?;
    fields.end()?;
    answer.count(tray::event_of(&tray, k))
}

fn next_event(fields: &mut Fields, answer: &mut Answer) -> Result<(), ProbeError> {
    let at = fields.number()?;
    let tray = fields.bytes()?;
    fields.end()?;
    answer.count(tray::next_event(&tray, at))
}

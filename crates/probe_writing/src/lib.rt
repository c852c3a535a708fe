// Answers the requests on writing index entries and scan events below version 66: the crates `scan_index` and `event_bytes`.
#![tactic(auto)]

ghost use Rattle.std.specs.Prelude.{◌≡◌, Ok, false};

mod entries;
mod event_fields;
mod scan_events;

use probe_text::{Answer, Fields, ProbeError};

// The most bytes that are lent for a record.
pub(crate) const RECORD: usize = 1024;

// Answers a request by its word and the fields after that: whether the word is one of these. Where it is none, the fields
// and the answer stay as they were, for the next crate that is asked.
pub fn try_answer(word: &str, fields: &mut Fields, answer: &mut Answer) -> Result<bool, ProbeError>
    ensures { result ≡ Ok false → (fields.new ≡ fields.old) × (answer.new ≡ answer.old) }
{
    match word {
        "write_entry" => entries::write_entry(fields, answer)?,
        "rewrite_entry" => entries::rewrite_entry(fields, answer)?,
        "write_event" => scan_events::write_event(fields, answer)?,
        "rewrite_event" => scan_events::rewrite_event(fields, answer)?,
        _ => return Ok(false),
    }
    Ok(true)
}

// Answers the requests on scan events, their preambles and their places.
#![tactic(auto)]

ghost use Rattle.std.specs.Prelude.{◌≡◌, Ok, false};

mod places;
mod preambles;
pub mod scan_events;

use probe_text::{Answer, Fields, ProbeError};

// Answers a request by its word and the fields after that: whether the word is one of these. Where it is none, the fields
// and the answer stay as they were, for the next crate that is asked.
pub fn try_answer(word: &str, fields: &mut Fields, answer: &mut Answer) -> Result<bool, ProbeError>
    ensures { result ≡ Ok false → (fields.new ≡ fields.old) × (answer.new ≡ answer.old) }
{
    match word {
        "event" => scan_events::event(fields, answer)?,
        "counted" => scan_events::counted(fields, answer)?,
        "preamble" => preambles::preamble(fields, answer)?,
        "preamble_size" => preambles::preamble_size(fields, answer)?,
        "event_end" => places::event_end(fields, answer)?,
        "event_place" => places::event_place(fields, answer)?,
        _ => return Ok(false),
    }
    Ok(true)
}

// Answers the requests on parts of a tray: asks the crates in turn that know some of the words.
#![tactic(auto)]

ghost use Rattle.std.specs.Prelude.{◌≡◌, Ok, false};

use probe_text::{Answer, Fields, ProbeError};

// Answers a request by its word and the fields after that: whether the word is one of these. Where it is none, the fields
// and the answer stay as they were, for the next crate that is asked.
pub fn try_answer(word: &str, fields: &mut Fields, answer: &mut Answer) -> Result<bool, ProbeError>
    ensures { result ≡ Ok false → (fields.new ≡ fields.old) × (answer.new ≡ answer.old) }
{
    Ok(
        probe_values::try_answer(word, fields, answer)?
            || probe_scans::try_answer(word, fields, answer)?
            || probe_events::try_answer(word, fields, answer)?
            || probe_packets::try_answer(word, fields, answer)?
            || probe_peaks::try_answer(word, fields, answer)?
            || probe_packet_lists::try_answer(word, fields, answer)?
            || probe_labels::try_answer(word, fields, answer)?
            || probe_srm::try_answer(word, fields, answer)?
            || probe_pairs::try_answer(word, fields, answer)?
            || probe_writing::try_answer(word, fields, answer)?,
    )
}

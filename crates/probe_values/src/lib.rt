// Answers the requests on numbers, floats and codes.
#![tactic(auto)]

ghost use Rattle.std.specs.Prelude.{◌≡◌, Ok, false};

mod names;
mod values;

use probe_text::{Answer, Fields, ProbeError};

// Answers a request by its word and the fields after that: whether the word is one of these. Where it is none, the fields
// and the answer stay as they were, for the next crate that is asked.
pub fn try_answer(word: &str, fields: &mut Fields, answer: &mut Answer) -> Result<bool, ProbeError>
    ensures { result ≡ Ok false → (fields.new ≡ fields.old) × (answer.new ≡ answer.old) }
{
    match word {
        "word" => values::word(fields, answer)?,
        "f64" => values::float64(fields, answer)?,
        "f32" => values::float32(fields, answer)?,
        "ten_thousandths" => values::ten_thousandths(fields, answer)?,
        "counted_list" => values::counted_list(fields, answer)?,
        "code" => names::code(fields, answer)?,
        "name" => names::name(fields, answer)?,
        "symbol" => names::symbol(fields, answer)?,
        "activation" => names::activation(fields, answer)?,
        "activation_name" => names::activation_name(fields, answer)?,
        "fixed_size" => names::fixed_size(fields, answer)?,
        _ => return Ok(false),
    }
    Ok(true)
}

// Answers the requests on searches in a method's bytes: the crates `srm_transition` and `srm_channels`.
#![tactic(auto)]

ghost use Rattle.std.specs.Prelude.{◌≡◌, Ok, false};

use float_bits::f64_of_bits;
use probe_text::fields::LENT;
use probe_text::{Answer, Fields, ProbeError};
use srm_channels::flatv66_event_channels;
use srm_transition::{flatv66_event_transition, search_v63_transition};

fn v63(fields: &mut Fields, answer: &mut Answer) -> Result<(), ProbeError> {
    let target = f64_of_bits(fields.number()?);
    let data = fields.bytes()?;
    fields.end()?;
    let Some(transition) = search_v63_transition(&data, target) else {
        return answer.none();
    };
    answer.ok_number(transition.place)?;
    answer.bits(transition.q1)?;
    answer.bits(transition.q3_width)?;
    answer.bits(transition.collision_energy)
}

fn event_transition(fields: &mut Fields, answer: &mut Answer) -> Result<(), ProbeError> {
    let event = fields.number()?;
    let q3_hi = f64_of_bits(fields.number()?);
    let data = fields.bytes()?;
    fields.end()?;
    let Some(transition) = flatv66_event_transition(&data, event, q3_hi) else {
        return answer.none();
    };
    answer.ok_number(transition.place)?;
    answer.bits(transition.q1)
}

fn channels(fields: &mut Fields, answer: &mut Answer) -> Result<(), ProbeError> {
    let events = fields.u16s()?;
    let mut channel_events = fields.lent::<u16>(LENT)?;
    let mut q1 = fields.lent::<u64>(LENT)?;
    let mut energy = fields.lent::<u64>(LENT)?;
    let data = fields.bytes()?;
    fields.end()?;
    let count = flatv66_event_channels(&data, &events, &mut channel_events, &mut q1, &mut energy);
    answer.count(count)?;
    answer.slice(&channel_events)?;
    answer.slice(&q1)?;
    answer.slice(&energy)
}

// Answers a request by its word and the fields after that: whether the word is one of these. Where it is none, the fields
// and the answer stay as they were, for the next crate that is asked.
pub fn try_answer(word: &str, fields: &mut Fields, answer: &mut Answer) -> Result<bool, ProbeError>
    ensures { result ≡ Ok false → (fields.new ≡ fields.old) × (answer.new ≡ answer.old) }
{
    match word {
        "v63" => v63(fields, answer)?,
        "event_transition" => event_transition(fields, answer)?,
        "channels" => channels(fields, answer)?,
        _ => return Ok(false),
    }
    Ok(true)
}

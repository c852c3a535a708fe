// Answers the requests on pairs of m/z and intensity: the crates `calibration`, `packet_profile` and `pairs`.
#![tactic(auto)]

ghost use Rattle.std.specs.Prelude.{◌≡◌, Ok, false};

use float_bits::f64_of_bits;
use packet_profile::Profile;
use pairs::to_mz_intensity;
use probe_text::fields::LENT;
use probe_text::{Answer, Fields, ProbeError};
use refusal::Refusal;

fn freq_to_mz(fields: &mut Fields, answer: &mut Answer) -> Result<(), ProbeError> {
    let freq = f64_of_bits(fields.number()?);
    let coefficients = fields.u64s()?;
    fields.end()?;
    answer.ok()?;
    answer.bits(calibration::freq_to_mz(freq, &coefficients))
}

// The pairs of the profile at a place.
fn read_pairs(
    run: &[u8],
    place: u64,
    layout: u32,
    coefficients: &[u64],
    mz: &mut [f64],
    intensity: &mut [f64],
) -> Result<u64, Refusal> {
    let (profile, _) = Profile::read(run, place, layout)?;
    to_mz_intensity(run, profile, coefficients, mz, intensity)
}

fn pairs(fields: &mut Fields, answer: &mut Answer) -> Result<(), ProbeError> {
    let layout = fields.number()?;
    let place = fields.number()?;
    let mut mz = fields.lent::<f64>(LENT)?;
    let mut intensity = fields.lent::<f64>(LENT)?;
    let coefficients = fields.u64s()?;
    let run = fields.bytes()?;
    fields.end()?;
    let count = read_pairs(&run, place, layout, &coefficients, &mut mz, &mut intensity);
    answer.count(count)?;
    answer.slice(&mz)?;
    answer.slice(&intensity)
}

// Answers a request by its word and the fields after that: whether the word is one of these. Where it is none, the fields
// and the answer stay as they were, for the next crate that is asked.
pub fn try_answer(word: &str, fields: &mut Fields, answer: &mut Answer) -> Result<bool, ProbeError>
    ensures { result ≡ Ok false → (fields.new ≡ fields.old) × (answer.new ≡ answer.old) }
{
    match word {
        "freq_to_mz" => freq_to_mz(fields, answer)?,
        "pairs" => pairs(fields, answer)?,
        _ => return Ok(false),
    }
    Ok(true)
}

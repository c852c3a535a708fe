// Answers the requests on noise and labels: the crates `float_narrow`, `noise` and `packet_noise`.
#![tactic(auto)]

ghost use Rattle.std.specs.Prelude.{◌≡◌, Ok, false};

use float_bits::{bits_of_f32, f64_of_bits};
use float_narrow::narrowed;
use noise::{label_peaks, noise_at};
use packet_noise::label_packet_peaks;
use packet_record::ScanDataPacket;
use packet_skipping::read_skip_profile;
use probe_text::fields::LENT;
use probe_text::{Answer, Fields, ProbeError};
use refusal::Refusal;

// No request holds a packet of more peaks: a peak takes 8 bytes, and a line holds at most 32,768 bytes of a run.
const PEAKS: usize = 4096;

fn narrow(fields: &mut Fields, answer: &mut Answer) -> Result<(), ProbeError> {
    let bits = fields.number()?;
    fields.end()?;
    answer.ok()?;
    answer.bits(bits_of_f32(narrowed(f64_of_bits(bits))))
}

fn put_noise(answer: &mut Answer, noise: Option<(u32, u32)>) -> Result<(), ProbeError> {
    match noise {
        Some((noise, baseline)) => {
            answer.ok()?;
            answer.bits(noise)?;
            answer.bits(baseline)
        }
        None => answer.none(),
    }
}

fn noise(fields: &mut Fields, answer: &mut Answer) -> Result<(), ProbeError> {
    let mz = f64_of_bits(fields.number()?);
    let nodes = fields.bytes()?;
    fields.end()?;
    put_noise(answer, noise_at(mz, &nodes))
}

// The slices that are lent for labels.
#[derive(Drop)]
struct LabelSlices {
    flags: Vec<u8>,
    noise: Vec<u32>,
    baseline: Vec<u32>,
}

impl LabelSlices {
    // The fields F, N and B.
    fn lent(fields: &mut Fields) -> Result<LabelSlices, ProbeError> {
        Ok(LabelSlices {
            flags: fields.lent(LENT)?,
            noise: fields.lent(LENT)?,
            baseline: fields.lent(LENT)?,
        })
    }

    fn put(&self, answer: &mut Answer) -> Result<(), ProbeError> {
        answer.slice(&self.flags)?;
        answer.slice(&self.noise)?;
        answer.slice(&self.baseline)
    }
}

fn labels(fields: &mut Fields, answer: &mut Answer) -> Result<(), ProbeError> {
    let mz = fields.u64s()?;
    let mut lent = LabelSlices::lent(fields)?;
    let nodes = fields.bytes()?;
    fields.end()?;
    let count = label_peaks(
        &mz,
        &nodes,
        &mut lent.flags,
        &mut lent.noise,
        &mut lent.baseline,
    );
    answer.count(count)?;
    lent.put(answer)
}

// The packet at a place, of at most N peaks, and their masses.
fn packet_at<const N: usize>(
    run: &[u8],
    place: u64,
    mz: &mut [u64; N],
) -> Result<ScanDataPacket, Refusal> {
    read_skip_profile(
        run,
        place,
        mz,
        &mut [0u32; N],
        &mut [0u32; N],
        &mut [0u32; N],
    )
}

// Inlined, each line's answer would take the stack that this one needs.
#[inline(never)]
fn packet_noise(fields: &mut Fields, answer: &mut Answer) -> Result<(), ProbeError> {
    let mz = f64_of_bits(fields.number()?);
    let place = fields.number()?;
    let run = fields.bytes()?;
    fields.end()?;
    match packet_at(&run, place, &mut [0u64; PEAKS]) {
        Ok(packet) => put_noise(answer, packet_noise::noise_at(&run, packet, mz)),
        Err(refusal) => answer.refused(refusal),
    }
}

// Labels for the peaks of the packet at a place. More peaks than can be lent for are refused as those that no slice holds.
fn label_packet(run: &[u8], place: u64, lent: &mut LabelSlices) -> Result<u64, Refusal> {
    let mut mz = [0u64; LENT];
    let packet = packet_at(run, place, &mut mz)?;
    let peaks = (packet.peaks as usize).min(LENT);
    label_packet_peaks(
        run,
        packet,
        &mz[..peaks],
        &mut lent.flags,
        &mut lent.noise,
        &mut lent.baseline,
    )
}

fn packet_labels(fields: &mut Fields, answer: &mut Answer) -> Result<(), ProbeError> {
    let place = fields.number()?;
    let mut lent = LabelSlices::lent(fields)?;
    let run = fields.bytes()?;
    fields.end()?;
    let count = label_packet(&run, place, &mut lent);
    answer.count(count)?;
    lent.put(answer)
}

// Answers a request by its word and the fields after that: whether the word is one of these. Where it is none, the fields
// and the answer stay as they were, for the next crate that is asked.
pub fn try_answer(word: &str, fields: &mut Fields, answer: &mut Answer) -> Result<bool, ProbeError>
    ensures { result ≡ Ok false → (fields.new ≡ fields.old) × (answer.new ≡ answer.old) }
{
    match word {
        "narrow" => narrow(fields, answer)?,
        "noise" => noise(fields, answer)?,
        "labels" => labels(fields, answer)?,
        "packet_noise" => packet_noise(fields, answer)?,
        "packet_labels" => packet_labels(fields, answer)?,
        _ => return Ok(false),
    }
    Ok(true)
}

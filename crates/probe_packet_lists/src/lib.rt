// Answers the requests on packets with the lists that they hand out: the crates `packet_skipping` and `packet_full`.
#![tactic(auto)]

ghost use Rattle.std.specs.Prelude.{◌≡◌, Ok, false};

use packet_full::read_packet;
use packet_profile::Profile;
use packet_record::ScanDataPacket;
use packet_skipping::read_skip_profile;
use probe_packets::put_header;
use probe_text::fields::LENT;
use probe_text::{Answer, Fields, ProbeError};
use refusal::Refusal;

// The slices that are lent for a packet's peaks and labels.
#[derive(Drop)]
struct PacketSlices {
    mz: Vec<u64>,
    abundance: Vec<u32>,
    descriptors: Vec<u32>,
    resolutions: Vec<u32>,
}

impl PacketSlices {
    // The fields M, A, D and R.
    fn lent(fields: &mut Fields) -> Result<PacketSlices, ProbeError> {
        Ok(PacketSlices {
            mz: fields.lent(LENT)?,
            abundance: fields.lent(LENT)?,
            descriptors: fields.lent(LENT)?,
            resolutions: fields.lent(LENT)?,
        })
    }

    fn put(&self, answer: &mut Answer) -> Result<(), ProbeError> {
        answer.slice(&self.mz)?;
        answer.slice(&self.abundance)?;
        answer.slice(&self.descriptors)?;
        answer.slice(&self.resolutions)
    }
}

fn put_profile(answer: &mut Answer, profile: Option<Profile>) -> Result<(), ProbeError> {
    let Some(profile) = profile else {
        return answer.put(" -");
    };
    answer.bits(profile.first_value)?;
    answer.bits(profile.step)?;
    answer.number(profile.peak_count)?;
    answer.number(profile.nbins)
}

// The fields of a packet of the run.
fn put_fields(answer: &mut Answer, run: &[u8], packet: ScanDataPacket) -> Result<(), ProbeError> {
    put_header(answer, packet.header)?;
    put_profile(answer, packet.profile)?;
    answer.number(packet.peaks)?;
    answer.number(packet.descriptors)?;
    answer.number(packet.resolutions)?;
    answer.number(packet.noise_nodes)?;
    answer.number(packet.next)?;
    let size = packet.noise_nodes.saturating_mul(12);
    answer.bytes(reader::bytes(run, packet.nodes_at, size))
}

fn put_packet(
    answer: &mut Answer,
    run: &[u8],
    packet: Result<ScanDataPacket, Refusal>,
) -> Result<(), ProbeError> {
    match packet {
        Ok(packet) => put_fields(answer, run, packet),
        Err(refusal) => answer.refused(refusal),
    }
}

fn skip_profile(fields: &mut Fields, answer: &mut Answer) -> Result<(), ProbeError> {
    let place = fields.number()?;
    let mut lent = PacketSlices::lent(fields)?;
    let run = fields.bytes()?;
    fields.end()?;
    let packet = read_skip_profile(
        &run,
        place,
        &mut lent.mz,
        &mut lent.abundance,
        &mut lent.descriptors,
        &mut lent.resolutions,
    );
    put_packet(answer, &run, packet)?;
    lent.put(answer)
}

fn packet(fields: &mut Fields, answer: &mut Answer) -> Result<(), ProbeError> {
    let place = fields.number()?;
    let mut lent = PacketSlices::lent(fields)?;
    let mut bins = fields.lent::<u32>(LENT)?;
    let mut counts = fields.lent::<u32>(LENT)?;
    let mut fudges = fields.lent::<u32>(LENT)?;
    let mut signal = fields.lent::<u32>(LENT)?;
    let run = fields.bytes()?;
    fields.end()?;
    let packet = read_packet(
        &run,
        place,
        &mut lent.mz,
        &mut lent.abundance,
        &mut lent.descriptors,
        &mut lent.resolutions,
        &mut bins,
        &mut counts,
        &mut fudges,
        &mut signal,
    );
    put_packet(answer, &run, packet)?;
    lent.put(answer)?;
    answer.slice(&bins)?;
    answer.slice(&counts)?;
    answer.slice(&fudges)?;
    answer.slice(&signal)
}

// Answers a request by its word and the fields after that: whether the word is one of these. Where it is none, the fields
// and the answer stay as they were, for the next crate that is asked.
pub fn try_answer(word: &str, fields: &mut Fields, answer: &mut Answer) -> Result<bool, ProbeError>
    ensures { result ≡ Ok false → (fields.new ≡ fields.old) × (answer.new ≡ answer.old) }
{
    match word {
        "skip_profile" => skip_profile(fields, answer)?,
        "packet" => packet(fields, answer)?,
        _ => return Ok(false),
    }
    Ok(true)
}

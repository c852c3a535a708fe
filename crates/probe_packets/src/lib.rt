// Answers the requests on headers and places of scan data packets: the crates `packet_header` and `packet_places`.
#![tactic(auto)]

ghost use Rattle.std.specs.Prelude.{◌≡◌, Ok, OnOk, false};
ghost use Rattle.probe_packets.specs.Text.{with_header};

use packet_header::PacketHeader;
use packet_labels::Labels;
use packet_profile::Profile;
use packet_record::PacketPlaces;
use probe_text::{Answer, Fields, ProbeError};

pub fn put_header(answer: &mut Answer, header: PacketHeader) -> Result<(), ProbeError>
    ensures { OnOk result (answer.new ≡ with_header answer.old header) }
{
    answer.ok_number(header.profile_size)?;
    answer.number(header.peak_list_size)?;
    answer.number(header.layout)?;
    answer.number(header.descriptor_list_size)?;
    answer.number(header.unknown_stream_size)?;
    answer.number(header.triplet_stream_size)?;
    answer.bits(header.low_mz)?;
    answer.bits(header.high_mz)
}

fn packet_header(fields: &mut Fields, answer: &mut Answer) -> Result<(), ProbeError> {
    let place = fields.number()?;
    let run = fields.bytes()?;
    fields.end()?;
    match PacketHeader::read(&run, place) {
        Ok(header) => put_header(answer, header),
        Err(refusal) => answer.refused(refusal),
    }
}

fn put_profile(answer: &mut Answer, profile: Option<Profile>) -> Result<(), ProbeError> {
    let Some(profile) = profile else {
        return answer.put(" -");
    };
    answer.number(profile.chunks_at)?;
    answer.number(profile.peak_count)?;
    answer.number(profile.points)
}

fn put_labels(answer: &mut Answer, labels: Labels) -> Result<(), ProbeError> {
    answer.number(labels.descriptors_at)?;
    answer.number(labels.descriptors)?;
    answer.number(labels.unknown_at)?;
    answer.number(labels.resolutions)?;
    answer.number(labels.nodes_at)?;
    answer.number(labels.noise_nodes)?;
    answer.number(labels.next)
}

fn put_places(answer: &mut Answer, places: PacketPlaces) -> Result<(), ProbeError> {
    put_header(answer, places.header)?;
    put_profile(answer, places.profile)?;
    answer.number(places.list.at)?;
    answer.number(places.list.count)?;
    put_labels(answer, places.labels)
}

fn find_places(fields: &mut Fields, answer: &mut Answer) -> Result<(), ProbeError> {
    let place = fields.number()?;
    let run = fields.bytes()?;
    fields.end()?;
    match packet_places::find_places(&run, place) {
        Ok(places) => put_places(answer, places),
        Err(refusal) => answer.refused(refusal),
    }
}

// Answers a request by its word and the fields after that: whether the word is one of these. Where it is none, the fields
// and the answer stay as they were, for the next crate that is asked.
pub fn try_answer(word: &str, fields: &mut Fields, answer: &mut Answer) -> Result<bool, ProbeError>
    ensures { result ≡ Ok false → (fields.new ≡ fields.old) × (answer.new ≡ answer.old) }
{
    match word {
        "packet_header" => packet_header(fields, answer)?,
        "find_places" => find_places(fields, answer)?,
        _ => return Ok(false),
    }
    Ok(true)
}

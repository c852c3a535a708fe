// The label streams after a packet's peak list (`read_labels` of scan_data.rs): descriptors, resolutions and noise nodes.
#![tactic(auto)]

ghost use Rattle.std.specs.Prelude.{◌≡◌};
ghost use Rattle.refusal.specs.Outcome.{on_ok};
ghost use Rattle.refusal.specs.Number.{outcome_of};
ghost use Rattle.packet_labels.specs.Labels.{read_labels, streams_at};
ghost use Rattle.packet_labels.specs.Internal.{word_count};

use packet_header::PacketHeader;
use reader::remaining;
use refusal::{Part, Refusal};

// What the streams hold, and where. Nothing is written: the words stay where they are.
#[derive(Clone, Copy)]
pub struct Labels {
    pub descriptors: u64,
    pub descriptors_at: u64,
    pub resolutions: u64,
    // The place of the stream that holds the resolutions, which starts with a count word.
    pub unknown_at: u64,
    // Twelve bytes each.
    pub noise_nodes: u64,
    pub nodes_at: u64,
    // The place after the streams.
    pub next: u64,
}

// How many words for peaks a stream of this size has: one for each, after the others, or none.
fn word_count(peaks: u64, others: u64, size: u64) -> u64
    ensures { result ≡ word_count peaks others size }
{
    if 1 <= peaks {
        if others <= size {
            if size - others == peaks {
                return peaks;
            }
        }
    }
    0
}

// The streams of a packet with so many peaks. Read or skipped, a stream takes four times its size, so one test judges
// them all.
pub fn read_labels(run: &[u8], at: u64, h: PacketHeader, peaks: u64) -> Result<Labels, Refusal>
    ensures { on_ok (λ l. (l, streams_at run.now l)) (outcome_of result) ≡ read_labels h peaks at run.now }
{
    let descriptors = h.descriptor_list_size as u64;
    let unknown = h.unknown_stream_size as u64;
    let triplets = h.triplet_stream_size as u64;
    if (descriptors + unknown + triplets) * 4 <= remaining(run, at) {
        return Ok(Labels {
            descriptors: word_count(peaks, 0, descriptors),
            descriptors_at: at,
            resolutions: word_count(peaks, 1, unknown),
            unknown_at: at + descriptors * 4,
            noise_nodes: triplets / 3,
            nodes_at: at + descriptors * 4 + unknown * 4,
            next: at + (descriptors + unknown + triplets) * 4,
        });
    }
    Err(Refusal::Short(Part::Data))
}

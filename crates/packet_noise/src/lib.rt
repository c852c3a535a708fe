// Noise and labels by the nodes of a packet that was read (`ScanDataPacket::noise_at` of scan_data.rs). The nodes stay in the run,
// where the record says; a record of other places is answered by what the run has there.
#![tactic(auto)]

ghost use Rattle.std.specs.Prelude.{◌≡◌, [], ◌∷◌};
ghost use Rattle.noise.specs.Nodes.{nodes_of};
ghost use Rattle.noise.specs.Line.{noise_at};
ghost use Rattle.refusal.specs.Number.{outcome_of};
ghost use Rattle.lists.specs.Left.{LeftLists};
ghost use Rattle.noise.specs.Labels.{label_peaks};
ghost use Rattle.packet_record.specs.Packet.{node_bytes};

use noise::label_peaks;
use packet_record::ScanDataPacket;
use reader::bytes;
use refusal::Refusal;

// The bytes of a packet's nodes, as far as the run has them. No run is as long as a product that saturates.
fn node_bytes(run: &[u8], packet: ScanDataPacket) -> &[u8]
    ensures { result.now ≡ node_bytes run.now packet }
{
    bytes(run, packet.nodes_at, packet.noise_nodes.saturating_mul(12))
}

// Noise and baseline at a mass, by the bits of two f32.
pub fn noise_at(run: &[u8], packet: ScanDataPacket, mz: f64) -> Option<(u32, u32)>
    ensures { result ≡ noise_at mz (nodes_of (node_bytes run.now packet)) }
{
    noise::noise_at(mz, node_bytes(run, packet))
}

// A label for each mass, over the fronts of the lent slices. Masses are the bits of f64 numbers, as the readers hand them out.
pub fn label_packet_peaks(
    run: &[u8],
    packet: ScanDataPacket,
    mz: &[u64],
    flags: &mut [u8],
    noise: &mut [u32],
    baseline: &mut [u32],
) -> Result<u64, Refusal>
    ensures { LeftLists (label_peaks (nodes_of (node_bytes run.now packet)) mz.now)
        (flags.old ∷ noise.old ∷ baseline.old ∷ [])
        (outcome_of result) (flags.new ∷ noise.new ∷ baseline.new ∷ []) }
{
    label_peaks(mz, node_bytes(run, packet), flags, noise, baseline)
}

// A packet's peaks and labels, with its profile passed over (`ScanDataPacket::read_skip_profile` of scan_data.rs).
#![tactic(auto)]

ghost use Rattle.std.specs.Prelude.{[], ◌∷◌};
ghost use Rattle.lists.specs.Left.{LeftLists};
ghost use Rattle.packet_record.specs.Packet.{with_nodes};
ghost use Rattle.packet_skipping.specs.Skipping.{read_skip_profile};

use packet_peak_list::skip_to_peaks;
use packet_record::{ScanDataPacket, with_labels, write_packet};
use refusal::Refusal;

pub fn read_skip_profile(
    run: &[u8],
    at: u64,
    mz: &mut [u64],
    abundance: &mut [u32],
    descriptors: &mut [u32],
    resolutions: &mut [u32],
) -> Result<ScanDataPacket, Refusal>
    ensures { LeftLists (λ c. read_skip_profile c at run.now)
        (mz.old ∷ abundance.old ∷ descriptors.old ∷ resolutions.old ∷ [])
        (with_nodes run.now result) (mz.new ∷ abundance.new ∷ descriptors.new ∷ resolutions.new ∷ []) }
{
    let p = skip_to_peaks(run, at)?;
    let places = with_labels(run, p.header, None, p.list)?;
    write_packet(run, places, mz, abundance, descriptors, resolutions)
}

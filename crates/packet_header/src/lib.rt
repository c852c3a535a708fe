// The header of a scan data packet (`PacketHeader` of scan_data.rs). Sizes count words of four bytes.
#![tactic(auto)]

ghost use Rattle.std.specs.Prelude.{◌≡◌, ◌≤◌};
ghost use Rattle.refusal.specs.Number.{outcome_of};
ghost use Rattle.parser.specs.Parser.{remaining};
ghost use Rattle.parser.specs.Internal.{value};
ghost use Rattle.packet_header.specs.Header.{header, read_packet_header};

use reader::{remaining, u32_at};
use refusal::{Part, Refusal};

#[derive(Clone, Copy)]
pub struct PacketHeader {
    pub profile_size: u32,
    pub peak_list_size: u32,
    pub layout: u32,
    pub descriptor_list_size: u32,
    pub unknown_stream_size: u32,
    pub triplet_stream_size: u32,
    // The bits of two f32.
    pub low_mz: u32,
    pub high_mz: u32,
}

// The fields of a header whose bytes are there.
fn fields(run: &[u8], at: u64) -> PacketHeader
    requires { 40 ≤ remaining run.now at }
    ensures { result ≡ value header run.now at 0 }
{
    PacketHeader {
        profile_size: u32_at(run, at + 4),
        peak_list_size: u32_at(run, at + 8),
        layout: u32_at(run, at + 12),
        descriptor_list_size: u32_at(run, at + 16),
        unknown_stream_size: u32_at(run, at + 20),
        triplet_stream_size: u32_at(run, at + 24),
        low_mz: u32_at(run, at + 32),
        high_mz: u32_at(run, at + 36),
    }
}

impl PacketHeader {
    // The header at a place of the run.
    pub fn read(run: &[u8], at: u64) -> Result<PacketHeader, Refusal>
        ensures { outcome_of result ≡ read_packet_header at run.now }
    {
        if 40 <= remaining(run, at) {
            return Ok(fields(run, at));
        }
        Err(Refusal::Short(Part::Data))
    }
}

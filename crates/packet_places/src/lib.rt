// Where the parts of a packet stand, its profile judged chunk by chunk (`ScanDataPacket::read` of scan_data.rs). Nothing is
// handed out.
#![tactic(auto)]

ghost use Rattle.std.specs.Prelude.{◌≡◌, ◌≤◌};
ghost use Rattle.refusal.specs.Number.{outcome_of};
ghost use Rattle.parser.specs.Parser.{remaining};
ghost use Rattle.refusal.specs.Outcome.{on_ok};
ghost use Rattle.packet_labels.specs.Labels.{streams_at};
ghost use Rattle.packet_record.specs.Packet.{contents_at};
ghost use Rattle.packet_places.specs.Places.{find_places};
ghost use Rattle.packet_places.specs.Internal.{find_profile, after_header};

use packet_header::PacketHeader;
use packet_peak_list::read_peaks;
use packet_profile::Profile;
use packet_record::{PacketPlaces, with_labels};
use refusal::Refusal;

// The profile of the packet at a place, whose header is there, if it has one; and the place after it.
fn find_profile(run: &[u8], at: u64, h: PacketHeader) -> Result<(Option<Profile>, u64), Refusal>
    requires { 40 ≤ remaining run.now at }
    ensures { outcome_of result ≡ find_profile h at run.now }
{
    if h.profile_size == 0 {
        return Ok((None, at + 40));
    }
    let (p, next) = Profile::read(run, at + 40, h.layout)?;
    Ok((Some(p), next))
}

fn after_header(run: &[u8], at: u64, h: PacketHeader) -> Result<PacketPlaces, Refusal>
    requires { 40 ≤ remaining run.now at }
    ensures { on_ok (λ v. (v, streams_at run.now v.labels)) (outcome_of result) ≡ after_header h at run.now }
{
    let (profile, next) = find_profile(run, at, h)?;
    let list = read_peaks(run, next, h)?;
    with_labels(run, h, profile, list)
}

// Where the parts of the packet at a place of the run stand.
pub fn find_places(run: &[u8], at: u64) -> Result<PacketPlaces, Refusal>
    ensures { on_ok (λ v. (v, contents_at run.now v)) (outcome_of result) ≡ find_places at run.now }
{
    let h = PacketHeader::read(run, at)?;
    after_header(run, at, h)
}

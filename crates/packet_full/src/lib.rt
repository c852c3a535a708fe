// A whole packet: profile, peaks and labels (`ScanDataPacket::read` of scan_data.rs).
#![tactic(auto)]

ghost use Rattle.std.specs.Prelude.{◌≡◌, [], ◌∷◌};
ghost use Rattle.lists.specs.Left.{fits, over_all, LeftLists};
ghost use Rattle.packet_record.specs.Packet.{with_nodes};
ghost use Rattle.packet_full.specs.Full.{chunk_lists, read_packet};
ghost use Rattle.packet_full.specs.Internal.{ChunksThere, HasChunks, chunk_list, found_chunks, chunk_sizes};

use lists::fits;
use packet_places::find_places;
use packet_profile::{Profile, fudge_at, head_size};
use packet_record::{ScanDataPacket, write_packet};
use reader::{copy, u32_at};
use refusal::Refusal;

// The lists of chunks that are there, where the slices hold them. Each chunk's signal stands after that of the chunk
// before.
fn write_chunks(
    run: &[u8],
    p: Profile,
    bins: &mut [u32],
    counts: &mut [u32],
    fudges: &mut [u32],
    signal: &mut [u32],
)
    requires { ChunksThere p run.now bins.old counts.old fudges.old signal.old }
    ensures { bins.new ∷ counts.new ∷ fudges.new ∷ signal.new ∷ []
        ≡ over_all (chunk_lists (chunk_list p run.now)) (bins.old ∷ counts.old ∷ fudges.old ∷ signal.old ∷ []) }
{
    let fudged = p.fudged;
    let head = head_size(fudged);
    let mut at = p.chunks_at;
    let mut written: usize = 0;
    for i in 0..p.peak_count as usize {
        let n = u32_at(run, at + 4);
        bins[i] = u32_at(run, at);
        counts[i] = n;
        fudges[i] = fudge_at(run, at, fudged);
        let _ = copy::<u32>(run, at + head, 4, n as u64, &mut signal[written..]);
        written = written + n as usize;
        at = at + head + (n as u64) * 4;
    }
}

// Whether slices of these lengths hold the lists of a profile's chunks.
fn chunks_fit(
    profile: Option<Profile>,
    bins: usize,
    counts: usize,
    fudges: usize,
    signal: usize,
) -> bool
    ensures { result ≡ fits (chunk_sizes profile) (bins ∷ counts ∷ fudges ∷ signal ∷ []) }
{
    let (n, points) = profile.map_or((0, 0), |p| (p.peak_count as u64, p.points));
    fits([n, n, n, points], [bins, counts, fudges, signal])
}

// The lists of a profile's chunks, if there is one.
fn write_profile(
    run: &[u8],
    profile: Option<Profile>,
    bins: &mut [u32],
    counts: &mut [u32],
    fudges: &mut [u32],
    signal: &mut [u32],
)
    requires { HasChunks profile run.now bins.old counts.old fudges.old signal.old }
    ensures { bins.new ∷ counts.new ∷ fudges.new ∷ signal.new ∷ []
        ≡ over_all (chunk_lists (found_chunks profile run.now)) (bins.old ∷ counts.old ∷ fudges.old ∷ signal.old ∷ []) }
{
    if let Some(p) = profile {
        write_chunks(run, p, bins, counts, fudges, signal);
    }
}

// The packet at a place of the run.
pub fn read_packet(
    run: &[u8],
    at: u64,
    mz: &mut [u64],
    abundance: &mut [u32],
    descriptors: &mut [u32],
    resolutions: &mut [u32],
    bins: &mut [u32],
    counts: &mut [u32],
    fudges: &mut [u32],
    signal: &mut [u32],
) -> Result<ScanDataPacket, Refusal>
    ensures { LeftLists (λ c. read_packet c at run.now)
        (mz.old ∷ abundance.old ∷ descriptors.old ∷ resolutions.old ∷ bins.old ∷ counts.old ∷ fudges.old ∷ signal.old ∷ [])
        (with_nodes run.now result)
        (mz.new ∷ abundance.new ∷ descriptors.new ∷ resolutions.new ∷ bins.new ∷ counts.new ∷ fudges.new ∷ signal.new ∷ []) }
{
    let places = find_places(run, at)?;
    let profile = places.profile;
    if !chunks_fit(
        profile,
        bins.len(),
        counts.len(),
        fudges.len(),
        signal.len(),
    ) {
        return Err(Refusal::NoRoom);
    }
    let packet = write_packet(run, places, mz, abundance, descriptors, resolutions)?;
    write_profile(run, profile, bins, counts, fudges, signal);
    Ok(packet)
}

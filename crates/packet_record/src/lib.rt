// What a scan data packet holds, whichever of its readers read it (`ScanDataPacket` of scan_data.rs): the answer, and what
// the readers share once the peak list is found. The lists go into lent slices; fields that are only read keep their bits.
#![tactic(auto)]

ghost use Rattle.std.specs.Prelude.{◌≡◌, true, [], ◌∷◌};
ghost use Rattle.refusal.specs.Outcome.{on_ok};
ghost use Rattle.refusal.specs.Number.{outcome_of};
ghost use Rattle.lists.specs.Left.{fits, lengths, over_all, LeftLists};
ghost use Rattle.packet_labels.specs.Labels.{streams_at};
ghost use Rattle.packet_record.specs.Packet.{contents_at, with_labels, record_of, lists_of, packet_if_fits, with_nodes};

use lists::fits;
use packet_header::PacketHeader;
use packet_labels::{Labels, read_labels};
use packet_peak_list::PeakList;
use packet_profile::Profile;
use reader::{copy, saturating_add};
use refusal::Refusal;

#[derive(Clone, Copy)]
pub struct ScanDataPacket {
    pub header: PacketHeader,
    // A packet without a profile, or one whose profile is passed over, has none.
    pub profile: Option<Profile>,
    // How much of each lent slice was written; peaks counts masses and abundances alike.
    pub peaks: u64,
    pub descriptors: u64,
    pub resolutions: u64,
    // Noise nodes stay where they are: how many there are, of twelve bytes each, and the place of the first.
    pub noise_nodes: u64,
    pub nodes_at: u64,
    // The place after the packet.
    pub next: u64,
}

// Where a packet's parts stand, before anything is written.
#[derive(Clone, Copy)]
pub struct PacketPlaces {
    pub header: PacketHeader,
    pub profile: Option<Profile>,
    pub list: PeakList,
    pub labels: Labels,
}

// The places of a packet whose peak list was found: its labels follow.
pub fn with_labels(
    run: &[u8],
    header: PacketHeader,
    profile: Option<Profile>,
    list: PeakList,
) -> Result<PacketPlaces, Refusal>
    ensures { on_ok (λ v. (v, streams_at run.now v.labels)) (outcome_of result) ≡ with_labels header profile list run.now }
{
    let labels = read_labels(run, list.next, header, list.count)?;
    Ok(PacketPlaces {
        header,
        profile,
        list,
        labels,
    })
}

// A packet's peaks and labels, over the fronts of slices that hold them.
fn write_lists(
    run: &[u8],
    places: PacketPlaces,
    mz: &mut [u64],
    abundance: &mut [u32],
    descriptors: &mut [u32],
    resolutions: &mut [u32],
)
    requires { fits (lengths (lists_of (contents_at run.now places))) (lengths (mz.old ∷ abundance.old ∷ descriptors.old ∷ resolutions.old ∷ [])) ≡ true }
    ensures { mz.new ∷ abundance.new ∷ descriptors.new ∷ resolutions.new ∷ []
        ≡ over_all (lists_of (contents_at run.now places)) (mz.old ∷ abundance.old ∷ descriptors.old ∷ resolutions.old ∷ []) }
{
    let list = places.list;
    let labels = places.labels;
    let _ = peaks::write_peaks(run, list.row(), mz, abundance);
    let _ = copy::<u32>(
        run,
        labels.descriptors_at,
        4,
        labels.descriptors,
        descriptors,
    );
    let _ = copy::<u32>(
        run,
        saturating_add(labels.unknown_at, 4),
        4,
        labels.resolutions,
        resolutions,
    );
}

// The answer's record.
fn record_of(places: PacketPlaces) -> ScanDataPacket
    ensures { result ≡ record_of places }
{
    let list = places.list;
    let labels = places.labels;
    let header = places.header;
    let profile = places.profile;
    ScanDataPacket {
        header,
        profile,
        peaks: list.count,
        descriptors: labels.descriptors,
        resolutions: labels.resolutions,
        noise_nodes: labels.noise_nodes,
        nodes_at: labels.nodes_at,
        next: labels.next,
    }
}

// The packet that was found in the run, where the slices hold it.
pub fn write_packet(
    run: &[u8],
    places: PacketPlaces,
    mz: &mut [u64],
    abundance: &mut [u32],
    descriptors: &mut [u32],
    resolutions: &mut [u32],
) -> Result<ScanDataPacket, Refusal>
    ensures { LeftLists (λ c. packet_if_fits c places (contents_at run.now places) [])
        (mz.old ∷ abundance.old ∷ descriptors.old ∷ resolutions.old ∷ [])
        (with_nodes run.now result) (mz.new ∷ abundance.new ∷ descriptors.new ∷ resolutions.new ∷ []) }
{
    let n = places.list.count;
    let labels = places.labels;
    if fits(
        [n, n, labels.descriptors, labels.resolutions],
        [
            mz.len(),
            abundance.len(),
            descriptors.len(),
            resolutions.len(),
        ],
    ) {
        write_lists(run, places, mz, abundance, descriptors, resolutions);
        return Ok(record_of(places));
    }
    Err(Refusal::NoRoom)
}

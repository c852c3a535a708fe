// The profile of a packet (`Profile::read` of scan_data.rs): chunks of signal, each with a size of its own.
#![tactic(auto)]

ghost use Rattle.std.specs.Prelude.{◌≡◌, ◌≤◌};
ghost use Rattle.refusal.specs.Number.{outcome_of};
ghost use Rattle.parser.specs.Parser.{parse, repeat};
ghost use Rattle.packet_profile.specs.Profile.{is_fudged, head_size, chunk, fudge_at, find_signal, read_profile};
ghost use Rattle.packet_profile.specs.Internal.{chunks_answer};

use reader::{remaining, saturating_add, u32_at, u64_at};
use refusal::{Part, Refusal};

// Nothing is written: the chunks stay where they are.
#[derive(Clone, Copy)]
pub struct Profile {
    // The bits of two f64.
    pub first_value: u64,
    pub step: u64,
    pub peak_count: u32,
    pub nbins: u32,
    // Whether each chunk has a fudge.
    pub fudged: bool,
    // The place of the first chunk.
    pub chunks_at: u64,
    // How many signal values the chunks hold together.
    pub points: u64,
}

// Where a chunk's signal stands, how many values it has, and the place after it.
#[derive(Clone, Copy)]
pub struct Signal {
    pub at: u64,
    pub points: u64,
    pub next: u64,
}

// How many signal values the chunks hold, and the place after them.
#[derive(Clone, Copy)]
struct ChunkList {
    points: u64,
    next: u64,
}

fn is_fudged(layout: u32) -> bool
    ensures { result ≡ is_fudged layout }
{
    layout % 256 != 0
}

// How many bytes of a chunk stand before its signal.
pub fn head_size(fudged: bool) -> u64
    ensures value { result ≡ head_size fudged }
    ensures lower_bound { 8 ≤ result }
    ensures upper_bound { result ≤ 12 }
{
    if fudged { 12 } else { 8 }
}

// The fudge of the chunk at a place. Where there is none, it has the bits of 0.0.
pub fn fudge_at(run: &[u8], at: u64, fudged: bool) -> u32
    ensures { result ≡ fudge_at fudged run.now at }
{
    if fudged {
        u32_at(run, saturating_add(at, 8))
    } else {
        0
    }
}

// The signal of the chunk at a place.
pub fn signal_at(run: &[u8], at: u64, fudged: bool) -> Result<Signal, Refusal>
    ensures { outcome_of result ≡ find_signal fudged at run.now }
{
    let head = head_size(fudged);
    if remaining(run, at) < head {
        return Err(Refusal::Short(Part::Data));
    }
    let points = u32_at(run, at + 4) as u64;
    if remaining(run, at + head) < points * 4 {
        return Err(Refusal::Short(Part::Data));
    }
    Ok(Signal {
        at: at + head,
        points,
        next: at + head + points * 4,
    })
}

// Each chunk that is passed is there, so the loop ends with the run, whatever count is stored.
fn pass_chunks(run: &[u8], start: u64, fudged: bool, count: u32) -> Result<ChunkList, Refusal>
    ensures { result ≡ chunks_answer (parse (repeat count (chunk fudged)) run.now start) }
{
    let mut at = start;
    let mut points: u64 = 0;
    for _ in 0..count {
        let signal = signal_at(run, at, fudged)?;
        points = points + signal.points;
        at = signal.next;
    }
    Ok(ChunkList { points, next: at })
}

impl Profile {
    // The profile at a place of the run, in a packet of this layout, and the place after it.
    pub fn read(run: &[u8], at: u64, layout: u32) -> Result<(Profile, u64), Refusal>
        ensures { outcome_of result ≡ read_profile layout at run.now }
    {
        if remaining(run, at) < 24 {
            return Err(Refusal::Short(Part::Data));
        }
        let count = u32_at(run, at + 16);
        if remaining(run, at + 24) < (count as u64) * 8 {
            return Err(Refusal::Short(Part::Data));
        }
        let fudged = is_fudged(layout);
        let chunks = pass_chunks(run, at + 24, fudged, count)?;
        let profile = Profile {
            first_value: u64_at(run, at),
            step: u64_at(run, at + 8),
            peak_count: count,
            nbins: u32_at(run, at + 20),
            fudged,
            chunks_at: at + 24,
            points: chunks.points,
        };
        Ok((profile, chunks.next))
    }
}

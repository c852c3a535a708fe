// The pairs of m/z and intensity of a scan, in two lent slices: those of a profile (`Profile::to_mz_intensity` of
// scan_data.rs), and those of a peak list.
#![tactic(auto)]

ghost use Rattle.std.specs.Prelude.{◌≡◌, ◌≤◌, length};
ghost use Rattle.std.specs.Float.{binary32, binary64};
ghost use Rattle.std.specs.Float.Ieee.{of_bits};
ghost use Rattle.std.proofs.Common.{ap};
ghost use Rattle.lists.specs.Left.{firsts, seconds, pairs_if_fit, LeftPairs};
ghost use Rattle.lists.specs.Written.{over};
ghost use Rattle.parser.specs.Parser.{f64_at, f32_at};
ghost use Rattle.parser.specs.Walk.{sum};
ghost use Rattle.reader.specs.Beyond.{no_words};
ghost use Rattle.packet_profile.specs.Profile.{points as points_of};
ghost use Rattle.peaks.specs.Peaks.{row_peaks};
ghost use Rattle.pairs.specs.Pairs.{chunks_of, profile_pairs, peak_pairs};

use calibration::{Bins, write_chunk};
use float_bits::{f64_of_bits, widened};
use lists::fits;
use packet_profile::{Profile, fudge_at, signal_at};
use peaks::{PeakRow, write_row};
use reader::{Stored, u32_at, u64_at};
use refusal::Refusal;

// How many pairs a profile has. The walk ends at the first chunk that the run does not hold, whatever count the record says.
fn count_pairs(run: &[u8], profile: Profile) -> u64
    ensures { result ≡ sum points_of (chunks_of profile run.now) }
{
    let mut at = profile.chunks_at;
    let mut pairs: u64 = 0;
    for _ in 0..profile.peak_count {
        let Ok(found) = signal_at(run, at, profile.fudged) else {
            return pairs;
        };
        pairs = pairs + found.points;
        at = found.next;
    }
    pairs
}

// The pairs of a profile's chunks, as far as the run has them, where both slices hold them.
fn write_pairs(
    run: &[u8],
    profile: Profile,
    coefficients: &[u64],
    mz: &mut [f64],
    intensity: &mut [f64],
)
    requires run_in_bounds { sum points_of (chunks_of profile run.now) ≤ length mz.old }
    requires run_in_bounds_2 { sum points_of (chunks_of profile run.now) ≤ length intensity.old }
    ensures mz_after { mz.new ≡ over (firsts (profile_pairs profile coefficients.now run.now)) mz.old }
    ensures intensity_after { intensity.new ≡ over (seconds (profile_pairs profile coefficients.now run.now)) intensity.old }
{
    let Profile {
        first_value,
        step,
        peak_count,
        fudged,
        chunks_at,
        ..
    } = profile;
    let bins = Bins { first_value, step };
    let mut at = chunks_at;
    let mut n: usize = 0;
    for _ in 0..peak_count {
        let Ok(signal) = signal_at(run, at, fudged) else {
            return;
        };
        let _ = write_chunk(
            run,
            signal.at,
            signal.points,
            u32_at(run, at),
            fudge_at(run, at, fudged),
            bins,
            coefficients,
            &mut mz[n..],
            &mut intensity[n..],
        );
        n = n + signal.points as usize;
        at = signal.next;
    }
}

// The pairs of a profile's chunks, as far as the run has them, over the fronts of both slices.
pub fn to_mz_intensity(
    run: &[u8],
    profile: Profile,
    coefficients: &[u64],
    mz: &mut [f64],
    intensity: &mut [f64],
) -> Result<u64, Refusal>
    ensures { LeftPairs (λ m i. pairs_if_fit m i (profile_pairs profile coefficients.now run.now)) mz.old intensity.old result mz.new intensity.new }
{
    let pairs = count_pairs(run, profile);
    if fits([pairs, pairs], [mz.len(), intensity.len()]) {
        write_pairs(run, profile, coefficients, mz, intensity);
        return Ok(pairs);
    }
    Err(Refusal::NoRoom)
}

// A number that is stored as an f64, and one that is stored as an f32 and widened.
struct Double;

struct Single;

impl Stored for Double {
    type Value = f64;

    ghost value = { λ s p. f64_at s p };

    ghost beyond = { λ s p q a b. ap (of_bits binary64) (no_words s p q 8 a b) };

    fn read(run: &[u8], at: u64) -> f64 {
        f64_of_bits(u64_at(run, at))
    }
}

impl Stored for Single {
    type Value = f64;

    ghost value = { λ s p. f32_at s p };

    ghost beyond = { λ s p q a b. ap (of_bits binary32) (no_words s p q 4 a b) };

    fn read(run: &[u8], at: u64) -> f64 {
        widened(u32_at(run, at))
    }
}

// The pairs of a row of peaks.
pub fn peak_pairs(
    run: &[u8],
    row: PeakRow,
    mz: &mut [f64],
    intensity: &mut [f64],
) -> Result<u64, Refusal>
    ensures { LeftPairs (λ m i. pairs_if_fit m i (peak_pairs (row_peaks row run.now))) mz.old intensity.old result mz.new intensity.new }
{
    write_row::<Double, Single, Single>(run, row, mz, intensity)
}

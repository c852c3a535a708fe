// A list of centroid peaks in two lent slices: a peak's m/z as the bits of an f64, its abundance as those of an f32. Packets,
// flat records and SRM records hand their peaks out here.
#![tactic(auto)]

ghost use Rattle.std.specs.Prelude.{◌≡◌};
ghost use Rattle.std.proofs.Common.{ap};
ghost use Rattle.lists.specs.Left.{pairs_if_fit, LeftPairs};
ghost use Rattle.parser.specs.Parser.{word_at};
ghost use Rattle.reader.specs.Beyond.{no_words};
ghost use Rattle.peaks.specs.Peaks.{widened_bits, row_values, row_peaks};

use float_bits::{bits_of_f64, widened};
use lists::fits;
use reader::{Stored, copy, saturating_add, u32_at};
use refusal::Refusal;

fn widened_bits(bits: u32) -> u64
    ensures { result ≡ widened_bits bits }
{
    bits_of_f64(widened(bits))
}

// Peaks at equal distances: an m/z, and right after it the abundance.
#[derive(Clone, Copy)]
pub struct PeakRow {
    // The place of the first.
    pub at: u64,
    pub stride: u64,
    pub count: u64,
    // The m/z is stored as an f64.
    pub wide: bool,
}

// An m/z that is stored as an f32, as the bits of an f64.
struct Widened;

impl Stored for Widened {
    type Value = u64;

    ghost value = { λ s p. widened_bits (word_at s p 4) };

    ghost beyond = { λ s p q a b. ap widened_bits (no_words s p q 4 a b) };

    fn read(run: &[u8], at: u64) -> u64 {
        widened_bits(u32_at(run, at))
    }
}

// The columns of a row, over the fronts of two slices that hold them: W reads a wide m/z, N another, and A what stands after it.
pub fn write_row<W: Stored, N: Stored<Value = W::Value>, A: Stored>(
    run: &[u8],
    row: PeakRow,
    firsts: &mut [W::Value],
    seconds: &mut [A::Value],
) -> Result<u64, Refusal>
    ensures { LeftPairs (λ m n. pairs_if_fit m n (row_values W.value N.value A.value row run.now)) firsts.old seconds.old result firsts.new seconds.new }
{
    let PeakRow {
        at,
        stride,
        count,
        wide,
    } = row;
    if fits([count, count], [firsts.len(), seconds.len()]) {
        if wide {
            let _ = copy::<W>(run, at, stride, count, firsts);
            let _ = copy::<A>(run, saturating_add(at, 8), stride, count, seconds);
        } else {
            let _ = copy::<N>(run, at, stride, count, firsts);
            let _ = copy::<A>(run, saturating_add(at, 4), stride, count, seconds);
        }
        return Ok(count);
    }
    Err(Refusal::NoRoom)
}

// The peaks of a row.
pub fn write_peaks(
    run: &[u8],
    row: PeakRow,
    mz: &mut [u64],
    abundance: &mut [u32],
) -> Result<u64, Refusal>
    ensures { LeftPairs (λ m a. pairs_if_fit m a (row_peaks row run.now)) mz.old abundance.old result mz.new abundance.new }
{
    write_row::<u64, Widened, u32>(run, row, mz, abundance)
}

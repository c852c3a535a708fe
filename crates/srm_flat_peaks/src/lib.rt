// Flat peaks (`read_flat_peaks` of scan_data.rs): a record ends with its peaks, two f32 each, and a flag byte for each of them.
// How many peaks there are is not stored: data_size - 1 are tried first, then data_size - 2.
#![tactic(auto)]

ghost use Rattle.std.specs.Prelude.{◌≡◌, ◌<◌};
ghost use Rattle.std.specs.Float.{binary32};
ghost use Rattle.std.specs.Float.Ieee.{of_bits};
ghost use Rattle.refusal.specs.Number.{outcome_of};
ghost use Rattle.parser.specs.Parser.{parse};
ghost use Rattle.lists.specs.Left.{LeftPairs};
ghost use Rattle.srm_flat_peaks.specs.Flat.{is_plausible, attempt, attempts, read_flat_peaks, find_flat_peaks};
ghost use Rattle.srm_flat_peaks.specs.Internal.{attempt_answer};

use float_bits::widened;
use peaks::{PeakRow, write_peaks};
use reader::{remaining, saturating_add, u32_at};
use refusal::{Part, Refusal};

// Whether an f32 is a plausible m/z: zero, or between 10 and 10,000, both excluded.
fn is_plausible(bits: u32) -> bool
    ensures { result ≡ is_plausible (of_bits binary32 bits) }
{
    let mz = widened(bits);
    mz == 0.0 || (mz > 10.0 && mz < 10000.0)
}

// An attempt at data_size - subtract peaks, of a record that ends at `end`: the place and the count of those that are accepted, by the
// first of them, or none where they are passed over.
fn attempt_at(
    run: &[u8],
    end: u64,
    cum_end: u64,
    data_size: u32,
    subtract: u32,
) -> Result<Option<(u64, u64)>, Refusal>
    ensures { result ≡ attempt_answer (parse (attempt end cum_end data_size subtract) run.now end) }
{
    if data_size <= subtract {
        return Ok(None);
    }
    let count = (data_size - subtract) as u64;
    let section = count * 9;
    if section > cum_end {
        return Ok(None);
    }
    let place = end.saturating_sub(section);
    if count * 8 > remaining(run, place) {
        return Err(Refusal::Short(Part::Data));
    }
    if is_plausible(u32_at(run, place)) {
        return Ok(Some((place, count)));
    }
    Ok(None)
}

// Both attempts. The second is made where the first was passed over, not where it ran out.
fn attempts_at(
    run: &[u8],
    end: u64,
    cum_end: u64,
    data_size: u32,
) -> Result<Option<(u64, u64)>, Refusal>
    ensures { result ≡ attempt_answer (parse (attempts end cum_end data_size) run.now end) }
{
    match attempt_at(run, end, cum_end, data_size, 1)? {
        Some(found) => Ok(Some(found)),
        None => attempt_at(run, end, cum_end, data_size, 2),
    }
}

// The peaks of a record, found and not handed out. Each takes 8 bytes.
pub fn find_flat_peaks(
    run: &[u8],
    data: u64,
    cum_end: u64,
    data_size: u32,
) -> Result<(u64, u64), Refusal>
    ensures { outcome_of result ≡ find_flat_peaks «data» cum_end data_size run.now }
{
    let end = saturating_add(data, cum_end);
    if data_size <= 1 {
        return Ok((end, 0));
    }
    attempts_at(run, end, cum_end, data_size)?.ok_or(Refusal::UnrecognizedScanRecord)
}

pub fn read_flat_peaks(
    run: &[u8],
    data: u64,
    cum_end: u64,
    data_size: u32,
    mz: &mut [u64],
    abundance: &mut [u32],
) -> Result<u64, Refusal>
    ensures { LeftPairs (λ m a. read_flat_peaks m a «data» cum_end data_size run.now) mz.old abundance.old result mz.new abundance.new }
{
    let (place, count) = find_flat_peaks(run, data, cum_end, data_size)?;
    let row = PeakRow {
        at: place,
        stride: 8,
        count,
        wide: false,
    };
    write_peaks(run, row, mz, abundance)
}

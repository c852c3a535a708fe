// SRM scans of version 66 (`read_scan_srm_v66` and `read_scan_srm_v66_windows` of scan_data.rs): a count of channels, a window
// for each, and then a peak for each. The record's size, which the Rust takes and never uses, is left out.
#![tactic(auto)]

ghost use Rattle.std.specs.Prelude.{◌≡◌, ◌+◌, ◌≤◌, length};
ghost use Rattle.refusal.specs.Number.{outcome_of};
ghost use Rattle.lists.specs.Left.{pairs_if_fit, LeftPairs};
ghost use Rattle.srm_scan.specs.Scan.{read_srm_peaks, find_srm_peaks, read_srm_windows};
ghost use Rattle.srm_scan.specs.Internal.{channels, windows_at};

use lists::fits;
use peaks::{PeakRow, write_peaks};
use reader::{copy, remaining, saturating_add, u32_at};
use refusal::{Part, Refusal};

// The channels of the scan at a place, whose table takes `size` bytes for each. Their count is below 2^32, so no product wraps,
// and one test judges all that follows it.
fn count_channels(run: &[u8], at: u64, size: u64) -> Result<u64, Refusal>
    requires { size ≤ 20 }
    ensures { outcome_of result ≡ channels size run.now at }
{
    if remaining(run, at) < 4 {
        return Err(Refusal::Short(Part::Data));
    }
    let n = u32_at(run, at) as u64;
    if n == 0 {
        return Ok(0);
    }
    let all = 28 + n * size;
    if remaining(run, at + 4) < all {
        return Err(Refusal::Short(Part::Data));
    }
    Ok(n)
}

// The peaks of a scan, found and not handed out. Each m/z stands 12 bytes after the one before, its abundance right after it.
pub fn find_srm_peaks(run: &[u8], data: u64, offset: u64) -> Result<(u64, u64), Refusal>
    ensures { outcome_of result ≡ find_srm_peaks «data» offset run.now }
{
    let at = saturating_add(data, offset);
    let n = count_channels(run, at, 20)?;
    Ok((at + 36 + n * 8, n))
}

pub fn read_scan_srm_v66(
    run: &[u8],
    data: u64,
    offset: u64,
    mz: &mut [u64],
    abundance: &mut [u32],
) -> Result<u64, Refusal>
    ensures { LeftPairs (λ m a. read_srm_peaks m a «data» offset run.now) mz.old abundance.old result mz.new abundance.new }
{
    let (place, count) = find_srm_peaks(run, data, offset)?;
    let row = PeakRow {
        at: place,
        stride: 12,
        count,
        wide: false,
    };
    write_peaks(run, row, mz, abundance)
}

// n windows, where the slices hold them: two columns, which are no row of peaks.
fn write_windows(
    run: &[u8],
    at: u64,
    n: u64,
    low: &mut [u32],
    high: &mut [u32],
) -> Result<u64, Refusal>
    requires { at ≤ length run.now + 28 }
    ensures { LeftPairs (λ l h. pairs_if_fit l h (windows_at run.now at n)) low.old high.old result low.new high.new }
{
    if fits([n, n], [low.len(), high.len()]) {
        let _ = copy::<u32>(run, at, 8, n, low);
        let _ = copy::<u32>(run, at + 4, 8, n, high);
        return Ok(n);
    }
    Err(Refusal::NoRoom)
}

// The window of each channel, by the bits of its two ends.
pub fn read_scan_srm_v66_windows(
    run: &[u8],
    data: u64,
    offset: u64,
    low: &mut [u32],
    high: &mut [u32],
) -> Result<u64, Refusal>
    ensures { LeftPairs (λ l h. read_srm_windows l h «data» offset run.now) low.old high.old result low.new high.new }
{
    let at = saturating_add(data, offset);
    let n = count_channels(run, at, 8)?;
    write_windows(run, at + 32, n, low, high)
}

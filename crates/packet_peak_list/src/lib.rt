// The centroid peak list of a packet (`read_peaks` and `read_peaks_only` of scan_data.rs).
#![tactic(auto)]

ghost use Rattle.std.specs.Prelude.{◌≡◌, ◌≤◌};
ghost use Rattle.refusal.specs.Number.{outcome_of};
ghost use Rattle.lists.specs.Left.{LeftPairs};
ghost use Rattle.packet_peak_list.specs.PeakList.{row, is_wide, item_size, read_peaks, skip_to_peaks, read_peaks_only};

use packet_header::PacketHeader;
use peaks::{PeakRow, write_peaks};
use reader::{remaining, u32_at};
use refusal::{Part, Refusal};

// Where the peaks of a list stand: the place of the first, how many there are, whether an m/z is an f64, and the place
// after the list.
#[derive(Clone, Copy)]
pub struct PeakList {
    pub at: u64,
    pub count: u64,
    pub wide: bool,
    pub next: u64,
}

// A packet's header and its peak list.
#[derive(Clone, Copy)]
pub struct HeaderAndPeaks {
    pub header: PacketHeader,
    pub list: PeakList,
}

fn is_wide(layout: u32) -> bool
    ensures { result ≡ is_wide layout }
{
    layout / 65536 % 2 == 1
}

// How many bytes a peak takes.
pub fn item_size(wide: bool) -> u64
    ensures value { result ≡ item_size wide }
    ensures upper_bound { result ≤ 12 }
{
    if wide { 12 } else { 8 }
}

impl PeakList {
    // Its peaks, one right after the other.
    pub fn row(self) -> PeakRow
        ensures { result ≡ row self }
    {
        PeakRow {
            at: self.at,
            stride: item_size(self.wide),
            count: self.count,
            wide: self.wide,
        }
    }
}

// The peak list at a place of the run. Nothing is written: the peaks stay where they are.
pub fn read_peaks(run: &[u8], at: u64, h: PacketHeader) -> Result<PeakList, Refusal>
    ensures { outcome_of result ≡ read_peaks h at run.now }
{
    let wide = is_wide(h.layout);
    if h.peak_list_size == 0 {
        return Ok(PeakList {
            at,
            count: 0,
            wide,
            next: at,
        });
    }
    if 4 <= remaining(run, at) {
        let n = u32_at(run, at) as u64;
        let all = n * item_size(wide);
        if all <= remaining(run, at + 4) {
            return Ok(PeakList {
                at: at + 4,
                count: n,
                wide,
                next: at + 4 + all,
            });
        }
    }
    Err(Refusal::Short(Part::Data))
}

// The header and the peak list of the packet at a place of the run. The profile is passed over by its stated size.
pub fn skip_to_peaks(run: &[u8], at: u64) -> Result<HeaderAndPeaks, Refusal>
    ensures { outcome_of result ≡ skip_to_peaks at run.now }
{
    let h = PacketHeader::read(run, at)?;
    let profile = (h.profile_size as u64) * 4;
    if profile <= remaining(run, at + 40) {
        let list = read_peaks(run, at + 40 + profile, h)?;
        return Ok(HeaderAndPeaks { header: h, list });
    }
    Err(Refusal::Short(Part::Data))
}

// The peaks of the packet at a place of the run, and nothing else of it.
pub fn read_peaks_only(
    run: &[u8],
    at: u64,
    mz: &mut [u64],
    abundance: &mut [u32],
) -> Result<u64, Refusal>
    ensures { LeftPairs (λ m a. read_peaks_only m a at run.now) mz.old abundance.old result mz.new abundance.new }
{
    let p = skip_to_peaks(run, at)?;
    write_peaks(run, p.list.row(), mz, abundance)
}

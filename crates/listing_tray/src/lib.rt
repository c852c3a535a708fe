// The text of a tray's listing, piece by piece: the header's line, and the lines of one scan. Each function answers how many
// bytes it wrote, or refusal 8 where the slice does not hold them all.
#![tactic(auto)]

ghost use Rattle.std.specs.Prelude.{◌≡◌};
ghost use Rattle.refusal.specs.Number.{outcome_of};
ghost use Rattle.lists.specs.Left.{LeftList};
ghost use Rattle.tray_scan.specs.Scan.{format_in, scan_at, end_in, place_or_end};
ghost use Rattle.listing_tray.specs.Listing.{capacities, scan_text, header_text};
ghost use Rattle.listing_tray.specs.Internal.{lines_of};

use listing_lines::{write_refusal_line, write_scan_lines, write_tray_line};
use listing_pairs::keep_listed;
use refusal::Refusal;
use scan_format::ScanDataFormat;
use tray_header::TrayHeader;
use tray_scan::{format_in, scan_at};

// How many bytes of a scan's text were written, and the place to read the next event at.
#[derive(Clone, Copy)]
pub struct ListedScan {
    pub written: Result<u64, Refusal>,
    pub next: u64,
}

// The line of a header that was read, or of its refusal.
pub fn list_header(header: Result<TrayHeader, Refusal>, out: &mut [u8]) -> Result<u64, Refusal>
    ensures { LeftList (header_text (outcome_of header)) out.old result out.new }
{
    match header {
        Err(r) => write_refusal_line(0, r, out),
        Ok(h) => write_tray_line(h.version, h.scans, out),
    }
}

// The lines of a scan whose pairs stand in two slices. Those that are listed are moved to the fronts.
fn write_listed(
    format: ScanDataFormat,
    k: u32,
    coefficients: u64,
    mz: &mut [f64],
    intensity: &mut [f64],
    out: &mut [u8],
) -> Result<u64, Refusal>
    ensures { LeftList (lines_of format k coefficients mz.old intensity.old) out.old result out.new }
{
    let n = keep_listed(format, mz, intensity);
    write_scan_lines(k, coefficients, &mz[..n], &intensity[..n], out)
}

// The lines of scan k of a run, whose event stands at this place. There is no heap: the arrays are a listing's limits.
pub fn list_scan(run: &[u8], at: u64, h: TrayHeader, k: u32, out: &mut [u8]) -> ListedScan
    ensures left_list { LeftList (scan_text (format_in h) k (scan_at capacities h k at run.now)) out.old result.written out.new }
    ensures next_value { result.next ≡ place_or_end (end_in h at run.now) }
{
    let mut preamble = [0u8; 136];
    let mut precursors = [0u64; 64];
    let mut energies = [0u64; 64];
    let mut coefficients = [0u64; 64];
    let mut mz = [0.0f64; 2048];
    let mut intensity = [0.0f64; 2048];
    let read = scan_at(
        run,
        at,
        h,
        k,
        &mut preamble,
        &mut precursors,
        &mut energies,
        &mut coefficients,
        &mut mz,
        &mut intensity,
    );
    let next = read.next;
    let answer = read.scan;
    match answer {
        Err(r) => ListedScan {
            written: write_refusal_line(k, r, out),
            next,
        },
        Ok(scan) => {
            let n = scan.pairs as usize;
            let event = scan.event;
            ListedScan {
                written: write_listed(
                    format_in(h),
                    k,
                    event.coefficients,
                    &mut mz[..n],
                    &mut intensity[..n],
                    out,
                ),
                next,
            }
        }
    }
}

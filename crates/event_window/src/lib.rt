// The acquisition window in the body of a scan event from version 66 on (`plausible_window` and the candidate search of
// `read_v66` in scan_event.rs).
#![tactic(auto)]

ghost use Rattle.std.specs.Prelude.{◌≡◌, ◌∷◌, [], length};
ghost use Rattle.event_window.specs.Window.{window_of, first_window, candidates};

use float_bits::{f64_of_bits, is_finite};
use reader::{remaining, u64_at};

// An enum of its own, and no `Option`, as document 01 names it with these cases.
#[derive(Clone, Copy)]
pub enum Window {
    Absent,
    Ends(f64, f64),
}

// A window, the bits of its ends, and its offset in the body; 0 where it is absent: the bits are kept as the record's fields, and the count word's place is sought by
// the offset as a number.
#[derive(Clone, Copy)]
pub struct FoundWindow {
    pub window: Window,
    pub low: u64,
    pub high: u64,
    pub offset: u64,
}

const NO_WINDOW: FoundWindow = FoundWindow {
    window: Window::Absent,
    low: 0,
    high: 0,
    offset: 0,
};

// Both ends finite, and 0.1 <= low <= high <= 50000. Equal ends are a window: some scans have a single point.
pub fn window_of(low: f64, high: f64) -> Window
    ensures { result ≡ window_of low high }
{
    if is_finite(low) && is_finite(high) && 0.1 <= low && low <= high && high <= 50000.0 {
        Window::Ends(low, high)
    } else {
        Window::Absent
    }
}

// The window at an offset in the body.
#[tactic(auto, using(crate::proofs::Search::too_few))]
pub fn plausible_window(body: &[u8], off: u64) -> FoundWindow
    ensures { result ≡ first_window body.now (off ∷ []) }
{
    if 16 <= remaining(body, off) {
        let low = u64_at(body, off);
        let high = u64_at(body, off + 8);
        let window = window_of(f64_of_bits(low), f64_of_bits(high));
        if let Window::Ends(_, _) = window {
            return FoundWindow {
                window,
                low,
                high,
                offset: off,
            };
        }
    }
    NO_WINDOW
}

// The window at the first of these offsets that has one. An offset after a window is not looked at.
fn first_window(body: &[u8], offsets: &[u64]) -> FoundWindow
    ensures { result ≡ first_window body.now offsets.now }
{
    for &off in offsets {
        let found = plausible_window(body, off);
        if let Window::Ends(_, _) = found.window {
            return found;
        }
    }
    NO_WINDOW
}

// The window of a body. A tribrid's dependent events have it elsewhere than other instruments.
pub fn find_window(body: &[u8], tribrid: bool) -> FoundWindow
    ensures { result ≡ first_window body.now (candidates tribrid (length body.now)) }
{
    let size = body.len() as u64;
    if tribrid {
        first_window(body, &[size.saturating_sub(88), 8, 64, 128])
    } else {
        first_window(body, &[64, 8, 128, size.saturating_sub(80)])
    }
}

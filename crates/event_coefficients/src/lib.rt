// The calibration coefficients in the body of a scan event from version 66 on (`read_coefficients` of scan_event.rs).
#![tactic(auto)]

ghost use Rattle.std.specs.Prelude.{◌≡◌};
ghost use Rattle.event_coefficients.specs.Coefficients.{word_offset, coefficient_count};

use reader::{remaining, u32_at};

// Where the count word stands in a body of `size` bytes whose window is at `window`, or absent, which counts as 0.
#[tactic(auto, unfolding(crate::specs::Coefficients::word_offset))]
pub fn word_offset(window: u64, size: u64, primary: bool) -> u64
    ensures { result ≡ word_offset window size primary }
{
    if window == 64 {
        return 80;
    }
    if window == 8 && size == 96 && primary {
        return 24;
    }
    size.saturating_sub(64)
}

// How many coefficients stand after the count word. A stored count beyond the body is cut to what fits.
#[tactic(auto, unfolding(crate::specs::Coefficients::coefficient_count))]
pub fn coefficient_count(body: &[u8], offset: u64) -> u64
    ensures { result ≡ coefficient_count body.now offset }
{
    if remaining(body, offset) < 4 {
        return 0;
    }
    let stored = u32_at(body, offset) as u64;
    stored.min(remaining(body, offset + 4) / 8)
}

// The elements of lent slices: what they hold before the call, and how they are printed after it (docs/REQUESTS.md, "Form").
ghost use Rattle.std.specs.Prelude.{◌≡◌, ℕ, ◌+◌, ◌%◌, ◌^◌, ◌<◌, ◌≤◌, to_bits};
ghost use lib.Dec.{lit<, lit≤};
ghost use Rattle.std.specs.Float.{binary64};
ghost use Rattle.std.specs.Float.Ieee.{of_bits};

// No slice that is lent is longer.
pub const LONGEST: usize = 1024;

pub trait Element: Copy {
    // How many hexadecimal digits it is printed in.
    ghost DIGITS: { ℕ };

    const DIGITS: usize;

    ghost printed: { (0 < DIGITS) × (DIGITS ≤ 16) };

    // What element i holds before a slice is lent.
    ghost filler_at: { ℕ → Self };

    fn filler(i: u16) -> Self
        ensures { result ≡ filler_at i };

    // The number that is printed.
    ghost bits_of: { Self → ℕ };

    fn bits(self) -> u64
        ensures value { result ≡ bits_of self }
        ensures fits { result < 16 ^ DIGITS };
}

impl Element for u8 {
    ghost DIGITS = { 2 };

    const DIGITS: usize = 2;

    ghost printed = { (lit< tt, lit≤ tt) };

    ghost filler_at = { λ i. (0xa5 + i) % 256 };

    fn filler(i: u16) -> u8 {
        ((0xa5 + i as u32) % 256) as u8
    }

    ghost bits_of = { λ x. x };

    fn bits(self) -> u64 {
        u64::from(self)
    }
}

impl Element for u16 {
    ghost DIGITS = { 4 };

    const DIGITS: usize = 4;

    ghost printed = { (lit< tt, lit≤ tt) };

    ghost filler_at = { λ i. (0xa5a0 + i) % 65536 };

    fn filler(i: u16) -> u16 {
        ((0xa5a0 + i as u32) % 65536) as u16
    }

    ghost bits_of = { λ x. x };

    fn bits(self) -> u64 {
        u64::from(self)
    }
}

impl Element for u32 {
    ghost DIGITS = { 8 };

    const DIGITS: usize = 8;

    ghost printed = { (lit< tt, lit≤ tt) };

    ghost filler_at = { λ i. 0xa5a5_0000 + i };

    fn filler(i: u16) -> u32 {
        0xa5a5_0000 + i as u32
    }

    ghost bits_of = { λ x. x };

    fn bits(self) -> u64 {
        u64::from(self)
    }
}

impl Element for u64 {
    ghost DIGITS = { 16 };

    const DIGITS: usize = 16;

    ghost printed = { (lit< tt, lit≤ tt) };

    ghost filler_at = { λ i. 0xa5a5_a5a5_0000_0000 + i };

    fn filler(i: u16) -> u64 {
        0xa5a5_a5a5_0000_0000 + i as u64
    }

    ghost bits_of = { λ x. x };

    fn bits(self) -> u64 {
        self
    }
}

impl Element for f64 {
    ghost DIGITS = { 16 };

    const DIGITS: usize = 16;

    ghost printed = { (lit< tt, lit≤ tt) };

    ghost filler_at = { λ i. of_bits binary64 (0xa5a5_a5a5_0000_0000 + i) };

    fn filler(i: u16) -> f64 {
        float_bits::f64_of_bits(u64::filler(i))
    }

    // Any NaN has the same bits.
    ghost bits_of = { λ x. to_bits binary64 x };

    fn bits(self) -> u64 {
        float_bits::bits_of_f64(self)
    }
}

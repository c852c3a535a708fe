// Floats and their bit patterns, in the terms of std's Float: `from_bits f b` is the value of the pattern b in
// the format f, and `to_bits f x` the pattern of x. There is one NaN: every NaN pattern is read as it, and
// it is written as 0x7ff8_0000_0000_0000, in an `f32` as 0x7fc0_0000.
// Each function stands for both formats: a trait over them would be longer than the four pairs of one line each. `is_finite` and
// `absolute` are worked out from bits, as document 01 says of them, and not by std's methods.
#![tactic(auto)]

ghost use Rattle.std.specs.Prelude.{◌≡◌, from_bits, is_nan, to_bits};
ghost use Rattle.std.specs.Float.{binary32, binary64};
ghost use Rattle.std.specs.Float.Ieee.Scale.{finite};
ghost use Rattle.float_bits.specs.Absolute.{absolute};

use std::num::{
    f32_from_bits_with_nan, f32_to_bits_with_nan, f32_to_f64_with_nan, f64_from_bits_with_nan,
    f64_to_bits_with_nan,
};

// Whether a pattern is a NaN's: with the sign off, it is above the infinity's.
pub fn is_nan64(b: u64) -> bool
    ensures { result ≡ is_nan (from_bits binary64 b) }
{
    b % 0x8000_0000_0000_0000 > 0x7ff0_0000_0000_0000
}

pub fn is_nan32(b: u32) -> bool
    ensures { result ≡ is_nan (from_bits binary32 b) }
{
    b % 0x8000_0000 > 0x7f80_0000
}

// Whether a pattern is a finite number's: with the sign off, it is below the infinity's.
pub fn is_finite64(b: u64) -> bool
    ensures { result ≡ finite (from_bits binary64 b) }
{
    b % 0x8000_0000_0000_0000 < 0x7ff0_0000_0000_0000
}

pub fn is_finite32(b: u32) -> bool
    ensures { result ≡ finite (from_bits binary32 b) }
{
    b % 0x8000_0000 < 0x7f80_0000
}

// The value of a pattern.
pub fn f64_of_bits(b: u64) -> f64
    ensures { result ≡ from_bits binary64 b }
{
    f64_from_bits_with_nan(b)
}

pub fn f32_of_bits(b: u32) -> f32
    ensures { result ≡ from_bits binary32 b }
{
    f32_from_bits_with_nan(b)
}

// The pattern of a value.
pub fn bits_of_f64(x: f64) -> u64
    ensures { result ≡ to_bits binary64 x }
{
    f64_to_bits_with_nan(x)
}

pub fn bits_of_f32(x: f32) -> u32
    ensures { result ≡ to_bits binary32 x }
{
    f32_to_bits_with_nan(x)
}

// Whether a value is a finite number.
pub fn is_finite(x: f64) -> bool
    ensures { result ≡ finite x }
{
    is_finite64(bits_of_f64(x))
}

// The value of an `f32`'s pattern as an `f64`: the same number.
pub fn widened(b: u32) -> f64
    ensures { result ≡ from_bits binary32 b }
{
    f32_to_f64_with_nan(f32_of_bits(b))
}

// A value without its sign. A NaN gives a NaN.
pub fn absolute(x: f64) -> f64
    ensures { result ≡ absolute x }
{
    f64_of_bits(bits_of_f64(x) % 0x8000_0000_0000_0000)
}

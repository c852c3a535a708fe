// From an f64 to the nearest f32, a tie to the even one (`as f32`), worked out from the bits, as document 01 says of it, and not by a
// cast.
#![tactic(auto)]

ghost use Rattle.std.specs.Prelude.{◌≡◌, ◌^◌, ◌<◌};
ghost use Rattle.float_bits.specs.Rounding.{nearest_half_even};
ghost use Rattle.float_narrow.specs.Internal.{narrow_bits};
ghost use Rattle.float_narrow.specs.Narrow.{narrow};

use float_bits::f32_of_bits;

// The whole number nearest to n / 2^s, a tie to the even one.
fn nearest_shift(n: u64, s: u64) -> u64
    requires n_bound { n < 2 ^ 63 }
    requires s_bound { s < 64 }
    ensures { result ≡ nearest_half_even n (2 ^ s) }
{
    let unit = 1u64 << s;
    let kept = n / unit;
    let rest = n % unit * 2;
    if rest < unit {
        kept
    } else if rest == unit {
        kept + kept % 2
    } else {
        kept + 1
    }
}

// The f32 pattern for an f64 pattern, both with the sign off.
#[tactic(auto, using(crate::proofs::Ranges::ranges))]
fn narrow_bits(r: u64) -> u64
    ensures { result ≡ narrow_bits r }
{
    let field = r >> 52;
    if field < 872 {
        return 0;
    }
    if field > 1150 {
        return 0x7f80_0000;
    }
    let digits = 0x10_0000_0000_0000 + r % 0x10_0000_0000_0000;
    if field < 897 {
        nearest_shift(digits, 926 - field)
    } else {
        (field - 897) * 0x80_0000 + nearest_shift(digits, 29)
    }
}

// The f32 nearest to x. A NaN gives the NaN.
pub fn narrowed(x: f64) -> f32
    ensures { result ≡ narrow x }
{
    if x != x {
        return 0.0 / 0.0;
    }
    let bits = f64::to_bits(x);
    let size = narrow_bits(bits % 0x8000_0000_0000_0000) as u32;
    if bits < 0x8000_0000_0000_0000 {
        f32_of_bits(size)
    } else {
        f32_of_bits(0x8000_0000 + size)
    }
}

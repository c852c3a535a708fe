// A mass in ten-thousandths: the nearest whole number, a half up, judged on the exact binary value.
#![tactic(auto)]

ghost use Rattle.std.specs.Prelude.{◌≡◌, T};
ghost use Rattle.std.specs.Float.Ieee.{le};
ghost use Rattle.refusal.specs.Number.{outcome_of};
ghost use Rattle.float_ten_thousandths.specs.TenThousandths.{scaled, ten_thousandths};
ghost use Rattle.float_bits.specs.Numbers.{zero_f, largest_mass};

use refusal::Refusal;

// 10000 is 625 * 2^4, and the digits times 625 fit a `u64`. Below 2^-15 the answer is 0.
fn scaled(x: f64) -> u64
    requires not_negative { T (le zero_f x) }
    requires at_most_largest { T (le x largest_mass) }
    ensures { result ≡ scaled x }
{
    if x >= 0.000030517578125 {
        let bits = f64::to_bits(x);
        let digits = 0x10_0000_0000_0000 + bits % 0x10_0000_0000_0000;
        let halves = (digits * 625) >> (1070 - (bits >> 52));
        (halves + 1) / 2
    } else {
        0
    }
}

// -0 is 0. A NaN fails both tests.
pub fn ten_thousandths(x: f64) -> Result<u64, Refusal>
    ensures { outcome_of result ≡ ten_thousandths x }
{
    if 0.0 <= x && x <= 50000.0 {
        Ok(scaled(x))
    } else {
        Err(Refusal::MassOutOfRange)
    }
}

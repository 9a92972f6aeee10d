// Five significant digits, half upwards: for thresholds that are read and for scaling alike.
ghost use Rattle.std.specs.Prelude.{◌≡◌, ◌≤◌, ◌<◌, ◌+◌, ◌*◌, ◌^◌, nat_abs, pos, ◌+ℤ◌, ◌-ℤ◌};
ghost use Rattle.numbers.specs.Numbers.{five};
ghost use Rattle.numbers.specs.Rounding.{climb, nearest, rounded};

use crate::threshold::Threshold;

// n times as many tens as bring it up to `to`, and how many.
#[tactic(auto, using(crate::proofs::Climb::one_turn))]
fn climb(n: u64, to: u64) -> (u64, u32)
    requires { to ≤ 1000000000000000000 }
    ensures { result ≡ (n * 10 ^ climb n to, climb n to) }
{
    let mut size = n;
    for tens in 0..18 {
        if to <= size {
            return (size, tens);
        }
        size *= 10;
    }
    (size, 18)
}

// n / d to the nearest whole number, half upwards.
fn nearest(n: u64, d: u64) -> u32
    requires { (1 ≤ d) × (n < d * 100000) }
    ensures { result ≡ nearest n d }
{
    let q = n / d;
    let r = n % d;
    if d - r <= r { (q + 1) as u32 } else { q as u32 }
}

// The power of ten of five digits, for a number that was moved up and down to have them.
fn power(tens: i32, up: u32, down: u32) -> i32
    requires { (nat_abs tens ≤ 1000) × (up + down ≤ 16) }
    ensures { result ≡ tens +ℤ pos (4 + down) -ℤ pos up }
{
    tens + (4 + down) as i32 - up as i32
}

// over / under times ten to the tens, to five significant digits.
pub(crate) fn rounded(over: u64, under: u64, tens: i32) -> Threshold
    requires { (1 ≤ over) × (1 ≤ under) × (under ≤ 1000000000000) × (nat_abs tens ≤ 1000) }
    ensures { result ≡ rounded five over under tens }
{
    let (n, up) = climb(over, under * 10000);
    let (d, down) = climb(under, over / 100000 + 1);
    let exponent = power(tens, up, down);
    match nearest(n, d) {
        100000 => Threshold {
            mantissa: 10000,
            exponent: exponent + 1,
        },
        mantissa => Threshold { mantissa, exponent },
    }
}

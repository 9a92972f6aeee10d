// Whole numbers and factors.
ghost use Rattle.std.specs.Prelude.{◌≡◌, ◌≤◌, ◌<◌, ◌-◌, ◌*◌, ◌^◌, length, IfSome};
ghost use Rattle.numerals.specs.Whole.{number_of, whole_of, behind_point, factor_of};

use crate::runs::{digits, value};

// One to `most` digits, and nothing behind them.
#[tactic(auto, unfolding(crate::specs::Whole::number_of))]
pub(crate) fn number(s: &[u8], most: usize) -> Option<u32>
    requires { most ≤ 3 }
    ensures value { result ≡ number_of most s.now }
    ensures bound { IfSome result (λ n. n < 10 ^ most) }
    ensures few { IfSome result (λ n. (1 ≤ length s.now) × (length s.now ≤ most)) }
{
    let (run, rest) = digits(s);
    if rest.is_empty() && (1..=most).contains(&run.len()) {
        Some(value(0, run) as u32)
    } else {
        None
    }
}

// The whole number that s is.
pub fn read_whole(s: &[u8]) -> Option<u32>
    ensures { result ≡ whole_of s.now }
{
    number(s, 3)
}

// m, of k digits behind the point, in thousandths.
fn thousandths(m: u32, k: usize) -> u32
    requires { (m < 1000) × (1 ≤ k) × (k ≤ 3) }
    ensures value { result ≡ m * 10 ^ (3 - k) }
    ensures bound { result < 100000 }
{
    m * 10_u32.pow((3 - k) as u32)
}

// n, and what follows its digits: nothing, or a point and one to three digits.
#[tactic(auto, using(crate::proofs::DigitRuns::heads), unfolding(crate::specs::Whole::behind_point))]
fn behind(n: u32, s: &[u8]) -> Option<u32>
    requires { n ≤ 2300 }
    ensures { result ≡ behind_point n s.now }
{
    match s {
        [] => Some(n * 1000),
        [b'.', digits @ ..] => {
            let m = number(digits, 3)?;
            Some(n * 1000 + thousandths(m, digits.len()))
        }
        _ => None,
    }
}

// The factor that s is, in thousandths.
#[tactic(auto, unfolding(crate::specs::Whole::factor_of))]
pub fn read_factor(s: &[u8]) -> Option<u32>
    ensures { result ≡ factor_of s.now }
{
    let (whole, rest) = digits(s);
    if (1..=2).contains(&whole.len()) {
        behind(value(0, whole) as u32, rest)
    } else {
        None
    }
}

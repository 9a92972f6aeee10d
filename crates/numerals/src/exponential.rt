// Thresholds.
ghost use Rattle.std.specs.Prelude.{◌≡◌, IfSome};
ghost use Rattle.numerals.specs.Runs.{lead, rest};
ghost use Rattle.numerals.specs.Whole.{number_of};
ghost use Rattle.numerals.specs.Exponential.{TwoDigits, with_sign, signed_power, power_of};
ghost use Rattle.numerals.specs.Exponential.{composed, fraction, after_fraction, threshold_of};

use crate::runs::{digits, value};
use crate::whole::number;
use numbers::threshold::Threshold;

// Why a part of a line is no threshold: by its form, or by its value. No `Display`: a host is told the error word alone.
#[derive(Clone, Copy, Debug, PartialEq, Eq)]
pub enum ThresholdFault {
    Malformed,
    OutOfRange,
}

// The digits of s as a power of ten.
fn power_of(s: &[u8], minus: bool) -> Option<i32>
    ensures value { result ≡ with_sign minus (number_of 2 s.now) }
    ensures bound { IfSome result TwoDigits }
{
    let n = number(s, 2)? as i32;
    Some(if minus { -n } else { n })
}

// An optional sign and a power of ten.
#[tactic(auto, using(crate::proofs::DigitRuns::heads), unfolding(crate::specs::Exponential::after_sign))]
fn signed_power(s: &[u8]) -> Option<i32>
    ensures value { result ≡ signed_power s.now }
    ensures bound { IfSome result TwoDigits }
{
    match s {
        [b'-', digits @ ..] => power_of(digits, true),
        [b'+', digits @ ..] => power_of(digits, false),
        _ => power_of(s, false),
    }
}

// What stands behind the digits: nothing, or E and a power.
#[tactic(auto, using(crate::proofs::DigitRuns::heads), unfolding(crate::specs::Exponential::power_of))]
fn power_behind(s: &[u8]) -> Option<i32>
    ensures value { result ≡ power_of s.now }
    ensures bound { IfSome result TwoDigits }
{
    match s {
        [] => Some(0),
        [b'E', power @ ..] => signed_power(power),
        _ => None,
    }
}

// The digits before the point, those behind it, and what follows them.
#[tactic(auto, using(crate::proofs::DigitRuns::room), unfolding(crate::specs::Exponential::composed))]
fn compose(whole: &[u8], fraction: &[u8], s: &[u8]) -> Result<Threshold, ThresholdFault>
    ensures { result ≡ composed whole.now fraction.now s.now }
{
    if !(1..=12).contains(&(whole.len() + fraction.len())) {
        return Err(ThresholdFault::Malformed);
    }
    let power = power_behind(s).ok_or(ThresholdFault::Malformed)?;
    let n = value(value(0, whole), fraction);
    Threshold::fitted(n, power - fraction.len() as i32).ok_or(ThresholdFault::OutOfRange)
}

// Digits with or without a point.
#[tactic(auto, using(crate::proofs::DigitRuns::heads, crate::proofs::DigitRuns::lead_part), unfolding(crate::specs::Exponential::fraction, crate::specs::Exponential::after_fraction))]
fn unsigned(s: &[u8]) -> Result<Threshold, ThresholdFault>
    ensures { result ≡ composed (lead s.now) (fraction (rest s.now)) (after_fraction (rest s.now)) }
{
    let (whole, behind) = digits(s);
    match behind {
        [b'.', behind @ ..] => {
            let (fraction, power) = digits(behind);
            compose(whole, fraction, power)
        }
        _ => compose(whole, &[], behind),
    }
}

// The threshold that s is.
#[tactic(auto, using(crate::proofs::DigitRuns::heads), unfolding(crate::specs::Exponential::threshold_of, crate::specs::Exponential::after_plus))]
pub fn read_threshold(s: &[u8]) -> Result<Threshold, ThresholdFault>
    ensures { result ≡ threshold_of s.now }
{
    match s {
        [b'+', digits @ ..] => unsigned(digits),
        _ => unsigned(s),
    }
}

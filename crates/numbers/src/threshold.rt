// Thresholds: d.dddd times a power of ten, within their end stops.
ghost use Rattle.std.specs.Prelude.{◌≡◌};
ghost use Rattle.numbers.specs.Numbers.{five, OfDigits, within_stops};
ghost use Rattle.numbers.specs.Rounding.{fitted_to, held_within, multiplied_by};

use crate::rounding::rounded;
use crate::value::{Ratio, Value};

// Its five digits without the point, and its power of ten.
#[derive(Clone, Copy, PartialEq, Eq, Debug)]
pub struct Threshold {
    pub mantissa: u32,
    pub exponent: i32,
}

impl Threshold {
    pub const LEAST_DIGITS: u32 = 10000;

    pub const MOST_DIGITS: u32 = 99999;

    pub const LEAST_EXPONENT: i32 = -20;

    pub const MOST_EXPONENT: i32 = 20;

    // The end stops.
    const LEAST: Threshold = Threshold {
        mantissa: Threshold::LEAST_DIGITS,
        exponent: Threshold::LEAST_EXPONENT,
    };

    const MOST: Threshold = Threshold {
        mantissa: Threshold::MOST_DIGITS,
        exponent: Threshold::MOST_EXPONENT,
    };

    // Whether it lies within the end stops.
    pub fn is_within(self) -> bool
        ensures { result ≡ within_stops self }
    {
        (Threshold::LEAST_DIGITS..=Threshold::MOST_DIGITS).contains(&self.mantissa)
            && (Threshold::LEAST_EXPONENT..=Threshold::MOST_EXPONENT).contains(&self.exponent)
    }

    // n times ten to the x, rounded to five digits, half upwards; none where no threshold holds it.
    #[tactic(auto, using(crate::proofs::Stops::fitted_cases))]
    pub fn fitted(n: u64, x: i32) -> Option<Threshold>
        ensures { result ≡ fitted_to n x }
    {
        // a power beyond these is far outside whatever n is, and its sums need no more bits
        if n == 0 || !(-1000..=1000).contains(&x) {
            return None;
        }
        Some(rounded(n, 1, x)).filter(|t| t.is_within())
    }

    // Beyond an end stop, that stop.
    #[tactic(auto, using(crate::proofs::Holding::held_cases))]
    fn held(self) -> Threshold
        requires { OfDigits five self.mantissa }
        ensures { result ≡ held_within self }
    {
        if self.exponent < Threshold::LEAST_EXPONENT {
            Threshold::LEAST
        } else if Threshold::MOST_EXPONENT < self.exponent {
            Threshold::MOST
        } else {
            self
        }
    }

    // The threshold times the ratio, rounded once as a value is, and held within the end stops.
    pub(crate) fn multiplied(self, ratio: Ratio) -> Threshold
        ensures { result ≡ multiplied_by self ratio }
    {
        if self.is_within() && ratio.is_usable() {
            // no `From`, which takes every threshold: a mantissa of 2^31 or more, ruled out here, has no `i32`
            let value = Value {
                mantissa: self.mantissa as i32,
                exponent: self.exponent,
            };
            value.product(ratio).held()
        } else {
            self
        }
    }
}

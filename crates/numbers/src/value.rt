// Signed values: their order beside thresholds, and their scaling.
ghost use Rattle.std.specs.Prelude.{◌≡◌, true, ◌&&◌};
ghost use Rattle.std.specs.Ordering.{is_some_and, is_lt, is_gt};
ghost use Rattle.numbers.specs.Numbers.{five, is_five, is_zero, is_number, is_below, is_above};
ghost use Rattle.numbers.specs.Rounding.{is_usable, product, scaled_by};

use crate::rounding::rounded;
use crate::signs::{magnitude, with_sign};
use crate::threshold::Threshold;
use std::cmp::Ordering;

// d.dddd times a power of ten, of either sign; zero has exponent 0.
// Not one generic type with `Threshold`: shared are two field names and a test of digits; limits and sign are not.
#[derive(Clone, Copy, PartialEq, Eq, Debug)]
pub struct Value {
    pub mantissa: i32,
    pub exponent: i32,
}

// An exact factor, over / under.
#[derive(Clone, Copy, PartialEq, Eq, Debug)]
pub struct Ratio {
    pub over: u64,
    pub under: u64,
}

impl Ratio {
    // The largest part that a product with five digits carries without overflow.
    pub const LARGEST: u64 = 1000000000000;

    const ONE: Ratio = Ratio { over: 1, under: 1 };

    pub fn is_usable(self) -> bool
        ensures { result ≡ is_usable self }
    {
        (1..=Ratio::LARGEST).contains(&self.over) && (1..=Ratio::LARGEST).contains(&self.under)
    }
}

impl Value {
    pub const LEAST_EXPONENT: i32 = -99;

    pub const MOST_EXPONENT: i32 = 99;

    pub const ZERO: Value = Value {
        mantissa: 0,
        exponent: 0,
    };

    // Whether it has five digits and an exponent of two.
    pub fn is_five(self) -> bool
        ensures { result ≡ is_five self }
    {
        (Threshold::LEAST_DIGITS..=Threshold::MOST_DIGITS).contains(&magnitude(self.mantissa))
            && (Value::LEAST_EXPONENT..=Value::MOST_EXPONENT).contains(&self.exponent)
    }

    pub fn is_zero(self) -> bool
        ensures { result ≡ is_zero self }
    {
        self == Value::ZERO
    }

    // Whether it is a number: zero, or five digits.
    pub fn is_number(self) -> bool
        ensures { result ≡ is_number self }
    {
        self.is_zero() || self.is_five()
    }

    // How it lies to the threshold; none where it is no number, or the threshold not within its stops.
    // By hand and no `partial_cmp`: `PartialOrd` has one type on both sides, and a threshold is no value.
    #[tactic(auto, using(crate::proofs::Order::ways_out))]
    fn order(self, t: Threshold) -> Option<Ordering>
        ensures below { is_some_and is_lt result ≡ is_below self t }
        ensures above { is_some_and is_gt result ≡ is_above self t }
    {
        if !(self.is_number() && t.is_within()) {
            return None;
        }
        if self.mantissa <= 0 {
            return Some(Ordering::Less);
        }
        let digits = magnitude(self.mantissa);
        Some((self.exponent, digits).cmp(&(t.exponent, t.mantissa)))
    }

    pub fn is_below(self, t: Threshold) -> bool
        ensures { result ≡ is_below self t }
    {
        self.order(t) == Some(Ordering::Less)
    }

    pub fn is_above(self, t: Threshold) -> bool
        ensures { result ≡ is_above self t }
    {
        self.order(t) == Some(Ordering::Greater)
    }

    // The magnitude of the value times the ratio, rounded once.
    pub(crate) fn product(self, ratio: Ratio) -> Threshold
        requires { is_five self && is_usable ratio ≡ true }
        ensures { result ≡ product five self ratio }
    {
        let digits = u64::from(magnitude(self.mantissa));
        rounded(digits * ratio.over, ratio.under, self.exponent - 4)
    }

    // The value times the ratio, rounded once to five digits, half upwards; by one it stays as it is.
    pub fn scaled(self, ratio: Ratio) -> Value
        ensures { result ≡ scaled_by self ratio }
    {
        if ratio == Ratio::ONE || !(self.is_five() && ratio.is_usable()) {
            return self;
        }
        let product = self.product(ratio);
        Value {
            mantissa: with_sign(self.mantissa, product.mantissa),
            exponent: product.exponent,
        }
    }
}

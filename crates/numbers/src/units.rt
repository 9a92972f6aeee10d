// The units of pressure, their exact factors from hPa, and thresholds in another unit.
ghost use Rattle.std.specs.Prelude.{◌≡◌};
ghost use Rattle.numbers.specs.Units.{from_hpa, factor_between, re_expressed};

use crate::threshold::Threshold;
use crate::value::Ratio;

// The units that are not hPa by another name; numbers, since `from_hpa` promises what one that is no unit gives.
const TORR: u32 = 1;

const PASCAL: u32 = 2;

const MICRON: u32 = 3;

// The factor from hPa to a unit; mbar is hPa, and a number that is no unit leaves hPa.
pub fn from_hpa(unit: u32) -> Ratio
    ensures { result ≡ from_hpa unit }
{
    let (over, under) = match unit {
        TORR => (3040, 4053),
        PASCAL => (100, 1),
        MICRON => (3040000, 4053),
        _ => (1, 1),
    };
    Ratio { over, under }
}

// The factor from one unit to another.
fn factor_between(old: u32, new: u32) -> Ratio
    ensures { result ≡ factor_between old new }
{
    let from = from_hpa(old);
    let to = from_hpa(new);
    Ratio {
        over: to.over * from.under,
        under: to.under * from.over,
    }
}

impl Threshold {
    // The threshold of the old unit as one of the new: one rounding from the exact product, never through hPa.
    // Two numbers and no pair as a struct: the promise, `re_expressed`, is of two, and nothing keeps them together.
    pub fn re_expressed(self, old: u32, new: u32) -> Threshold
        ensures { result ≡ re_expressed old new self }
    {
        self.multiplied(factor_between(old, new))
    }
}

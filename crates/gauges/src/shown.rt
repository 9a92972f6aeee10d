// What is shown of a reading in the unit chosen: its text, and the switching by it.
ghost use Rattle.std.specs.Prelude.{◌≡◌};
ghost use Rattle.text.specs.Writing.{Wrote};
ghost use Rattle.gauges.specs.Shown.{in_hpa, shown_of, shown_text, switched};

use crate::reading::Reading;
use numbers::threshold::Threshold;
use numbers::units::from_hpa;
use numbers::value::Value;
use numerals::writing::value_bytes;
use text::writer::Writer;

// A reading as it is shown: its status, and its value in the unit chosen. The status is a number, as `Reading` has it.
#[derive(Clone, Copy, PartialEq, Eq, Debug)]
pub struct Shown {
    pub status: u8,
    pub value: Value,
}

impl Reading {
    // The value to show, still in hPa: a channel without a sensor has one too.
    fn in_hpa(self) -> Value
        ensures { result ≡ in_hpa self }
    {
        if self.status == Reading::STATUS_NO_SENSOR {
            Value {
                mantissa: 20000,
                exponent: -2,
            }
        } else {
            self.value
        }
    }

    // The reading as replies and switching have it.
    pub fn shown(self, unit: u32) -> Shown
        ensures { result ≡ shown_of self unit }
    {
        Shown {
            status: self.status,
            value: self.in_hpa().scaled(from_hpa(unit)),
        }
    }
}

impl Shown {
    // Whether a switching function of the channel is on after this; `was` is whether it was on before.
    #[tactic(auto, unfolding(crate::specs::Shown::switched))]
    pub fn switches(self, lower: Threshold, upper: Threshold, was: bool) -> bool
        ensures { result ≡ switched self lower upper was }
    {
        if self.status != Reading::STATUS_OKAY {
            return false;
        }
        self.value.is_below(lower) || (was && !self.value.is_above(upper))
    }
}

// A shown reading as it is sent.
#[tactic(auto, using(text::proofs::Pages::puts_append))]
pub fn write_shown(out: &mut Writer, s: Shown)
    ensures { Wrote out.old out.new (shown_text s) }
{
    out.whole(u32::from(s.status));
    out.put(b',');
    out.append(&value_bytes(s.value));
}

// A reading of a gauge, and its limits.
ghost use Rattle.std.specs.Prelude.{◌≡◌};
ghost use Rattle.gauges.specs.Readings.{value_in_range, sensor_agrees, identifier_agrees, within_limits, no_reading};

use numbers::value::Value;

// The kind of gauge, its status, and its value in hPa.
// Kind and status are numbers and no enums: `within_limits`, and so answer 5, speaks of readings with any.
#[derive(Clone, Copy, PartialEq, Eq, Debug)]
pub struct Reading {
    pub kind: u8,
    pub status: u8,
    pub value: Value,
}

impl Reading {
    // kinds and statuses that the limits tie to each other
    pub const KIND_NO_SENSOR: u8 = 6;

    pub const KIND_NO_IDENTIFIER: u8 = 7;

    pub const STATUS_NO_SENSOR: u8 = 5;

    pub const STATUS_NO_IDENTIFIER: u8 = 6;

    pub const MOST_STATUS: u8 = 6;

    // the one status of good data
    pub const STATUS_OKAY: u8 = 0;

    pub const LEAST_EXPONENT: i32 = -20;

    pub const MOST_EXPONENT: i32 = 20;

    // What a channel without a reading has.
    pub fn none() -> Reading
        ensures { result ≡ no_reading }
    {
        Reading {
            kind: Reading::KIND_NO_SENSOR,
            status: Reading::STATUS_NO_SENSOR,
            value: Value::ZERO,
        }
    }

    fn value_in_range(self) -> bool
        ensures { result ≡ value_in_range self.value }
    {
        self.value.is_number()
            && (Reading::LEAST_EXPONENT..=Reading::MOST_EXPONENT).contains(&self.value.exponent)
    }

    // No sensor by the status exactly where there is none by the kind, and the value is then zero.
    fn sensor_agrees(self) -> bool
        ensures { result ≡ sensor_agrees self }
    {
        let absent = self.kind == Reading::KIND_NO_SENSOR;
        (self.status == Reading::STATUS_NO_SENSOR) == absent && (!absent || self.value.is_zero())
    }

    fn identifier_agrees(self) -> bool
        ensures { result ≡ identifier_agrees self }
    {
        (self.status == Reading::STATUS_NO_IDENTIFIER) == (self.kind == Reading::KIND_NO_IDENTIFIER)
    }

    // Whether it is a reading that a gauge can give, where there are so many kinds of them.
    #[tactic(auto, unfolding(crate::specs::Readings::within_limits))]
    pub fn is_within(self, kinds: u8) -> bool
        ensures { result ≡ within_limits kinds self }
    {
        self.kind < kinds
            && self.status <= Reading::MOST_STATUS
            && self.value_in_range()
            && self.sensor_agrees()
            && self.identifier_agrees()
    }
}

// What the gauges report, and what is shown of it: readings, the text of a reading, the switching rule.
#![tactic(auto)]

pub mod reading;
pub mod shown;

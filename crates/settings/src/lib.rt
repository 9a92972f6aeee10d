// What a box is set to: models, mnemonics, the table of their fields and defaults, settings and their limits, and storing.
#![tactic(auto)]

use numbers::threshold::Threshold;

pub mod kinds;
pub mod limits;
pub mod mnemonic;
pub mod model;
pub mod rows;
pub mod table;

// One switching function.
#[derive(Clone, Copy, Debug, PartialEq, Eq)]
pub struct Switching {
    // a number and no enum: `within`, `starts_on` and `follows` speak of any number
    pub assignment: u32,
    pub lower: Threshold,
    pub upper: Threshold,
}

// A number, or one for each channel; no array like `factors`: none of these is put by its channel, as CFx puts those.
#[derive(Clone, Copy, Debug, PartialEq, Eq)]
pub struct Pair {
    pub first: u32,
    pub second: u32,
}

// The settings of a box.
#[derive(Clone, Copy, Debug, PartialEq, Eq)]
pub struct Settings {
    // a number and no enum: `within` speaks of settings with one that is no unit
    pub unit: u32,
    // in thousandths
    pub factors: [u32; 2],
    pub switching: [Switching; 4],
    // FIL DCD ERA EVA FMT LNG NAD PRE PRO PUC DCS DIC SCT WDT TLC LOC
    pub stored: [Pair; 16],
}

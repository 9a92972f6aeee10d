// What all hosts share of a box: its model and serial number, its settings and saved set, its readings and its switches.
#![tactic(auto)]

use gauges::reading::Reading;
use settings::Settings;
use settings::model::Model;

pub mod events;
pub mod limits;
pub mod replies;

#[derive(Clone, Copy)]
pub struct Instrument {
    pub model: Model,
    pub serial: u32,
    pub settings: Settings,
    pub saved: Settings,
    pub readings: [Reading; 2],
    // whether each of the four is on, beside `settings.switching`: a saved set has no status, so it is no field of theirs
    pub switches: [bool; 4],
}

impl Instrument {
    // a serial number has eight digits
    pub const MOST_SERIAL: u32 = 99999999;
}

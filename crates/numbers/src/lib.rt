// Numbers of five digits and a power of ten: their limits, order, rounding and scaling; the units of pressure.
#![tactic(auto)]

mod rounding;
pub mod signs;
pub mod threshold;
pub mod units;
pub mod value;

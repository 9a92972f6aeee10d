// Text put into a lent output, and the bytes and digits that it is made of.
#![tactic(auto)]

pub mod control;
pub mod digits;
pub mod hex;
pub mod spans;
pub mod writer;

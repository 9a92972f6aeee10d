// Numbers as host and box send them: read from a part of a line, put into a reply.
#![tactic(auto)]

pub mod exponential;
mod runs;
pub mod whole;
pub mod writing;

pub use runs::part;

// What one host owns of a box: its line, its selection, its error word and its stream.
#![tactic(auto)]

use lines::verdict::Verdict;
use lines::word::Word;
use settings::mnemonic::Replying;

pub mod hearing;
pub mod limits;
pub mod line;
pub mod stream;
pub mod typing;

// Numbers and flags in place of Option and of types with limits: `state_within` and answer 1 speak of states that break these.
#[derive(Clone, Copy)]
pub struct Port {
    // eighty places, unused ones zero: the form that 01 names for a line
    pub line: [u8; Port::PLACES],
    pub len: usize,
    // then the line holds nothing and is refused at CR
    pub bad: bool,
    // whether the last byte was a CR
    pub ended: bool,
    // the mnemonic that an ENQ is answered with
    pub selection: Option<Replying>,
    pub error: Word,
    // how many ticks from line to line of the stream; 0 while it is stopped
    pub interval: u32,
    // how many since the last one
    pub ticks: u32,
}

impl Port {
    // the longest line
    pub const PLACES: usize = 80;
}

// What a byte of the host makes the box do.
#[derive(Clone, Copy)]
pub enum Event {
    Silent,
    // a line has ended
    Line(Verdict),
    // an ENQ is answered; with the error word as it stood
    Reply(Replying, Word),
}

#[derive(Clone, Copy)]
pub struct Heard {
    pub port: Port,
    pub event: Event,
}

#[derive(Clone, Copy)]
pub struct Ticked {
    pub port: Port,
    // a line of the stream is due
    pub due: bool,
}

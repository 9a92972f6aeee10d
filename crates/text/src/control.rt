// The control bytes of the mnemonics protocol, and the characters of a line.
pub const ETX: u8 = 3;

pub const ENQ: u8 = 5;

pub const ACK: u8 = 6;

pub const LF: u8 = 10;

pub const CR: u8 = 13;

pub const NAK: u8 = 21;

pub const SPACE: u8 = 32;

// The least and the greatest character.
pub const LEAST_CHARACTER: u8 = 33;

pub const MOST_CHARACTER: u8 = 126;

// The error word: a digit for each fault, gathered until the word is sent.
ghost use Rattle.std.specs.Prelude.{◌≡◌};
ghost use Rattle.text.specs.Writing.{Wrote};
ghost use Rattle.lines.specs.Words.{word_text, no_error, gathered};

use crate::verdict::Fault;
use text::digits::binary;
use text::writer::Writer;

#[derive(Clone, Copy, PartialEq, Eq, Debug, Default)]
pub struct Word {
    pub hardware: bool,
    pub parameter: bool,
    pub syntax: bool,
}

impl Word {
    pub fn none() -> Word
        ensures { result ≡ no_error }
    {
        Word::default()
    }

    // The word with the digit of a fault set; no other digit moves.
    pub fn with(self, x: Fault) -> Word
        ensures { result ≡ gathered self x }
    {
        let mut w = self;
        match x {
            Fault::Syntax => w.syntax = true,
            Fault::Parameter => w.parameter = true,
            Fault::Hardware => w.hardware = true,
        }
        w
    }
}

// The four digits of the word as they are sent.
pub fn write_word(out: &mut Writer, w: Word)
    ensures { Wrote out.old out.new (word_text w) }
{
    let digits = [
        b'0',
        binary(w.hardware),
        binary(w.parameter),
        binary(w.syntax),
    ];
    out.append(&digits);
}

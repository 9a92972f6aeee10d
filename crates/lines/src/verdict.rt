// What a line is judged to be, and how its fields decide.
ghost use Rattle.std.specs.Prelude.{◌≡◌, [], ◌∷◌};
ghost use Rattle.lines.specs.Judging.{judged_fields};

use numbers::threshold::Threshold;
use settings::mnemonic::{Mnemonic, Replying};
use settings::rows::Row;

// The digit of the error word that a fault sets.
#[derive(Clone, Copy, PartialEq, Eq, Debug)]
pub enum Fault {
    Syntax,
    Parameter,
    Hardware,
}

// A field that was read: its cell, or its fault, of form or of value.
pub type Field = Result<Threshold, Fault>;

// What an accepted line wants.
#[derive(Clone, Copy)]
pub enum Order {
    Asks(Replying),
    Writes(Mnemonic, Row),
}

// What a line is judged to be: accepted, or refused with its first fault.
pub type Verdict = Result<Order, Fault>;

// The verdict on three fields: the form of all, then the value of each.
pub(crate) fn conclude(m: Mnemonic, a: Field, b: Field, c: Field) -> Verdict
    ensures { result ≡ judged_fields m (a ∷ b ∷ c ∷ []) }
{
    if [a, b, c].iter().any(|f| matches!(f, Err(Fault::Syntax))) {
        return Err(Fault::Syntax);
    }
    let cells = Row {
        first: a?,
        second: b?,
        third: c?,
    };
    Ok(Order::Writes(m, cells))
}

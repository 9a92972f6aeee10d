// Judging a line, in the order of the paper: the first fault decides. Nothing is stored here.
ghost use Rattle.std.specs.Prelude.{◌≡◌, Ok};
ghost use Rattle.settings.specs.Mnemonics.{recognised};
ghost use Rattle.lines.specs.Splitting.{fields};
ghost use Rattle.lines.specs.Judging.{alone, with_fields, judged};

use crate::fields::{count_fields, first_field, take_field};
use crate::verdict::{Fault, Order, Verdict, conclude};
use settings::mnemonic::Mnemonic;
use settings::model::Model;

// The fields that s is, for a mnemonic that the model has.
#[tactic(auto, using(crate::proofs::Walking::fields_judged, crate::proofs::Walking::fields_wrong))]
fn judge_fields(model: Model, m: Mnemonic, s: &[u8]) -> Verdict
    ensures { result ≡ with_fields model m (fields s.now) }
{
    let f = model.entry(m).fields;
    if count_fields(s) != f.count {
        return Err(Fault::Syntax);
    }
    // by place and no `map` over the places: each field begins behind the one before
    let (a, behind) = take_field(f.kind(0), s);
    let (b, behind) = take_field(f.kind(1), behind);
    let (c, _) = take_field(f.kind(2), behind);
    conclude(m, a, b, c)
}

// A mnemonic with no comma behind it: it asks, or writes its default.
fn judge_alone(model: Model, m: Mnemonic) -> Order
    ensures { Ok result ≡ alone model m }
{
    match m {
        Mnemonic::OfReplying(a) => Order::Asks(a),
        Mnemonic::Com | Mnemonic::Sav => Order::Writes(m, model.entry(m).default),
    }
}

// The mnemonic that a word names: of three letters.
#[tactic(auto, using(settings::proofs::Names::not_three))]
fn recognise(model: Model, word: &[u8]) -> Option<Mnemonic>
    ensures { result ≡ recognised model word.now }
{
    match word {
        &[a, b, c] => model.named([a, b, c]),
        _ => None,
    }
}

// What a line is; a bad line holds nothing, so it is the empty one.
#[tactic(auto, using(crate::proofs::Walking::of_lines))]
pub fn judge(model: Model, line: &[u8]) -> Verdict
    ensures { result ≡ judged model line.now }
{
    let (word, behind) = first_field(line);
    let m = recognise(model, word).ok_or(Fault::Syntax)?;
    if !model.has(m) {
        return Err(Fault::Hardware);
    }
    match behind {
        Some(s) => judge_fields(model, m, s),
        None => Ok(judge_alone(model, m)),
    }
}

// The fields of a line: the first and those behind it, how many there are, and what each reads as.
ghost use Rattle.std.specs.Prelude.{◌≡◌, length, option_map, Err};
ghost use Rattle.lines.specs.Splitting.{fields, word};
ghost use Rattle.lines.specs.Fields.{limited, threshold_field, read};
ghost use Rattle.lines.specs.Walk.{others, head_field, beyond};

use crate::verdict::{Fault, Field};
use numerals::exponential::{ThresholdFault, read_threshold};
use numerals::whole::{read_factor, read_whole};
use settings::rows::plain;
use settings::table::{Kind, Limits};

// The bytes before the first comma; and what stands behind it, if there is one.
pub(crate) fn first_field(s: &[u8]) -> (&[u8], Option<&[u8]>)
    ensures first { result.0.now ≡ word s.now }
    ensures others { option_map (λ r. r.now) result.1 ≡ others s.now }
{
    match s.iter().position(|&b| b == b',') {
        Some(i) => (&s[..i], Some(&s[i + 1..])),
        None => (s, None),
    }
}

// How many fields the line has: one more than commas.
pub(crate) fn count_fields(s: &[u8]) -> usize
    ensures { result ≡ length (fields s.now) }
{
    s.iter().filter(|&&b| b == b',').count() + 1
}

// A number of the right form: held, or a fault of value.
#[tactic(auto, unfolding(crate::specs::Fields::limited))]
fn limited(l: Limits, n: u32) -> Field
    ensures { result ≡ limited l n }
{
    if (l.least..=l.most).contains(&n) {
        Ok(plain(n))
    } else if (l.least..=l.paired).contains(&n) {
        Err(Fault::Hardware)
    } else {
        Err(Fault::Parameter)
    }
}

impl From<ThresholdFault> for Fault {
    ghost from_gives = { λ t x. Err x ≡ threshold_field (Err t) };

    fn from(fault: ThresholdFault) -> Fault {
        match fault {
            ThresholdFault::Malformed => Fault::Syntax,
            ThresholdFault::OutOfRange => Fault::Parameter,
        }
    }
}

// The field that s is, read by its kind.
fn read(kind: Kind, s: &[u8]) -> Field
    ensures { result ≡ read kind s.now }
{
    match kind {
        Kind::OfWhole(l) => limited(l, read_whole(s).ok_or(Fault::Syntax)?),
        Kind::OfFactor(l) => limited(l, read_factor(s).ok_or(Fault::Syntax)?),
        Kind::OfThreshold => Ok(read_threshold(s)?),
    }
}

// The field at the head of s, if one is to be read, and what is left behind it; else a cell 0, and nothing passed by.
// A cell 0 and no None: in `row_of`, of which `judged_fields` makes the row, a cell 0 stands where there is no field.
pub(crate) fn take_field(kind: Option<Kind>, s: &[u8]) -> (Field, &[u8])
    ensures field { result.0 ≡ head_field kind s.now }
    ensures rest { result.1.now ≡ beyond kind s.now }
{
    match kind {
        Some(k) => {
            let (field, rest) = first_field(s);
            (read(k, field), rest.unwrap_or(b""))
        }
        None => (Ok(plain(0)), s),
    }
}

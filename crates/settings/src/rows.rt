// The settings as rows of three cells, one row for each line of the sheet; storing what a line writes.
ghost use Rattle.std.specs.Prelude.{◌≡◌};
ghost use Rattle.settings.specs.Rows.{plain, pair_row, cells_of, pair_of, switching_of, row_of_pair, mixed, row, switching_in, with_unit, with_row};
ghost use Rattle.settings.specs.Table.{stored};

use crate::mnemonic::{Mnemonic, Replying, Setting};
use crate::model::Model;
use crate::{Pair, Settings, Switching};
use ground::places::{at_or, put_at};
use numbers::threshold::Threshold;

// Up to three cells; a whole number or a factor is a cell with exponent 0.
// No array: the definitions name the cells first, second and third, and what each is depends on the row.
#[derive(Clone, Copy, Debug, PartialEq, Eq)]
pub struct Row {
    pub first: Threshold,
    pub second: Threshold,
    pub third: Threshold,
}

// A whole number, or a factor in thousandths, as a cell.
pub fn plain(n: u32) -> Threshold
    ensures { result ≡ plain n }
{
    Threshold {
        mantissa: n,
        exponent: 0,
    }
}

// Up to two numbers as a row.
pub fn pair_row(a: u32, b: u32) -> Row
    ensures { result ≡ pair_row a b }
{
    Row {
        first: plain(a),
        second: plain(b),
        third: plain(0),
    }
}

// A switching function, and a pair, that is not there.
const NO_SWITCHING: Switching = Switching {
    assignment: 0,
    lower: Threshold {
        mantissa: 0,
        exponent: 0,
    },
    upper: Threshold {
        mantissa: 0,
        exponent: 0,
    },
};

const NO_PAIR: Pair = Pair {
    first: 0,
    second: 0,
};

// The numbers in the first two cells.
impl From<Row> for Pair {
    ghost from_gives = { λ r p. p ≡ pair_of r };

    fn from(r: Row) -> Pair {
        Pair {
            first: r.first.mantissa,
            second: r.second.mantissa,
        }
    }
}

// A pair's cells.
impl From<Pair> for Row {
    ghost from_gives = { λ p r. r ≡ row_of_pair p };

    fn from(p: Pair) -> Row {
        pair_row(p.first, p.second)
    }
}

// A switching function from its cells.
impl From<Row> for Switching {
    ghost from_gives = { λ r w. w ≡ switching_of r };

    fn from(r: Row) -> Switching {
        Switching {
            assignment: r.first.mantissa,
            lower: r.second,
            upper: r.third,
        }
    }
}

// Its cells.
impl From<Switching> for Row {
    ghost from_gives = { λ w r. r ≡ cells_of w };

    fn from(w: Switching) -> Row {
        Row {
            first: plain(w.assignment),
            second: w.lower,
            third: w.upper,
        }
    }
}

// The first n cells of a, and the others of b.
fn mixed(n: usize, a: Row, b: Row) -> Row
    ensures { result ≡ mixed n a b }
{
    match n {
        0 => b,
        1 => Row {
            first: a.first,
            ..b
        },
        2 => Row {
            third: b.third,
            ..a
        },
        _ => a,
    }
}

impl Switching {
    // The function with its thresholds in another unit.
    fn in_unit(self, old: u32, new: u32) -> Switching
        ensures { result ≡ switching_in old new self }
    {
        Switching {
            lower: self.lower.re_expressed(old, new),
            upper: self.upper.re_expressed(old, new),
            ..self
        }
    }
}

impl Settings {
    // The cells of a setting.
    pub fn row(self, x: Setting) -> Row
        ensures { result ≡ row self x }
    {
        match x {
            Setting::Uni => pair_row(self.unit, 0),
            Setting::Cal => pair_row(self.factors[0], self.factors[1]),
            Setting::Sp(k) => at_or(self.switching, k, NO_SWITCHING).into(),
            Setting::Stored(k) => at_or(self.stored, k, NO_PAIR).into(),
        }
    }

    // The settings with another unit, which the thresholds follow.
    fn with_unit(self, unit: u32) -> Settings
        ensures { result ≡ with_unit self unit }
    {
        Settings {
            unit,
            switching: self.switching.map(|w| w.in_unit(self.unit, unit)),
            ..self
        }
    }

    // The settings with other cells for a setting.
    fn with_row(self, x: Setting, r: Row) -> Settings
        ensures { result ≡ with_row self x r }
    {
        match x {
            Setting::Uni => self.with_unit(r.first.mantissa),
            Setting::Cal => Settings {
                factors: [r.first.mantissa, r.second.mantissa],
                ..self
            },
            Setting::Sp(k) => Settings {
                switching: put_at(self.switching, k, r.into()),
                ..self
            },
            Setting::Stored(k) => Settings {
                stored: put_at(self.stored, k, r.into()),
                ..self
            },
        }
    }

    // The settings after an accepted line has written the cells r.
    pub fn store(self, model: Model, m: Mnemonic, r: Row) -> Settings
        ensures { result ≡ stored model self m r }
    {
        match m {
            Mnemonic::OfReplying(Replying::OfSetting(x)) => {
                let count = model.setting_entry(x).fields.count;
                self.with_row(x, mixed(count, r, self.row(x)))
            }
            Mnemonic::OfReplying(Replying::Cf(k)) => Settings {
                factors: put_at(self.factors, k, r.first.mantissa),
                ..self
            },
            _ => self,
        }
    }
}

// The table of settings, row for row, and the mnemonics beside it: the name of each, its fields and its default.
ghost use Rattle.std.specs.Prelude.{◌≡◌};
ghost use Rattle.settings.specs.Models.{by_unit};
ghost use Rattle.settings.specs.Rows.{pair_of};
ghost use Rattle.settings.specs.Table.{whole, channel_choice, factor, of_numbers, single, per_channel, once, choosing, factors, lacking, on_both, on_newer, on_older, fieldless, nothing, numbered, switching_entry, stored_entry, setting_entry, replying_entry, entry, on, defaults, kind_at};
ghost use Rattle.settings.specs.declared.mnemonic.Replying.TheVariants.{OfQuery};

use crate::mnemonic::{Mnemonic, Query, Replying, Setting};
use crate::model::Model;
use crate::rows::{Row, pair_row, plain};
use crate::{Pair, Settings, Switching};
use numbers::threshold::Threshold;
use std::array;

// From least to most; above it, up to paired, stands what needs a second channel that the model lacks.
#[derive(Clone, Copy, Debug, PartialEq, Eq)]
pub struct Limits {
    pub least: u32,
    pub most: u32,
    pub paired: u32,
}

#[derive(Clone, Copy, Debug, PartialEq, Eq)]
pub enum Kind {
    OfWhole(Limits),
    // in thousandths
    OfFactor(Limits),
    OfThreshold,
}

// How many fields, up to three; the kind of the first, and that of the others.
#[derive(Clone, Copy, Debug, PartialEq, Eq)]
pub struct Fields {
    pub count: usize,
    pub first: Kind,
    pub others: Kind,
}

impl Fields {
    // The kind of a field by its place; none where there are not so many.
    #[tactic(auto, unfolding(crate::specs::Table::kind_at))]
    pub fn kind(self, place: usize) -> Option<Kind>
        ensures { result ≡ kind_at self place }
    {
        if place < self.count {
            return Some(if place == 0 { self.first } else { self.others });
        }
        None
    }
}

// What a model has of a row of numbers: how many fields, of which kind, and the defaults of two cells.
#[derive(Clone, Copy, Debug, PartialEq, Eq)]
pub struct Column {
    pub count: usize,
    pub kind: Kind,
    pub first: u32,
    pub second: u32,
}

// A row of the table.
#[derive(Clone, Copy, Debug, PartialEq, Eq)]
pub struct Entry {
    pub name: [u8; 3],
    pub fields: Fields,
    pub default: Row,
}

const LOWER: Threshold = Threshold {
    mantissa: 10000,
    exponent: -9,
};

const UPPER: Threshold = Threshold {
    mantissa: 90000,
    exponent: -7,
};

fn whole(least: u32, most: u32) -> Kind
    ensures { result ≡ whole least most }
{
    Kind::OfWhole(Limits {
        least,
        most,
        paired: most,
    })
}

// A name that ends with a number, counted from 1.
fn numbered(family: [u8; 2], k: u8) -> [u8; 3]
    ensures { result ≡ numbered family k }
{
    let [a, b] = family;
    match k {
        0..=3 => [a, b, b'1' + k],
        _ => [a, b, 0],
    }
}

// What a model that lacks the row has: its defaults.
fn lacking(c: Column) -> Column
    ensures { result ≡ lacking c }
{
    Column { count: 0, ..c }
}

impl Model {
    // Up to the assignment of the last channel.
    fn channel_choice(self) -> Kind
        ensures { result ≡ channel_choice self }
    {
        let first = self.first_following();
        Kind::OfWhole(Limits {
            least: 0,
            most: first + (self.channels() as u32 - 1),
            paired: first + 1,
        })
    }

    fn factor(self) -> Kind
        ensures { result ≡ factor self }
    {
        let most = if self.is_older() { 9990 } else { 10000 };
        Kind::OfFactor(Limits {
            least: 100,
            most,
            paired: most,
        })
    }

    // Least, most, default in the paper's order; no plainer: a shared maker is the literal with four numbers in a row.

    // One whole number.
    fn single(self, least: u32, most: u32, default: u32) -> Column
        ensures { result ≡ single least most default self }
    {
        Column {
            count: 1,
            kind: whole(least, most),
            first: default,
            second: 0,
        }
    }

    // One for each channel.
    fn per_channel(self, least: u32, most: u32, default: u32) -> Column
        ensures { result ≡ per_channel least most default self }
    {
        Column {
            count: self.channels(),
            kind: whole(least, most),
            first: default,
            second: default,
        }
    }

    // One where another model has one for each channel.
    fn once(self, least: u32, most: u32, default: u32) -> Column
        ensures { result ≡ once least most default self }
    {
        Column {
            count: 1,
            kind: whole(least, most),
            first: default,
            second: default,
        }
    }

    // One choice of a channel.
    fn choosing(self) -> Column
        ensures { result ≡ choosing self }
    {
        Column {
            count: 1,
            kind: self.channel_choice(),
            first: 0,
            second: 0,
        }
    }

    fn factors(self, count: usize) -> Column
        ensures { result ≡ factors count self }
    {
        Column {
            count,
            kind: self.factor(),
            first: 1000,
            second: 1000,
        }
    }

    // A row with this column.
    fn of_numbers(self, name: [u8; 3], c: Column) -> Entry
        ensures { result ≡ on self (of_numbers name (λ m. c)) }
    {
        Entry {
            name,
            fields: Fields {
                count: c.count,
                first: c.kind,
                others: c.kind,
            },
            default: pair_row(c.first, c.second),
        }
    }

    // The column of the model's unit.
    fn of_unit(self, newer: Column, older: Column) -> Column
        ensures { result ≡ by_unit newer older self }
    {
        if self.is_older() { older } else { newer }
    }

    // A row with a column for a 361 or 362, and one for a 262.
    fn on_both(self, name: [u8; 3], newer: Column, older: Column) -> Entry
        ensures { result ≡ on self (on_both name (λ m. newer) (λ m. older)) }
    {
        self.of_numbers(name, self.of_unit(newer, older))
    }

    // One that a 262 lacks.
    fn on_newer(self, name: [u8; 3], c: Column) -> Entry
        ensures { result ≡ on self (on_newer name (λ m. c)) }
    {
        self.on_both(name, c, lacking(c))
    }

    // One that only a 262 has.
    fn on_older(self, name: [u8; 3], c: Column) -> Entry
        ensures { result ≡ on self (on_older name (λ m. c)) }
    {
        self.on_both(name, lacking(c), c)
    }

    fn fieldless(self, name: [u8; 3]) -> Entry
        ensures { result ≡ on self (fieldless name) }
    {
        let none = Column {
            count: 0,
            kind: whole(0, 0),
            first: 0,
            second: 0,
        };
        self.of_numbers(name, none)
    }

    // A number that is none of its family.
    fn nothing(self) -> Entry
        ensures { result ≡ on self nothing }
    {
        self.fieldless([0, 0, 0])
    }

    #[tactic(auto, unfolding(crate::specs::Table::switching_entry))]
    fn switching_entry(self, k: u8) -> Entry
        ensures { result ≡ on self (switching_entry k) }
    {
        match k {
            0..=3 => Entry {
                name: numbered(*b"SP", k),
                fields: Fields {
                    count: 3,
                    first: self.channel_choice(),
                    others: Kind::OfThreshold,
                },
                default: Row {
                    first: plain(0),
                    second: LOWER,
                    third: UPPER,
                },
            },
            _ => self.nothing(),
        }
    }

    // name; least, most, default: on a 361 or 362, on a 262
    #[tactic(auto, unfolding(crate::specs::Table::stored_entry))]
    fn stored_entry(self, k: u8) -> Entry
        ensures { result ≡ on self (stored_entry k) }
    {
        match k {
            0 => self.on_both(
                *b"FIL",
                self.per_channel(0, 3, 2),
                self.per_channel(0, 2, 1),
            ),
            1 => self.on_both(*b"DCD", self.per_channel(0, 4, 0), self.once(2, 3, 2)),
            2 => self.on_newer(*b"ERA", self.choosing()),
            3 => self.on_newer(*b"EVA", self.single(0, 1, 0)),
            4 => self.on_newer(*b"FMT", self.single(0, 1, 0)),
            5 => self.on_newer(*b"LNG", self.single(0, 2, 0)),
            6 => self.on_newer(*b"NAD", self.single(1, 24, 1)),
            7 => self.on_newer(*b"PRE", self.single(0, 1, 0)),
            8 => self.on_newer(*b"PRO", self.single(0, 2, 0)),
            9 => self.on_both(*b"PUC", self.once(0, 1, 0), self.per_channel(0, 1, 0)),
            10 => self.on_newer(*b"DCS", self.single(0, 6, 0)),
            11 => self.on_older(*b"DIC", self.single(0, 1, 0)),
            12 => self.on_older(*b"SCT", self.single(0, 1, 0)),
            13 => self.on_older(*b"WDT", self.single(0, 1, 1)),
            14 => self.on_older(*b"TLC", self.single(0, 1, 0)),
            15 => self.on_older(*b"LOC", self.single(0, 1, 0)),
            _ => self.nothing(),
        }
    }

    pub(crate) fn setting_entry(self, x: Setting) -> Entry
        ensures { result ≡ on self (setting_entry x) }
    {
        match x {
            Setting::Uni => self.on_both(*b"UNI", self.single(0, 4, 4), self.single(0, 2, 0)),
            Setting::Cal => self.of_numbers(*b"CAL", self.factors(self.channels())),
            Setting::Sp(k) => self.switching_entry(k),
            Setting::Stored(k) => self.stored_entry(k),
        }
    }

    fn query_entry(self, q: Query) -> Entry
        ensures { result ≡ on self (replying_entry (OfQuery q)) }
    {
        match q {
            Query::Sps => self.fieldless(*b"SPS"),
            Query::Pr(k) => self.fieldless(numbered(*b"PR", k)),
            Query::Prx => self.fieldless(*b"PRX"),
            Query::Tid => self.fieldless(*b"TID"),
            Query::Ayt => self.fieldless(*b"AYT"),
            Query::Pnr => self.fieldless(*b"PNR"),
            Query::Err => self.fieldless(*b"ERR"),
        }
    }

    fn replying_entry(self, a: Replying) -> Entry
        ensures { result ≡ on self (replying_entry a) }
    {
        match a {
            Replying::OfSetting(x) => self.setting_entry(x),
            Replying::Cf(k) => self.of_numbers(numbered(*b"CF", k), self.factors(1)),
            Replying::OfQuery(q) => self.query_entry(q),
        }
    }

    // The row of a mnemonic.
    pub fn entry(self, m: Mnemonic) -> Entry
        ensures { result ≡ on self (entry m) }
    {
        match m {
            Mnemonic::OfReplying(a) => self.replying_entry(a),
            Mnemonic::Com => self.of_numbers(*b"COM", self.single(0, 2, 1)),
            Mnemonic::Sav => self.of_numbers(*b"SAV", self.single(0, 1, 0)),
        }
    }

    // The default of a setting, as its first two numbers.
    fn preset(self, x: Setting) -> Pair
        ensures { result ≡ pair_of ((setting_entry x).default self) }
    {
        self.setting_entry(x).default.into()
    }

    // What a fresh box is set to.
    pub fn defaults(self) -> Settings
        ensures { result ≡ defaults self }
    {
        let cal = self.preset(Setting::Cal);
        let function = Switching {
            assignment: 0,
            lower: LOWER,
            upper: UPPER,
        };
        Settings {
            unit: self.preset(Setting::Uni).first,
            factors: [cal.first, cal.second],
            switching: [function; 4],
            stored: array::from_fn(|k| self.preset(Setting::Stored(k as u8))),
        }
    }
}

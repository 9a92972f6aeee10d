// The mnemonics: families that carry a number where there are several of a kind.
// The number is no enum: `entry` and `row` promise what one that is none of its family has (`nothing`, `get_or`).
ghost use Rattle.std.specs.Prelude.{◌≡◌, ◌&&◌, length};
ghost use Rattle.settings.specs.Mnemonics.{takes, sheet, sheet_at, knows, name, same, recognised, channel_of, is_there, answers, is_err};

use crate::model::Model;

// Those of the sheets, each of which holds settings.
#[derive(Clone, Copy, Debug, PartialEq, Eq)]
pub enum Setting {
    Uni,
    Cal,
    // SP1 to SP4 from 0 on
    Sp(u8),
    // FIL DCD ERA EVA FMT LNG NAD PRE PRO PUC DCS DIC SCT WDT TLC LOC from 0 on: only stored and answered
    Stored(u8),
}

// Those that take no field; PR1 and PR2 from 0 on.
#[derive(Clone, Copy, Debug, PartialEq, Eq)]
pub enum Query {
    Sps,
    Pr(u8),
    Prx,
    Tid,
    Ayt,
    Pnr,
    Err,
}

// Those that have a reply.
#[derive(Clone, Copy, Debug, PartialEq, Eq)]
pub enum Replying {
    OfSetting(Setting),
    // CF1 and CF2 from 0 on
    Cf(u8),
    OfQuery(Query),
}

#[derive(Clone, Copy, Debug, PartialEq, Eq)]
pub enum Mnemonic {
    OfReplying(Replying),
    Com,
    Sav,
}

pub(crate) const HELD: &[Setting] = &[
    Setting::Uni,
    Setting::Stored(0),
    Setting::Cal,
    Setting::Stored(1),
    Setting::Sp(0),
    Setting::Sp(1),
    Setting::Sp(2),
    Setting::Sp(3),
    Setting::Stored(2),
    Setting::Stored(3),
    Setting::Stored(4),
    Setting::Stored(5),
    Setting::Stored(6),
    Setting::Stored(7),
    Setting::Stored(8),
    Setting::Stored(9),
    Setting::Stored(10),
    Setting::Stored(11),
    Setting::Stored(12),
    Setting::Stored(13),
    Setting::Stored(14),
    Setting::Stored(15),
];

const OTHERS: &[Mnemonic] = &[
    Mnemonic::OfReplying(Replying::Cf(0)),
    Mnemonic::OfReplying(Replying::Cf(1)),
    Mnemonic::OfReplying(Replying::OfQuery(Query::Sps)),
    Mnemonic::OfReplying(Replying::OfQuery(Query::Pr(0))),
    Mnemonic::OfReplying(Replying::OfQuery(Query::Pr(1))),
    Mnemonic::OfReplying(Replying::OfQuery(Query::Prx)),
    Mnemonic::OfReplying(Replying::OfQuery(Query::Tid)),
    Mnemonic::OfReplying(Replying::OfQuery(Query::Ayt)),
    Mnemonic::OfReplying(Replying::OfQuery(Query::Pnr)),
    Mnemonic::OfReplying(Replying::OfQuery(Query::Err)),
    Mnemonic::Com,
    Mnemonic::Sav,
];

impl Model {
    // How many lines a sheet of settings has.
    #[tactic(auto, using(crate::proofs::Sheets::sheet_counts))]
    pub fn sheet_length(self) -> usize
        ensures { result ≡ length (sheet self) }
    {
        if self.is_older() { 14 } else { 17 }
    }

    // Whether the model has a field of the setting.
    fn takes(self, x: Setting) -> bool
        ensures { result ≡ takes self x }
    {
        0 < self.setting_entry(x).fields.count
    }

    // The setting on a line of the sheet; past the last line it is the first and not `None`: the promise `sheet_at`.
    pub fn sheet_at(self, i: usize) -> Setting
        ensures { result ≡ sheet_at self i }
    {
        HELD.iter()
            .copied()
            .filter(|x| self.takes(*x))
            .nth(i)
            .unwrap_or(Setting::Uni)
    }

    fn knows(self, m: Mnemonic) -> bool
        ensures { result ≡ knows self m }
    {
        match m {
            Mnemonic::OfReplying(Replying::OfSetting(x)) => self.takes(x),
            Mnemonic::OfReplying(Replying::Cf(_) | Replying::OfQuery(Query::Ayt)) =>
                !self.is_older(),
            Mnemonic::OfReplying(Replying::OfQuery(Query::Pnr)) => self.is_older(),
            _ => true,
        }
    }

    // Whether a word is the name of a mnemonic that the model knows.
    #[tactic(auto, using(crate::proofs::Names::same_pointwise, crate::proofs::Names::three_letters))]
    fn calls(self, m: Mnemonic, word: [u8; 3]) -> bool
        ensures { result ≡ same (name m) word && knows self m }
    {
        self.entry(m).name == word && self.knows(m)
    }

    // The mnemonic of three letters.
    pub fn named(self, word: [u8; 3]) -> Option<Mnemonic>
        ensures { result ≡ recognised self word }
    {
        HELD.iter()
            .map(|x| Mnemonic::OfReplying(Replying::OfSetting(*x)))
            .chain(OTHERS.iter().copied())
            .find(|m| self.calls(*m, word))
    }

    // Whether the model has the channel that a mnemonic is about.
    pub fn has(self, m: Mnemonic) -> bool
        ensures { result ≡ is_there self m }
    {
        match m {
            Mnemonic::OfReplying(a) => usize::from(a.channel()) < self.channels(),
            Mnemonic::Com | Mnemonic::Sav => true,
        }
    }

    // Whether a box of the model can answer it when it is selected.
    #[tactic(auto, unfolding(crate::specs::Mnemonics::answers))]
    pub fn answers(self, a: Replying) -> bool
        ensures { result ≡ answers self a }
    {
        let m = Mnemonic::OfReplying(a);
        self.knows(m) && self.has(m)
    }
}

impl Replying {
    // Whether its reply is the error word.
    pub fn is_err(self) -> bool
        ensures { result ≡ is_err self }
    {
        matches!(self, Replying::OfQuery(Query::Err))
    }

    // The channel it is about, from 0 on; 0 where it is about none, as in `channel_of`: every model has channel 0.
    fn channel(self) -> u8
        ensures { result ≡ channel_of self }
    {
        match self {
            Replying::Cf(k) | Replying::OfQuery(Query::Pr(k)) => k,
            _ => 0,
        }
    }
}

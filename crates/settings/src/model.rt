// The models, and the rules that belong to one.
ghost use Rattle.std.specs.Prelude.{◌≡◌, MatchResult, Some, None};
ghost use Rattle.text.specs.Writing.{Wrote};
ghost use Rattle.settings.specs.Models.{model_of, is_older, channels, names, power_on_mode, first_following, starts_on, follows, agrees};

use text::writer::Writer;

#[derive(Clone, Copy, Debug, PartialEq, Eq)]
pub enum Model {
    Tpg361,
    Tpg362,
    Tpg262,
}

// A number that names no model. No `Display`: what is told of it is answer 2.
#[derive(Clone, Copy, Debug, PartialEq, Eq)]
pub struct UnknownModel;

impl TryFrom<u32> for Model {
    type Error = UnknownModel;

    ghost try_from_gives = { λ n r. MatchResult r (λ m. model_of n ≡ Some m) (λ _. model_of n ≡ None) };

    fn try_from(number: u32) -> Result<Model, UnknownModel> {
        match number {
            361 => Ok(Model::Tpg361),
            362 => Ok(Model::Tpg362),
            262 => Ok(Model::Tpg262),
            _ => Err(UnknownModel),
        }
    }
}

impl Model {
    // of the assignments that follow no channel, the one that is always on; no enum: `starts_on` speaks of any number
    pub const ALWAYS_ON: u32 = 1;

    // Whether it is the older unit, which has a column of its own in every table.
    pub(crate) fn is_older(self) -> bool
        ensures { result ≡ is_older self }
    {
        matches!(self, Model::Tpg262)
    }

    pub fn channels(self) -> usize
        ensures { result ≡ channels self }
    {
        match self {
            Model::Tpg361 => 1,
            Model::Tpg362 | Model::Tpg262 => 2,
        }
    }

    // The model's names for AYT. A model that does not know AYT has none.
    fn names(self) -> &'static [u8]
        ensures { result.now ≡ names self }
    {
        match self {
            Model::Tpg361 => b"TPG361,PTG28040",
            Model::Tpg362 => b"TPG362,PTG28290",
            Model::Tpg262 => b"",
        }
    }

    // They are written as AYT tells them.
    pub fn write_names(self, out: &mut Writer)
        ensures { Wrote out.old out.new (names self) }
    {
        out.append(self.names());
    }

    // The mode of COM that a box streams in from power-on; a number and no enum: `interval_of` speaks of any number.
    pub fn power_on_mode(self) -> u32
        ensures { result ≡ power_on_mode self }
    {
        1
    }

    // The assignment that follows the first channel; those below it follow none.
    pub(crate) fn first_following(self) -> u32
        ensures { result ≡ first_following self }
    {
        if self.is_older() { 0 } else { 2 }
    }

    // Whether a switching function of this assignment is on from power-on.
    pub fn starts_on(self, assignment: u32) -> bool
        ensures { result ≡ starts_on self assignment }
    {
        assignment < self.first_following() && assignment == Model::ALWAYS_ON
    }

    // Whether a switching function of this assignment follows the readings of a channel, from 0 on.
    pub fn follows(self, assignment: u32, channel: u8) -> bool
        ensures { result ≡ follows self assignment channel }
    {
        assignment == u32::from(channel) + self.first_following()
    }

    // Whether a switching function of this assignment may be found on, or off.
    pub fn agrees(self, assignment: u32, on: bool) -> bool
        ensures { result ≡ agrees self assignment on }
    {
        self.first_following() <= assignment || on == self.starts_on(assignment)
    }
}

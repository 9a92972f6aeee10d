// What a call answers: a number of the paper's table, the state, and its counts.
ghost use Rattle.std.specs.Prelude.{◌≡◌};
ghost use Rattle.tpg.specs.Answers.{number, handed, done};
ghost use Rattle.tpg.specs.Calls.{admits, turned_away};

use crate::State;
use instrument::Instrument;
use ports::Port;

// In the order of the paper's table, so that each stands at its number there.
#[derive(Clone, Copy, PartialEq, Eq, Debug)]
pub enum Answer {
    Accepted,
    BrokenState,
    NoModel,
    ShortOutput,
    NoChannel,
    BadReading,
}

impl Answer {
    // Its number in the paper's table.
    // Public, so no From; by `as`, so that the numbers are said once, by the order of the cases.
    pub fn number(self) -> u8
        ensures { result ≡ number self }
    {
        self as u8
    }
}

// No Result: each answer comes with a state and counts, and `refusals` of the demands reads them of refused calls too.
#[derive(Clone, Copy)]
pub struct Outcome {
    pub answer: Answer,
    pub state: State,
    // bytes of the host taken, and bytes of output written
    pub taken: usize,
    pub written: usize,
}

// A call that was accepted.
pub(crate) fn finished(instrument: Instrument, port: Port, taken: usize, written: usize) -> Outcome
    ensures { result ≡ done (record { instrument = instrument; port = port }) taken written }
{
    Outcome {
        answer: Answer::Accepted,
        state: State { instrument, port },
        taken,
        written,
    }
}

impl State {
    // The state handed back with an answer and no counts.
    pub(crate) fn with_answer(self, answer: Answer) -> Outcome
        ensures { result ≡ handed answer self }
    {
        Outcome {
            answer,
            state: self,
            taken: 0,
            written: 0,
        }
    }

    // Whether a call that asks for a least output is admitted with that room.
    #[tactic(auto, unfolding(crate::specs::Calls::admits))]
    pub(crate) fn admits(self, least: usize, room: usize) -> bool
        ensures { result ≡ admits self least room }
    {
        self.is_within() && least <= room
    }

    // The refusal of such a call: a broken state is told before a short output.
    #[tactic(auto, unfolding(crate::specs::Calls::turned_away))]
    pub(crate) fn turned_away(self) -> Outcome
        ensures { result ≡ turned_away self }
    {
        let answer = if self.is_within() {
            Answer::ShortOutput
        } else {
            Answer::BrokenState
        };
        self.with_answer(answer)
    }
}

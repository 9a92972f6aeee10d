// The frames of the bench: one input line to one output line.
#![tactic(auto)]

ghost use Rattle.std.specs.Prelude.{◌≡◌, length};
ghost use Rattle.tpg.specs.Steps.{over};
ghost use Rattle.frames.specs.Frames.{answer_call, answer_line};

use tpg::State;
use tpg::answers::Answer;

mod encoding;
mod frame;
mod spread;
mod taking;

// The longest output line: 255 ticks with a line of the stream each.
pub const LONGEST_LINE: usize = 2 * (1 + 255 * State::LEAST_OUTPUT) + 1;

// The longest frame: its first byte and 60 host bytes.
pub const LONGEST_FRAME: usize = 61;

// The answer number of a frame, the box after it, and how many bytes stand in the output.
// A number and no enum: `answer_call` promises the number, which the output line begins with.
#[derive(Clone, Copy)]
pub struct FrameOutcome {
    pub number: u8,
    pub state: State,
    pub written: usize,
}

pub(crate) fn handed(number: u8, state: State, written: usize) -> FrameOutcome
    ensures { result ≡ record { number = number; state = state; written = written } }
{
    FrameOutcome {
        number,
        state,
        written,
    }
}

// One input line, without its end, answered with one output line.
// A function of its own in the program too: `tools/stack` reads what lies below it.
#[inline(never)]
pub fn answer(state: State, line: &[u8], out: &mut [u8]) -> FrameOutcome
    ensures { (result ≡ answer_call state line.now (length out.old)) × (out.new ≡ over (answer_line state line.now (length out.old)) out.old) }
{
    if out.len() < LONGEST_LINE {
        return handed(Answer::ShortOutput.number(), state, 0);
    }
    let told = taking::take_line(state, line, out);
    let written = spread::spread(out, told.number, told.written);
    handed(told.number, told.state, written)
}

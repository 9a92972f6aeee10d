// A frame taken: the call that it asks for. What is sent stands at the start of the output, as bytes.
ghost use Rattle.std.specs.Prelude.{◌≡◌, ◌≤◌, length};
ghost use Rattle.tpg.specs.Answers.{number};
ghost use Rattle.tpg.specs.Steps.{over};
ghost use Rattle.frames.specs.Frames.{most_sent, no_frame, model_number, fresh_frame, framed, line_reply};
ghost use Rattle.frames.specs.Walk.{frame_outcome};

use crate::encoding::{exponent_of, mantissa_of};
use crate::{FrameOutcome, LONGEST_FRAME, frame, handed};
use tpg::State;
use tpg::answers::{Answer, Outcome};

// The answer to a frame of other form.
// Not an Answer: 255 stands in no row of the paper's table, and no call gives it.
const NO_FRAME: u8 = 255;

// What a call answered.
fn frame_outcome(o: Outcome) -> FrameOutcome
    ensures { result ≡ record { number = number o.answer; state = o.state; written = o.written } }
{
    handed(o.answer.number(), o.state, o.written)
}

// The answer to a frame of other form: nothing changes.
fn no_frame(state: State) -> FrameOutcome
    ensures { result ≡ frame_outcome (no_frame state) }
{
    handed(NO_FRAME, state, 0)
}

// The number of the model that a byte names.
// 0 and no Option: `model_number` promises it, which `fresh` refuses as any number that is no model's.
#[tactic(auto, using(std::proofs::lemmas::Bool::Decides::nat_tests), unfolding(crate::specs::Frames::model_number))]
fn model_number(byte: u8) -> u32
    ensures { result ≡ model_number byte }
{
    match byte {
        1 => 361,
        2 => 362,
        3 => 262,
        _ => 0,
    }
}

// A fresh box; where no model has that byte, the box stays.
fn take_fresh(state: State, byte: u8) -> FrameOutcome
    ensures { result ≡ frame_outcome (fresh_frame state byte) }
{
    let made = State::fresh(model_number(byte), 0);
    match made.answer {
        Answer::Accepted => frame_outcome(made),
        refused => handed(refused.number(), state, 0),
    }
}

// The first byte says what is wanted, and how many bytes go with it.
#[inline(always)]
fn take(state: State, frame: &[u8], out: &mut [u8]) -> FrameOutcome
    requires { most_sent ≤ length out.old }
    ensures { (result ≡ frame_outcome (framed state frame.now)) × (out.new ≡ over (framed state frame.now).bytes out.old) }
{
    let told = match frame {
        [1, host @ ..] if host.len() < LONGEST_FRAME => state.host(host, out),
        [
            2,
            channel,
            kind,
            status,
            sign @ 0..=1,
            high,
            middle,
            low,
            exponent,
        ] => {
            let mantissa = mantissa_of(*sign == 1, *high, *middle, *low);
            state.reading(*channel, *kind, *status, mantissa, exponent_of(*exponent))
        }
        [3, count] => state.ticks(*count, out),
        [4, model] => return take_fresh(state, *model),
        [5] => state.power_cycle(),
        _ => return no_frame(state),
    };
    frame_outcome(told)
}

// A line's frame taken; a line that is none, or too long for one, is answered as a frame of other form.
// Put into its caller, as `take` is: the stack then holds the states of a call once.
#[inline(always)]
pub(crate) fn take_line(state: State, line: &[u8], out: &mut [u8]) -> FrameOutcome
    requires { most_sent ≤ length out.old }
    ensures { let r = line_reply state line.now in (result ≡ frame_outcome r) × (out.new ≡ over r.bytes out.old) }
{
    // fixed memory: no crate of the engine allocates
    let mut bytes = [0u8; LONGEST_FRAME];
    match frame::read(line, &mut bytes) {
        Some(len) => take(state, &bytes[..len], out),
        None => no_frame(state),
    }
}

// The bench program: frames on standard input, one to a line, and an output line for each on standard output.
#![tactic(auto)]

ghost use Rattle.std.specs.Prelude.{◌≡◌, ◌≤◌, length, take, drop};
ghost use Rattle.tpg.specs.Steps.{over};
ghost use Rattle.frames.specs.Frames.{longest_line};
ghost use Rattle.bench.specs.Blocks.{finished, behind_lines, after_lines, lines_text, fitting};
ghost use Rattle.bench.specs.Walk.{kept_count};

use frames::{LONGEST_FRAME, LONGEST_LINE};
use std::io::{Read, Write};
use std::rt::{Stdin, Stdout};
use text::control::LF;
use text::spans::end_of;
use tpg::State;

// Of an unfinished line so much is kept: one digit more than the longest frame has, so that it stays too long.
const KEPT: usize = 2 * LONGEST_FRAME + 1;

// The box, where the first line that is not answered begins, and how much is still to be written.
// Where none was answered that is 0 and no `None`: the walk goes on from there all the same.
#[derive(Clone, Copy)]
struct BlockOutcome {
    pub state: State,
    pub from: usize,
    pub written: usize,
}

// The finished lines of a block answered, as long as the longest line has room in the output.
fn answer_lines(state: State, block: &[u8], out: &mut [u8]) -> BlockOutcome
    ensures { let ls = fitting state (finished block.now) (length out.old) in (result ≡ record { state = after_lines state ls; from = behind_lines ls; written = length (lines_text state ls) }) × (out.new ≡ over (lines_text state ls) out.old) }
{
    let mut now = state;
    let mut from: usize = 0;
    let mut at: usize = 0;
    let mut to = end_of(block, 0, LF);
    // by hand, no `split`: the unfinished tail is no line, and the loop stops where the output has no room
    while to < block.len() {
        if out.len() - at < LONGEST_LINE {
            return BlockOutcome {
                state: now,
                from,
                written: at,
            };
        }
        let answered = frames::answer(now, &block[from..to], &mut out[at..]);
        now = answered.state;
        at += answered.written;
        from = to + 1;
        to = end_of(block, from, LF);
    }
    BlockOutcome {
        state: now,
        from,
        written: at,
    }
}

// The bytes to standard output; where no one takes them they are lost, and the box goes on.
fn send(output: &mut Stdout, bytes: &[u8]) {
    let _ = output.write_all(bytes);
}

// Every finished line of a block answered, in as few writes as the output's room allows.
fn answer_block(output: &mut Stdout, state: State, block: &[u8], out: &mut [u8]) -> BlockOutcome
    requires { longest_line ≤ length out.old }
    ensures { let ls = finished block.now in result ≡ record { state = after_lines state ls; from = behind_lines ls; written = 0 } }
{
    let mut now = state;
    let mut from: usize = 0;
    // by hand: the place moves by as many lines as the output had room for
    loop {
        let answered = answer_lines(now, &block[from..], out);
        if answered.from == 0 {
            return BlockOutcome {
                state: now,
                from,
                written: 0,
            };
        }
        send(output, &out[..answered.written]);
        now = answered.state;
        from += answered.from;
    }
}

// The unfinished line moved to the start of the block, cut where it is too long for a frame.
fn keep(block: &mut [u8], from: usize, end: usize) -> usize
    requires { (from ≤ end) × (end ≤ length block.old) }
    ensures { (result ≡ kept_count from end) × (take result block.new ≡ take result (drop from block.old)) }
{
    let count = (end - from).min(KEPT);
    block.copy_within(from..from + count, 0);
    count
}

// More input behind the line that is kept; where the block then ends. A read that fails is the end of the input.
fn fill(input: &mut Stdin, block: &mut [u8], held: usize) -> usize
    requires { held ≤ length block.old }
    ensures { (held ≤ result) × (result ≤ length block.new) }
{
    held + input.read(&mut block[held..]).unwrap_or(0)
}

fn main(rt: HostRuntime) {
    let mut input = rt.stdin();
    let mut output = rt.stdout();
    let mut state = State::fresh(362, 0).state;
    // two buffers with their counts, and no BufReader: one write answers a block, and nothing is allocated
    let mut block = [0u8; 65536];
    let mut out = [0u8; 65536];
    let mut held: usize = 0;
    // a proved loop has to end, and nothing says that the input does
    for _ in 0..u64::MAX {
        let end = fill(&mut input, &mut block, held);
        if end == held {
            break;
        }
        let answered = answer_block(&mut output, state, &block[..end], &mut out);
        state = answered.state;
        held = keep(&mut block, answered.from, end);
    }
    // the last line may lack its end
    if 0 < held {
        let answered = frames::answer(state, &block[..held], &mut out);
        send(&mut output, &out[..answered.written]);
    }
}

// The calls that take no bytes: a fresh box, a reading, ticks, a power cycle.
ghost use Rattle.std.specs.Prelude.{◌≡◌, ◌≤◌, ◌*◌, length};
ghost use Rattle.text.specs.Page.{page, puts};
ghost use Rattle.instrument.specs.Replies.{stream_text};
ghost use Rattle.tpg.specs.Answers.{answer, handed, least_output};
ghost use Rattle.tpg.specs.States.{fresh_box};
ghost use Rattle.tpg.specs.Steps.{over};
ghost use Rattle.tpg.specs.Calls.{fresh_call, tick_call, tick_bytes, ticks_text, all_counted, ticks_call, ticks_bytes, with_reading, reading_call, cycle_call};

use crate::State;
use crate::answers::{Answer, Outcome, finished};
use gauges::reading::Reading;
use instrument::Instrument;
use numbers::value::Value;
use settings::model::Model;
use text::writer::Writer;

// A fresh box, and an answer.
fn made(model: Model, serial: u32, answer: Answer) -> Outcome
    ensures { result ≡ handed answer (fresh_box model serial) }
{
    State::start(model, serial, model.defaults()).with_answer(answer)
}

impl State {
    // A box of the model with that number; without one, or with too long a serial, a fresh 361 comes with the refusal.
    pub fn fresh(number: u32, serial: u32) -> Outcome
        ensures { result ≡ fresh_call number serial }
    {
        match Model::try_from(number) {
            Ok(model) if serial <= Instrument::MOST_SERIAL => made(model, serial, Answer::Accepted),
            _ => made(Model::Tpg361, 0, Answer::NoModel),
        }
    }

    // A reading that is within its limits, of a channel from 0 on.
    #[inline(always)]
    fn with_reading(self, channel: u8, r: Reading) -> Outcome
        ensures { result ≡ handed (answer 0) (with_reading self channel r) }
    {
        finished(self.instrument.measured(channel, r), self.port, 0, 0)
    }

    // A reading of a channel, from 1 on.
    // Its number in two parts and no Value: the function is public, and a frame has them so.
    // Put into its caller: the stack then holds one state less.
    #[inline(always)]
    pub fn reading(self, channel: u8, kind: u8, status: u8, mantissa: i32, exponent: i32) -> Outcome
        ensures { result ≡ reading_call self channel (record { kind = kind; status = status; value = record { mantissa = mantissa; exponent = exponent } }) }
    {
        if !self.is_within() {
            return self.with_answer(Answer::BrokenState);
        }
        let model = self.instrument.model;
        if !(1..=model.channels()).contains(&usize::from(channel)) {
            return self.with_answer(Answer::NoChannel);
        }
        let r = Reading {
            kind,
            status,
            value: Value { mantissa, exponent },
        };
        if !r.is_within(model.kinds()) {
            return self.with_answer(Answer::BadReading);
        }
        self.with_reading(channel - 1, r)
    }

    // The line of the stream put at the front of a room of its own; how long it is.
    fn stream_line(self, line: &mut [u8]) -> usize
        ensures { page line.new result ≡ puts (page line.old 0) (stream_text self.instrument) }
    {
        let mut written = Writer::new(line, 0);
        self.instrument.stream_line(&mut written);
        written.at()
    }

    // The ticks of a box that has room for a line of the stream at each (`stream_length`); no tick changes the line.
    fn advance(self, count: u8, out: &mut [u8]) -> Outcome
        requires { least_output * count ≤ length out.old }
        ensures { (result ≡ all_counted self count) × (out.new ≡ over (ticks_text self count) out.old) }
    {
        // fixed memory (no heap); the line is made once, since no tick changes it
        let mut line = [0u8; State::LEAST_OUTPUT];
        let n = self.stream_line(&mut line);
        let mut port = self.port;
        let mut sent = Writer::new(out, 0);
        for _ in 0..count {
            let t = port.tick();
            port = t.port;
            if t.due {
                sent.append(&line[..n]);
            }
        }
        finished(self.instrument, port, 0, sent.at())
    }

    // Ticks of 100 ms, as many as count says.
    #[tactic(auto, using(crate::proofs::Deciding::roomy), unfolding(crate::specs::Calls::roomed, crate::specs::Calls::roomed_bytes, crate::specs::Steps::over))]
    pub fn ticks(self, count: u8, out: &mut [u8]) -> Outcome
        ensures { (result ≡ ticks_call self count (length out.old)) × (out.new ≡ over (ticks_bytes self count (length out.old)) out.old) }
    {
        if self.admits(State::LEAST_OUTPUT * usize::from(count), out.len()) {
            self.advance(count, out)
        } else {
            self.turned_away()
        }
    }

    // One tick of 100 ms.
    pub fn tick(self, out: &mut [u8]) -> Outcome
        ensures { (result ≡ tick_call self (length out.old)) × (out.new ≡ over (tick_bytes self (length out.old)) out.old) }
    {
        self.ticks(1, out)
    }

    // Off and on again: the box starts with its saved set.
    #[tactic(auto, unfolding(crate::specs::Calls::cycle_call))]
    pub fn power_cycle(self) -> Outcome
        ensures { result ≡ cycle_call self }
    {
        if !self.is_within() {
            return self.with_answer(Answer::BrokenState);
        }
        State::start(
            self.instrument.model,
            self.instrument.serial,
            self.instrument.saved,
        )
        .with_answer(Answer::Accepted)
    }
}

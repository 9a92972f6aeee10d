// Bytes from the host: the run over them while there is room.
ghost use Rattle.std.specs.Prelude.{◌≡◌, length};
ghost use Rattle.text.specs.Writing.{Wrote};
ghost use Rattle.tpg.specs.Steps.{line_text, over};
ghost use Rattle.tpg.specs.Calls.{hosted, host_text, host_call, host_bytes, byte_call, byte_bytes};

use crate::State;
use crate::answers::{Outcome, finished};
use lines::verdict::Verdict;
use ports::Event;
use ports::typing::is_typed;
use text::control::{ACK, CR, ENQ, LF, NAK};
use text::writer::Writer;

// What is sent where a line has ended.
fn write_line_text(out: &mut Writer, v: Verdict)
    ensures { Wrote out.old out.new (line_text v) }
{
    let first = if v.is_ok() { ACK } else { NAK };
    out.append(&[first, CR, LF]);
}

impl State {
    // The bytes taken while there is room; the instrument is changed only where a line has ended.
    fn run(self, input: &[u8], out: &mut [u8]) -> Outcome
        ensures { (result ≡ hosted self input.now (length out.old)) × (out.new ≡ over (host_text self input.now (length out.old)) out.old) }
    {
        let mut instrument = self.instrument;
        let mut port = self.port;
        let mut taken: usize = 0;
        let mut sent = Writer::new(out, 0);
        // by hand: a turn takes a byte or a run; no match over a rest: `typed` and `taken` name places in all of the input
        while taken < input.len() {
            // nothing sent for a byte is longer (`event_length`): with this room no reply is cut
            if sent.free() < State::LEAST_OUTPUT {
                return finished(instrument, port, taken, sent.at());
            }
            match input[taken] {
                b if is_typed(b) => {
                    let typed = port.typed(input, taken);
                    port = typed.port;
                    taken = typed.at;
                }
                ENQ => {
                    let asking = port.settled();
                    // a host polls by ENQs: a port that is then as it was is not copied
                    port = if asking.repeats() {
                        asking
                    } else {
                        asking.enquired()
                    };
                    taken += 1;
                    instrument.reply(&mut sent, asking.enquiry(), asking.error);
                }
                b => {
                    let heard = port.byte(instrument.model, b);
                    port = heard.port;
                    taken += 1;
                    match heard.event {
                        Event::Silent => {}
                        Event::Line(v) => {
                            write_line_text(&mut sent, v);
                            // a refused line leaves the instrument as it was; it is large, so no copy for nothing
                            if v.is_ok() {
                                instrument = instrument.applied(v);
                            }
                        }
                        Event::Reply(m, error) => instrument.reply(&mut sent, m, error),
                    }
                }
            }
        }
        finished(instrument, port, taken, sent.at())
    }

    // Bytes from the host.
    #[tactic(auto, unfolding(crate::specs::Calls::roomed, crate::specs::Calls::roomed_bytes, crate::specs::Steps::over))]
    pub fn host(self, input: &[u8], out: &mut [u8]) -> Outcome
        ensures { (result ≡ host_call self input.now (length out.old)) × (out.new ≡ over (host_bytes self input.now (length out.old)) out.old) }
    {
        if self.admits(State::LEAST_OUTPUT, out.len()) {
            self.run(input, out)
        } else {
            self.turned_away()
        }
    }

    // One byte from the host.
    pub fn byte(self, b: u8, out: &mut [u8]) -> Outcome
        ensures { (result ≡ byte_call self b (length out.old)) × (out.new ≡ over (byte_bytes self b (length out.old)) out.old) }
    {
        self.host(&[b], out)
    }
}

// What a box sends of its instrument: the reply of each mnemonic, and the line of the stream.
ghost use Rattle.std.specs.Prelude.{◌≡◌, ◌++◌, ℕ, List};
ghost use Rattle.text.specs.Writing.{Wrote};
ghost use Rattle.text.specs.Control.{cr_lf};
ghost use Rattle.instrument.specs.Replies.{reading_at, kind_at, shown_at, each_channel, switches_text, serial_text, readings_text, query_text, reply_text, stream_text, Writes};

use crate::Instrument;
use gauges::reading::Reading;
use gauges::shown::write_shown;
use ground::places::at_or;
use lines::replies::{end_line, factors_reply, setting_reply};
use lines::word::{Word, write_word};
use settings::mnemonic::{Query, Replying};
use text::digits::binary;
use text::writer::Writer;

const VERSIONS: [u8; 14] = *b",010100,010100";

// the program number of a 262
const PROGRAM: [u8; 9] = *b"302-510--";

// the digits of a serial number
const SERIAL_DIGITS: usize = 8;

impl Instrument {
    // Whether each switching function is on.
    fn write_switches(&self, out: &mut Writer)
        ensures { Wrote out.old out.new (switches_text self.now.switches) }
    {
        let [a, b, c, d] = self.switches.map(binary);
        out.append(&[a, b',', b, b',', c, b',', d]);
    }

    fn reading(&self, k: u8) -> Reading
        ensures { result ≡ reading_at self.now.readings k }
    {
        at_or(self.readings, k, Reading::none())
    }

    // The reading of one channel.
    fn write_reading(&self, out: &mut Writer, k: u8)
        ensures { Wrote out.old out.new (shown_at self.now.settings.unit self.now.readings k) }
    {
        write_shown(out, self.reading(k).shown(self.settings.unit));
    }

    // The kind of gauge of one channel.
    fn write_kind(&self, out: &mut Writer, k: u8)
        ensures { Wrote out.old out.new (kind_at self.now.model self.now.readings k) }
    {
        self.model.write_kind(out, self.reading(k).kind);
    }

    // What is written of each channel that the model has, a comma between.
    fn write_each_channel<F: Fn(&mut Writer, u8)>(&self, out: &mut Writer, write: F)
        requires { F.IsAlwaysCallable write }
        ensures { (text : ℕ → List ℕ) → Writes (F.post write) text → Wrote out.old out.new (each_channel self.now.model text) }
    {
        write(out, 0);
        if self.model.channels() < 2 {
            return;
        }
        out.put(b',');
        write(out, 1);
    }

    // The readings of all channels.
    fn write_readings(&self, out: &mut Writer)
        ensures { Wrote out.old out.new (readings_text self.now) }
    {
        self.write_each_channel(out, |out, k| self.write_reading(out, k));
    }

    #[tactic(auto, using(text::proofs::Pages::puts_append))]
    fn write_identity(&self, out: &mut Writer)
        ensures { Wrote out.old out.new (serial_text self.now.model self.now.serial) }
    {
        self.model.write_names(out);
        out.put(b',');
        out.padded(self.serial, SERIAL_DIGITS);
        out.append(&VERSIONS);
    }

    // What a query is answered with; ERR with the error word handed in.
    fn write_query(&self, out: &mut Writer, q: Query, error: Word)
        ensures { Wrote out.old out.new (query_text self.now error q) }
    {
        match q {
            Query::Sps => self.write_switches(out),
            Query::Pr(k) => self.write_reading(out, k),
            Query::Prx => self.write_readings(out),
            Query::Tid => { self.write_each_channel(out, |out, k| self.write_kind(out, k)) }
            Query::Ayt => self.write_identity(out),
            Query::Pnr => out.append(&PROGRAM),
            Query::Err => write_word(out, error),
        }
    }

    // Its reply, with the end of the line.
    #[tactic(auto, using(text::proofs::Pages::puts_append))]
    fn query_reply(&self, out: &mut Writer, q: Query, error: Word)
        ensures { Wrote out.old out.new (query_text self.now error q ++ cr_lf) }
    {
        self.write_query(out, q, error);
        end_line(out);
    }

    // The reply of a mnemonic; that of ERR is the error word handed in.
    #[tactic(auto, unfolding(crate::specs::Replies::reply_text))]
    pub fn reply(&self, out: &mut Writer, a: Replying, error: Word)
        ensures { Wrote out.old out.new (reply_text self.now error a) }
    {
        match a {
            Replying::OfSetting(x) => setting_reply(out, self.model, self.settings, x),
            Replying::Cf(_) => factors_reply(out, self.model, self.settings),
            Replying::OfQuery(q) => self.query_reply(out, q, error),
        }
    }

    // A line of the stream.
    #[tactic(auto, using(text::proofs::Pages::puts_append), unfolding(crate::specs::Replies::stream_text))]
    pub fn stream_line(&self, out: &mut Writer)
        ensures { Wrote out.old out.new (stream_text self.now) }
    {
        self.write_readings(out);
        end_line(out);
    }
}

// One byte of the host: what it does to the port, and what it makes the box do.
ghost use Rattle.std.specs.Prelude.{◌≡◌, cond, None};
ghost use Rattle.ports.specs.Line.{is_empty};
ghost use Rattle.ports.specs.Hearing.{kind_of, fresh_port, with_mark, selected, accepted, refused, concluded, cr_heard, dropped, replied, asked, quiet, by_kind, heard};
ghost use Rattle.ports.specs.Walk.{repeats, settled};
ghost use Rattle.ports.specs.declared.Event.TheVariants.{Reply};

use crate::stream::interval_of;
use crate::{Event, Heard, Port};
use lines::verdict::{Fault, Order, Verdict};
use lines::word::Word;
use settings::mnemonic::{Mnemonic, Query, Replying};
use settings::model::Model;
use text::control::{CR, ENQ, ETX, LEAST_CHARACTER, LF, MOST_CHARACTER, SPACE};

// A kind and then a match, where one match would do: the definitions `kind_of` and `by_kind` give it and take it.
#[derive(Clone, Copy)]
enum ByteKind {
    Cr,
    // an LF that is not straight after a CR, and a space
    Dropped,
    Etx,
    Enq,
    Character,
    Spoiling,
}

#[tactic(auto, unfolding(crate::specs::Hearing::kind_of))]
fn kind_of(b: u8) -> ByteKind
    ensures { result ≡ kind_of b }
{
    match b {
        CR => ByteKind::Cr,
        LF | SPACE => ByteKind::Dropped,
        ETX => ByteKind::Etx,
        ENQ => ByteKind::Enq,
        LEAST_CHARACTER..=MOST_CHARACTER => ByteKind::Character,
        _ => ByteKind::Spoiling,
    }
}

// What an accepted line selects.
fn selects(m: Mnemonic) -> Option<Replying>
    ensures { result ≡ selected m }
{
    match m {
        Mnemonic::OfReplying(a) => Some(a),
        Mnemonic::Com | Mnemonic::Sav => None,
    }
}

impl Port {
    // The port of a fresh box: the stream of power-on runs, and there is nothing else.
    pub fn fresh(model: Model) -> Port
        ensures { result ≡ fresh_port model }
    {
        Port {
            line: [0; Port::PLACES],
            len: 0,
            bad: false,
            ended: false,
            selection: None,
            error: Word::none(),
            interval: interval_of(model.power_on_mode()),
            ticks: 0,
        }
    }

    fn marked(self, ended: bool) -> Port
        ensures { result ≡ with_mark self ended }
    {
        Port { ended, ..self }
    }

    fn accepted(self, m: Mnemonic) -> Port
        ensures { result ≡ accepted self m }
    {
        Port {
            selection: selects(m),
            ..self
        }
    }

    fn refused(self, x: Fault) -> Port
        ensures { result ≡ refused self x }
    {
        Port {
            selection: None,
            error: self.error.with(x),
            ..self
        }
    }

    // The port after a line that was judged.
    #[tactic(auto, unfolding(crate::specs::Hearing::concluded))]
    fn concluded(self, v: Verdict) -> Port
        ensures { result ≡ concluded self v }
    {
        match v {
            Ok(Order::Asks(a)) => self.accepted(Mnemonic::OfReplying(a)),
            Ok(Order::Writes(m, r)) => self.accepted(m).begun(m, r),
            Err(x) => self.refused(x),
        }
    }

    #[inline(always)]
    fn cr_heard(self, model: Model) -> Heard
        ensures { result ≡ cr_heard model self }
    {
        let v = self.judged(model);
        Heard {
            port: self.emptied().marked(true).concluded(v),
            event: Event::Line(v),
        }
    }

    // Line and selection dropped.
    fn dropped(self, error: Word) -> Port
        ensures { result ≡ dropped self error }
    {
        Port {
            selection: None,
            error,
            ..self.emptied()
        }
    }

    // The mnemonic that answers an ENQ: the selected one, on an empty line.
    fn chosen(self) -> Option<Replying>
        ensures { result ≡ cond (is_empty self) self.selection None }
    {
        self.selection.filter(|_| self.is_empty())
    }

    // The mnemonic whose reply an ENQ sends: the chosen one, else ERR's, the error word.
    #[tactic(auto, unfolding(crate::specs::Hearing::asked))]
    pub fn enquiry(self) -> Replying
        ensures { Reply result self.error ≡ (asked self).event }
    {
        self.chosen().unwrap_or(Replying::OfQuery(Query::Err))
    }

    // After the reply of a selection: sent through ERR, the word is gone.
    fn replied(self, a: Replying) -> Port
        ensures { result ≡ (replied self a).port }
    {
        if a.is_err() {
            return Port {
                selection: Some(a),
                error: Word::none(),
                ..self
            };
        }
        self
    }

    // The port after an ENQ.
    #[tactic(auto, unfolding(crate::specs::Hearing::asked))]
    pub fn enquired(self) -> Port
        ensures { result ≡ (asked self).port }
    {
        match self.chosen() {
            Some(a) => self.replied(a),
            None => self.dropped(Word::none()),
        }
    }

    // Whether it is then as it was.
    pub fn repeats(self) -> bool
        ensures { result ≡ repeats self }
    {
        self.chosen().is_some_and(|a| !a.is_err())
    }

    fn asked(self) -> Heard
        ensures { result ≡ asked self }
    {
        Heard {
            port: self.enquired(),
            event: Event::Reply(self.enquiry(), self.error),
        }
    }

    // Nothing is sent.
    fn quiet(self) -> Heard
        ensures { result ≡ quiet self }
    {
        Heard {
            port: self,
            event: Event::Silent,
        }
    }

    // Put into its caller, as `cr_heard` is: else the port is copied to it and back for each byte.
    #[inline(always)]
    #[tactic(auto, unfolding(crate::specs::Hearing::by_kind))]
    fn by_kind(self, model: Model, kind: ByteKind, b: u8) -> Heard
        ensures { result ≡ by_kind model kind self b }
    {
        match kind {
            ByteKind::Cr => self.cr_heard(model),
            ByteKind::Dropped => self.quiet(),
            ByteKind::Etx => self.dropped(self.error).quiet(),
            ByteKind::Enq => self.asked(),
            ByteKind::Character => self.grown(b).quiet(),
            ByteKind::Spoiling => self.spoilt().quiet(),
        }
    }

    // As every byte leaves it but an LF straight after a CR: not straight after a CR, the stream stopped.
    pub fn settled(self) -> Port
        ensures { result ≡ settled self }
    {
        self.marked(false).stopped()
    }

    // One byte of the host, on a box of the model.
    #[tactic(auto, unfolding(crate::specs::Hearing::heard))]
    pub fn byte(self, model: Model, b: u8) -> Heard
        ensures { result ≡ heard model self b }
    {
        if self.ended && b == LF {
            return self.marked(false).quiet();
        }
        self.settled().by_kind(model, kind_of(b), b)
    }
}

// The line of a host: gathered, spoilt, emptied, judged.
ghost use Rattle.std.specs.Prelude.{◌≡◌};
ghost use Rattle.lines.specs.Judging.{judged};
ghost use Rattle.ports.specs.Line.{emptied, spoilt, grown, held, is_empty};

use crate::Port;
use lines::judging::judge;
use lines::verdict::Verdict;
use settings::model::Model;

impl Port {
    // A new line with nothing in it.
    pub(crate) fn emptied(self) -> Port
        ensures { result ≡ emptied self }
    {
        Port {
            line: [0; Port::PLACES],
            len: 0,
            bad: false,
            ..self
        }
    }

    // The line made bad.
    pub(crate) fn spoilt(self) -> Port
        ensures { result ≡ spoilt self }
    {
        Port {
            bad: true,
            ..self.emptied()
        }
    }

    // One character more.
    #[tactic(auto, unfolding(crate::specs::Line::grown))]
    pub(crate) fn grow(&mut self, b: u8)
        ensures { self.new ≡ grown self.old b }
    {
        if self.bad {
            return;
        }
        if self.len < Port::PLACES {
            self.line[self.len] = b;
            self.len += 1;
        } else {
            *self = self.spoilt();
        }
    }

    // The port with one character more in its line.
    pub(crate) fn grown(self, b: u8) -> Port
        ensures { result ≡ grown self b }
    {
        let mut p = self;
        p.grow(b);
        p
    }

    // The characters that the line holds.
    fn held(&self) -> &[u8]
        ensures { result.now ≡ held self.now }
    {
        if self.bad {
            return &[];
        }
        &self.line[..self.len.min(Port::PLACES)]
    }

    // Whether there is no character in the line, and it is not bad.
    pub(crate) fn is_empty(self) -> bool
        ensures { result ≡ is_empty self }
    {
        !self.bad && self.len == 0
    }

    // What the line is.
    pub(crate) fn judged(self, model: Model) -> Verdict
        ensures { result ≡ judged model (held self) }
    {
        judge(model, self.held())
    }
}

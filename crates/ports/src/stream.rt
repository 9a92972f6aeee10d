// The stream: started by COM, stopped by a byte of the host, counted by ticks.
ghost use Rattle.std.specs.Prelude.{◌≡◌};
ghost use Rattle.ports.specs.Stream.{interval_of, stopped, begun, ticked};

use crate::{Port, Ticked};
use settings::mnemonic::Mnemonic;
use settings::rows::Row;

// the intervals of the modes of COM
pub(crate) const INTERVALS: [u32; 3] = [1, 10, 600];

// The ticks from line to line in a mode.
// A number and no enum of modes: the definition `interval_of` promises that a number that is no mode streams nothing.
pub(crate) fn interval_of(mode: u32) -> u32
    ensures { result ≡ interval_of mode }
{
    INTERVALS.get(mode as usize).copied().unwrap_or(0)
}

impl Port {
    pub(crate) fn stopped(self) -> Port
        ensures { result ≡ stopped self }
    {
        Port {
            interval: 0,
            ticks: 0,
            ..self
        }
    }

    // The stream begun by an accepted line: only COM begins one.
    pub(crate) fn begun(self, m: Mnemonic, r: Row) -> Port
        ensures { result ≡ begun self m r }
    {
        match m {
            Mnemonic::Com => Port {
                interval: interval_of(r.first.mantissa),
                ticks: 0,
                ..self
            },
            Mnemonic::OfReplying(_) | Mnemonic::Sav => self,
        }
    }

    // One tick: the count, and whether a line is due.
    #[tactic(auto, unfolding(crate::specs::Stream::ticked))]
    pub fn tick(self) -> Ticked
        ensures { result ≡ ticked self }
    {
        let (ticks, due) = match self.interval {
            0 => (self.ticks, false),
            n if self.ticks < n - 1 => (self.ticks + 1, false),
            _ => (0, true),
        };
        Ticked {
            port: Port { ticks, ..self },
            due,
        }
    }
}

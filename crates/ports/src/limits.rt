// The limits of a port.
ghost use Rattle.std.specs.Prelude.{◌≡◌};
ghost use Rattle.ground.specs.Members.{every};
ghost use Rattle.ground.specs.Ranges.{in_range};
ghost use Rattle.ports.specs.Limits.{line_within, stream_within, selection_within, port_within};

use crate::Port;
use crate::stream::INTERVALS;
use settings::model::Model;
use text::control::{LEAST_CHARACTER, MOST_CHARACTER};

// Whether all places hold bytes from low to high.
fn all_within(places: &[u8], low: u8, high: u8) -> bool
    ensures { result ≡ every (in_range low high) places.now }
{
    places.iter().all(|b| (low..=high).contains(b))
}

impl Port {
    #[tactic(auto, unfolding(crate::specs::Limits::line_within))]
    fn line_is_within(self) -> bool
        ensures { result ≡ line_within self }
    {
        match self.line.split_at_checked(self.len) {
            None => false,
            Some((used, unused)) => {
                all_within(used, LEAST_CHARACTER, MOST_CHARACTER)
                    && all_within(unused, 0, 0)
                    && (!self.bad || self.len == 0)
            }
        }
    }

    fn stream_is_within(self) -> bool
        ensures { result ≡ stream_within self }
    {
        (self.interval == 0 && self.ticks == 0)
            || (INTERVALS.contains(&self.interval) && self.ticks < self.interval)
    }

    fn selection_is_within(self, model: Model) -> bool
        ensures { result ≡ selection_within model self.selection }
    {
        self.selection.is_none_or(|a| model.answers(a))
    }

    // Whether a box of the model can have such a port.
    #[tactic(auto, unfolding(crate::specs::Limits::port_within))]
    pub fn is_within(self, model: Model) -> bool
        ensures { result ≡ port_within model self }
    {
        self.line_is_within() && self.stream_is_within() && self.selection_is_within(model)
    }
}

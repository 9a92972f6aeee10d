// The box: its state, and the calls that take it by value and hand it back.
#![tactic(auto)]

ghost use Rattle.std.specs.Prelude.{◌≡◌};
ghost use Rattle.tpg.specs.States.{state_within, started_box};

use instrument::Instrument;
use ports::Port;
use settings::Settings;
use settings::model::Model;

pub mod answers;
pub mod calls;
pub mod host;

#[derive(Clone, Copy)]
pub struct State {
    pub instrument: Instrument,
    pub port: Port,
}

impl State {
    // a call with a shorter output is refused, and no byte is taken with less of it free
    pub const LEAST_OUTPUT: usize = 64;

    // Whether a box can be in it.
    #[tactic(auto, unfolding(crate::specs::States::state_within))]
    pub fn is_within(self) -> bool
        ensures { result ≡ state_within self }
    {
        self.instrument.is_within() && self.port.is_within(self.instrument.model)
    }

    // A box that starts with a saved set.
    pub(crate) fn start(model: Model, serial: u32, saved: Settings) -> State
        ensures { result ≡ started_box model serial saved }
    {
        State {
            instrument: Instrument::started(model, serial, saved),
            port: Port::fresh(model),
        }
    }
}

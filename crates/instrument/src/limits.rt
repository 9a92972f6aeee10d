// The limits of the instrument.
ghost use Rattle.std.specs.Prelude.{◌≡◌};
ghost use Rattle.instrument.specs.Limits.{reading_within, switches_within, instrument_within};

use crate::Instrument;
use gauges::reading::Reading;
use settings::Switching;
use settings::model::Model;

// A channel that the model lacks has no reading.
fn reading_is_within(model: Model, k: usize, r: Reading) -> bool
    ensures { result ≡ reading_within model k r }
{
    r.is_within(model.kinds()) && (k < model.channels() || r.kind == Reading::KIND_NO_SENSOR)
}

fn switches_are_within(model: Model, w: [Switching; 4], on: [bool; 4]) -> bool
    ensures { result ≡ switches_within model w on }
{
    w.iter()
        .zip(&on)
        .all(|(w, on)| model.agrees(w.assignment, *on))
}

impl Instrument {
    // Whether a box can be so.
    pub fn is_within(self) -> bool
        ensures { result ≡ instrument_within self }
    {
        let model = self.model;
        // one set after the other in one place: the stack holds a single copy
        let mut set = self.settings;
        let present = set.is_within(model);
        set = self.saved;
        let kept = set.is_within(model);
        let read = self
            .readings
            .iter()
            .enumerate()
            .all(|(k, r)| reading_is_within(model, k, *r));
        let switched = switches_are_within(model, self.settings.switching, self.switches);
        self.serial <= Instrument::MOST_SERIAL && present && kept && read && switched
    }
}

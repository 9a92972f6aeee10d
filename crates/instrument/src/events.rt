// What happens to the instrument: power-on, a reading, a line.
ghost use Rattle.std.specs.Prelude.{◌≡◌};
ghost use Rattle.instrument.specs.Events.{started, following, measured, saved_by, switches_by, written, applied};

use crate::Instrument;
use gauges::reading::Reading;
use gauges::shown::Shown;
use ground::places::put_at;
use lines::verdict::{Order, Verdict};
use settings::mnemonic::{Mnemonic, Replying, Setting};
use settings::model::Model;
use settings::rows::Row;
use settings::{Settings, Switching};
use std::array::from_fn;

// The switching function after a reading of a channel, as it is shown.
fn follow(model: Model, channel: u8, shown: Shown, w: Switching, was: bool) -> bool
    ensures { result ≡ following model channel shown w was }
{
    if model.follows(w.assignment, channel) {
        return shown.switches(w.lower, w.upper, was);
    }
    was
}

impl Instrument {
    // A box that starts with a saved set: no reading, and each switching function as its assignment starts.
    pub fn started(model: Model, serial: u32, saved: Settings) -> Instrument
        ensures { result ≡ started model serial saved }
    {
        Instrument {
            model,
            serial,
            settings: saved,
            saved,
            readings: [Reading::none(); 2],
            switches: saved.switching.map(|w| model.starts_on(w.assignment)),
        }
    }

    // A reading of a channel, from 0 on.
    #[tactic(auto, unfolding(crate::specs::Events::measured))]
    pub fn measured(self, channel: u8, r: Reading) -> Instrument
        ensures { result ≡ measured self channel r }
    {
        let shown = r.shown(self.settings.unit);
        Instrument {
            readings: put_at(self.readings, channel, r),
            switches: from_fn(|i| {
                let w = self.settings.switching[i];
                follow(self.model, channel, shown, w, self.switches[i])
            }),
            ..self
        }
    }

    // The saved set after an accepted line.
    fn saved_by(self, m: Mnemonic, r: Row) -> Settings
        ensures { result ≡ saved_by self m r }
    {
        match m {
            Mnemonic::Sav if r.first.mantissa == 0 => self.model.defaults(),
            Mnemonic::Sav => self.settings,
            Mnemonic::OfReplying(_) | Mnemonic::Com => self.saved,
        }
    }

    // The switches after an accepted line.
    fn switches_by(self, m: Mnemonic, r: Row) -> [bool; 4]
        ensures { result ≡ switches_by self m r }
    {
        match m {
            Mnemonic::OfReplying(Replying::OfSetting(Setting::Sp(k))) => {
                put_at(self.switches, k, self.model.starts_on(r.first.mantissa))
            }
            _ => self.switches,
        }
    }

    #[tactic(auto, unfolding(crate::specs::Events::written))]
    fn written(self, m: Mnemonic, r: Row) -> Instrument
        ensures { result ≡ written self m r }
    {
        Instrument {
            settings: self.settings.store(self.model, m, r),
            saved: self.saved_by(m, r),
            switches: self.switches_by(m, r),
            ..self
        }
    }

    // A line that was judged: only one that writes changes anything.
    pub fn applied(self, v: Verdict) -> Instrument
        ensures { result ≡ applied self v }
    {
        match v {
            Ok(Order::Writes(m, r)) => self.written(m, r),
            Ok(Order::Asks(_)) | Err(_) => self,
        }
    }
}

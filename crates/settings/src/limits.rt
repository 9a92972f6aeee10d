// The limits of settings on a model.
ghost use Rattle.std.specs.Prelude.{◌≡◌};
ghost use Rattle.settings.specs.Limits.{inside, fits, place_fits, row_fits, row_within, within};

use crate::Settings;
use crate::mnemonic::{HELD, Setting};
use crate::model::Model;
use crate::rows::Row;
use crate::table::{Fields, Kind, Limits};
use numbers::threshold::Threshold;

fn is_inside(l: Limits, cell: Threshold) -> bool
    ensures { result ≡ inside l cell }
{
    cell.exponent == 0 && (l.least..=l.most).contains(&cell.mantissa)
}

// Whether a field of this kind may hold the cell.
fn fits(kind: Kind, cell: Threshold) -> bool
    ensures { result ≡ fits kind cell }
{
    match kind {
        Kind::OfWhole(l) | Kind::OfFactor(l) => is_inside(l, cell),
        Kind::OfThreshold => cell.is_within(),
    }
}

// A cell fits its field; where the model has no field for it, it is at its default.
fn place_is_within(field: Option<Kind>, cell: Threshold, default: Threshold) -> bool
    ensures { result ≡ place_fits field cell default }
{
    match field {
        Some(kind) => fits(kind, cell),
        None => cell == default,
    }
}

// So for the cells of a row.
fn row_is_within(f: Fields, r: Row, default: Row) -> bool
    ensures { result ≡ row_fits f r default }
{
    place_is_within(f.kind(0), r.first, default.first)
        && place_is_within(f.kind(1), r.second, default.second)
        && place_is_within(f.kind(2), r.third, default.third)
}

impl Settings {
    fn holds(self, model: Model, x: Setting) -> bool
        ensures { result ≡ row_within model self x }
    {
        let entry = model.setting_entry(x);
        row_is_within(entry.fields, self.row(x), entry.default)
    }

    // Whether a box of the model may be set so.
    pub fn is_within(self, model: Model) -> bool
        ensures { result ≡ within model self }
    {
        HELD.iter().all(|x| self.holds(model, *x))
    }
}

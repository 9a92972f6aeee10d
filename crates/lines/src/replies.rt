// The reply of each setting.
ghost use Rattle.std.specs.Prelude.{◌≡◌, ◌++◌};
ghost use Rattle.text.specs.Writing.{Wrote};
ghost use Rattle.text.specs.Control.{cr_lf};
ghost use Rattle.lines.specs.Fields.{write};
ghost use Rattle.lines.specs.Replies.{setting_text, factors_text};
ghost use Rattle.lines.specs.Walk.{more};

use numbers::threshold::Threshold;
use numerals::writing::write_threshold;
use settings::Settings;
use settings::mnemonic::{Mnemonic, Replying, Setting};
use settings::model::Model;
use settings::table::Kind;
use text::control::{CR, LF};
use text::writer::Writer;

fn write_cell(out: &mut Writer, kind: Kind, cell: Threshold)
    ensures { Wrote out.old out.new (write kind cell) }
{
    match kind {
        Kind::OfWhole(_) => out.whole(cell.mantissa),
        Kind::OfFactor(_) => out.factor(cell.mantissa),
        Kind::OfThreshold => write_threshold(out, cell),
    }
}

// A comma and one cell more, if there is one.
#[tactic(auto, using(text::proofs::Pages::puts_append))]
fn write_more(out: &mut Writer, kind: Option<Kind>, cell: Threshold)
    ensures { Wrote out.old out.new (more kind cell) }
{
    if let Some(k) = kind {
        out.put(b',');
        write_cell(out, k, cell);
    }
}

// The cells of a setting, commas between.
// Model and settings are no struct: one model has two sets of settings, those that hold and those that are saved.
#[tactic(auto, using(text::proofs::Pages::puts_append, crate::proofs::Written::setting_none, crate::proofs::Written::setting_written))]
fn write_setting(out: &mut Writer, model: Model, s: Settings, x: Setting)
    ensures { Wrote out.old out.new (setting_text model s x) }
{
    let f = model
        .entry(Mnemonic::OfReplying(Replying::OfSetting(x)))
        .fields;
    let r = s.row(x);
    // by place and no loop: the cells of a row have names, and the first has no comma before it
    if let Some(kind) = f.kind(0) {
        write_cell(out, kind, r.first);
        write_more(out, f.kind(1), r.second);
        write_more(out, f.kind(2), r.third);
    }
}

// CR LF.
pub fn end_line(out: &mut Writer)
    ensures { Wrote out.old out.new cr_lf }
{
    out.append(&[CR, LF]);
}

// What the box sends when it is asked for a setting.
#[tactic(auto, using(text::proofs::Pages::puts_append))]
pub fn setting_reply(out: &mut Writer, model: Model, s: Settings, x: Setting)
    ensures { Wrote out.old out.new (setting_text model s x ++ cr_lf) }
{
    write_setting(out, model, s, x);
    end_line(out);
}

// What the box sends when it is asked for CF1 or CF2: the factors of all its channels.
pub fn factors_reply(out: &mut Writer, model: Model, s: Settings)
    ensures { Wrote out.old out.new (factors_text model s ++ cr_lf) }
{
    setting_reply(out, model, s, Setting::Cal);
}

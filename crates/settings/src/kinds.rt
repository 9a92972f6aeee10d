// The kinds of gauges that a model knows, by name.
ghost use Rattle.std.specs.Prelude.{◌≡◌};
ghost use Rattle.text.specs.Writing.{Wrote};
ghost use Rattle.settings.specs.Kinds.{gauge_kinds, kind_name};

use crate::model::Model;
use text::writer::Writer;

impl Model {
    // How many kinds there are, counted from 0.
    pub fn kinds(self) -> u8
        ensures { result ≡ gauge_kinds self }
    {
        if self.is_older() { 9 } else { 8 }
    }

    // The name of a kind by its number, which is no enum: `kind_name` promises no name for a number that is no kind.
    fn kind_name(self, kind: u8) -> &'static [u8]
        ensures { result.now ≡ kind_name self kind }
    {
        match (kind, self.is_older()) {
            (0, false) => b"TPR/PCR",
            (0, true) => b"TPR",
            (1, false) => b"IKR",
            (1, true) => b"IKR9",
            (2, _) => b"PKR",
            (3, _) => b"PBR",
            (4, _) => b"IMR",
            (5, false) => b"CMR/APR",
            (5, true) => b"CMR",
            (6, _) => b"noSEn",
            (7, _) => b"noid",
            (8, true) => b"IKR11",
            _ => b"",
        }
    }

    // The name of a kind as TID tells it.
    pub fn write_kind(self, out: &mut Writer, kind: u8)
        ensures { Wrote out.old out.new (kind_name self kind) }
    {
        out.append(self.kind_name(kind));
    }
}

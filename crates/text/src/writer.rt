// Bytes put into a lent output one after the other.
ghost use Rattle.std.specs.Prelude.{◌≡◌, ◌-◌, ◌∷◌, [], length};
ghost use Rattle.text.specs.Page.{page};
ghost use Rattle.text.specs.Writing.{page_of, Wrote};

// A lent output, and the place where its next byte goes.
// No `Display`: a reply is bytes of the lent output, cut where its room ends, and `Wrote` says each; no String, no heap.
#[derive(Drop)]
pub struct Writer<'a> {
    bytes: &'a mut [u8],
    at: usize,
}

impl<'a> Writer<'a> {
    // A writer that goes on from a place.
    pub fn new(bytes: &'a mut [u8], at: usize) -> Writer<'a>
        ensures same_output { result.bytes.ghost_name ≡ bytes.entry.ghost_name }
        ensures page { page_of result ≡ page bytes.old at }
    {
        Writer { bytes, at }
    }

    // The place behind what was written.
    pub fn at(&self) -> usize
        ensures { result ≡ self.now.at }
    {
        self.at
    }

    // How many bytes there is still room for.
    pub fn free(&self) -> usize
        ensures { result ≡ length self.now.bytes.now - self.now.at }
    {
        self.bytes.len().saturating_sub(self.at)
    }

    // One byte more; past the end nothing changes.
    pub fn put(&mut self, b: u8)
        ensures { Wrote self.old self.new (b ∷ []) }
    {
        // not by `get_mut`: tried, and after it nothing is known of the other bytes
        if self.at < self.bytes.len() {
            self.bytes[self.at] = b;
            self.at += 1;
        }
    }

    // The bytes of s, as far as there is room.
    // Two ways, put into the caller: a text whose length is known there needs no place in memory to be copied from.
    #[inline(always)]
    #[tactic(auto, using(crate::proofs::Pages::puts_between))]
    pub fn append(&mut self, s: &[u8])
        ensures { Wrote self.old self.new s.now }
    {
        if self.at < self.bytes.len() && s.len() <= self.bytes.len() - self.at {
            self.bytes[self.at..self.at + s.len()].copy_from_slice(s);
            self.at += s.len();
        } else {
            self.cut(s);
        }
    }

    // As much of s as there is room for; byte by byte, so that here too a short text needs no place in memory.
    #[inline(always)]
    fn cut(&mut self, s: &[u8])
        ensures { Wrote self.old self.new s.now }
    {
        for b in s {
            self.put(*b);
        }
    }
}

// Characters and spaces of the host, gathered into the line a run at a time.
ghost use Rattle.std.specs.Prelude.{◌≡◌, ◌+◌, length, drop};
ghost use Rattle.ports.specs.Walk.{is_typed, typing, typed_all};

use crate::Port;
use text::control::{MOST_CHARACTER, SPACE};

#[derive(Clone, Copy)]
pub struct Typed {
    pub port: Port,
    // the place of the first byte that was not typed
    pub at: usize,
}

// Whether a byte is a character or a space.
#[tactic(auto, using(crate::proofs::Characters::typed_range))]
pub fn is_typed(b: u8) -> bool
    ensures { result ≡ is_typed b }
{
    (SPACE..=MOST_CHARACTER).contains(&b)
}

// The typed bytes that the input begins with.
#[tactic(auto, unfolding(crate::specs::Walk::typing))]
fn typed_run(input: &[u8]) -> &[u8]
    ensures { result.now ≡ typing input.now }
{
    let count = input
        .iter()
        .position(|b| !is_typed(*b))
        .unwrap_or(input.len());
    &input[..count]
}

impl Port {
    // All bytes typed from a place on, up to the first that is another.
    // A place beside the input and no slice: the promise is of places past the end too, where `from` comes back.
    pub fn typed(self, input: &[u8], from: usize) -> Typed
        ensures { result ≡ record { port = typed_all self (typing (drop from input.now)); at = from + length (typing (drop from input.now)) } }
    {
        let run = typed_run(input.get(from..).unwrap_or(&[]));
        if run.is_empty() {
            return Typed {
                port: self,
                at: from,
            };
        }
        let mut port = self.settled();
        for b in run {
            if *b != SPACE {
                port.grow(*b);
            }
        }
        Typed {
            port,
            at: from + run.len(),
        }
    }
}

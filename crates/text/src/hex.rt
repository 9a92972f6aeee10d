// Upper-case hexadecimal: two digits to a byte.
ghost use Rattle.std.specs.Prelude.{◌≡◌};
ghost use Rattle.text.specs.Hex.{value_of};

pub const DIGITS: [u8; 16] = *b"0123456789ABCDEF";

// The value of a digit; none for any other character.
#[tactic(auto, unfolding(crate::specs::Hex::value_of))]
pub fn value_of(digit: u8) -> Option<u8>
    ensures { result ≡ value_of digit }
{
    match digit {
        b'0'..=b'9' => Some(digit - b'0'),
        b'A'..=b'F' => Some(digit - b'A' + 10),
        _ => None,
    }
}

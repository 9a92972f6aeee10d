// Numbers of five digits put into a text.
ghost use Rattle.std.specs.Prelude.{◌≡◌};
ghost use Rattle.text.specs.Writing.{Wrote};
ghost use Rattle.numerals.specs.Writing.{sign_byte, scientific, threshold_text, value_text};

use numbers::signs::magnitude;
use numbers::threshold::Threshold;
use numbers::value::Value;
use text::digits::digit_at;
use text::writer::Writer;

fn sign_byte(z: i32) -> u8
    ensures { result ≡ sign_byte z }
{
    if z < 0 { b'-' } else { b'+' }
}

// d.ddddE, sign, two digits.
#[tactic(auto, unfolding(crate::specs::Writing::scientific))]
fn scientific(m: u32, e: i32) -> [u8; 10]
    ensures { result ≡ scientific m e }
{
    let x = magnitude(e);
    [
        digit_at(m, 4),
        b'.',
        digit_at(m, 3),
        digit_at(m, 2),
        digit_at(m, 1),
        digit_at(m, 0),
        b'E',
        sign_byte(e),
        digit_at(x, 1),
        digit_at(x, 0),
    ]
}

// The threshold as it is sent.
pub fn write_threshold(out: &mut Writer, n: Threshold)
    ensures { Wrote out.old out.new (threshold_text n) }
{
    out.append(&scientific(n.mantissa, n.exponent));
}

// A shown value as it is sent: its sign first.
pub type ValueBytes = [u8; 11];

pub fn value_bytes(v: Value) -> ValueBytes
    ensures { result ≡ value_text v }
{
    let mut bytes = [sign_byte(v.mantissa); 11];
    bytes[1..].copy_from_slice(&scientific(magnitude(v.mantissa), v.exponent));
    bytes
}

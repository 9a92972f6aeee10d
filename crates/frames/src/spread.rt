// The bytes that a frame sent, turned into its output line.
ghost use Rattle.std.specs.Prelude.{◌≡◌, [], ◌∷◌, ◌++◌, ◌+◌, ◌*◌, ◌≤◌, length, take};
ghost use Rattle.text.specs.Control.{lf};
ghost use Rattle.text.specs.Hex.{hex, hex_pair};
ghost use Rattle.tpg.specs.Steps.{over};
ghost use Rattle.frames.specs.Frames.{most_sent, longest_line};

use text::control::LF;
use text::hex::DIGITS;

// The two digits of a byte.
#[tactic(auto, unfolding(text::specs::Hex::digit_of))]
fn pair(byte: u8) -> [u8; 2]
    ensures { result ≡ hex_pair byte }
{
    let byte = usize::from(byte);
    [DIGITS[byte / 16], DIGITS[byte % 16]]
}

// The first bytes of out become an output line. From the last one on, since a byte's digits stand behind it.
pub(crate) fn spread(out: &mut [u8], number: u8, count: usize) -> usize
    requires { (count ≤ most_sent) × (longest_line ≤ length out.old) }
    ensures { (result ≡ 2 + 2 * count + 1) × (out.new ≡ over (hex (number ∷ take count out.old) ++ lf ∷ []) out.old) }
{
    for i in (0..count).rev() {
        // each by itself: put there as one slice they cost nearly twice the instructions
        let [high, low] = pair(out[i]);
        out[2 + 2 * i] = high;
        out[3 + 2 * i] = low;
    }
    let [high, low] = pair(number);
    out[0] = high;
    out[1] = low;
    let end = 2 + 2 * count;
    out[end] = LF;
    end + 1
}

// The bytes of a frame.
ghost use Rattle.std.specs.Prelude.{◌≡◌, ◌≤◌, [], length, take, MatchOption};
ghost use Rattle.frames.specs.Frames.{longest_frame};
ghost use Rattle.frames.specs.Walk.{read_bytes};

use crate::LONGEST_FRAME;
use text::hex::value_of;

// The bytes that a line stands for, put at the start of `bytes`: how many, or none: it is no hexadecimal, or too long.
pub(crate) fn read(line: &[u8], bytes: &mut [u8]) -> Option<usize>
    requires { length bytes.old ≡ longest_frame }
    ensures { MatchOption result (read_bytes line.now ≡ []) (λ count. (count ≤ longest_frame) × (take count bytes.new ≡ read_bytes line.now)) }
{
    let (pairs, odd) = line.as_chunks::<2>();
    if !odd.is_empty() || LONGEST_FRAME < pairs.len() {
        return None;
    }
    // tried: after an adapter of `iter_mut` (`bytes.iter_mut().zip(pairs)`) nothing is known of the members
    for (i, &[high, low]) in pairs.iter().enumerate() {
        bytes[i] = 16 * value_of(high)? + value_of(low)?;
    }
    Some(pairs.len())
}

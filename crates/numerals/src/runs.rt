// Runs of digits, and the number that they make.
ghost use Rattle.std.specs.Prelude.{◌≡◌, ◌≤◌, ◌+◌, ◌-◌, ◌*◌, ◌^◌, length};
ghost use Rattle.numerals.specs.Runs.{part, lead, rest, value};

// The bytes of s from start up to, not including, end, as far as s has them: for any two places, so with no slice.
// No code calls it: it states what the readers promised of two places.
pub fn part(s: &[u8], start: usize, end: usize) -> &[u8]
    ensures { result.now ≡ part start end s.now }
{
    s.get(start..end.min(s.len())).unwrap_or(&[])
}

// The digits that s begins with, and what follows them.
pub(crate) fn digits(s: &[u8]) -> (&[u8], &[u8])
    ensures lead { result.0.now ≡ lead s.now }
    ensures rest { result.1.now ≡ rest s.now }
{
    let end = s
        .iter()
        .position(|b| !b.is_ascii_digit())
        .unwrap_or(s.len());
    s.split_at(end)
}

// What the byte b counts as a digit.
fn digit(b: u8) -> u64
    ensures value { result ≡ b - 48 }
    ensures bound { result ≤ 207 }
{
    u64::from(b.saturating_sub(b'0'))
}

// The number that the digits make behind those of m.
#[tactic(auto, using(crate::proofs::DigitRuns::turns))]
pub(crate) fn value(m: u64, digits: &[u8]) -> u64
    requires { (m + 23) * 10 ^ length digits.now ≤ 23 * 10 ^ 12 }
    ensures value { result ≡ value m digits.now }
    ensures bound { result + 23 ≤ (m + 23) * 10 ^ length digits.now }
{
    let mut n = m;
    for b in digits {
        n = n * 10 + digit(*b);
    }
    n
}

// Numbers by their digits: whole numbers, numbers of fixed width, factors.
ghost use Rattle.std.specs.Prelude.{◌≡◌, ◌≤◌, ◌<◌, ◌+◌, ◌/◌, ◌%◌, ◌^◌, drop};
ghost use Rattle.text.specs.Writing.{Wrote};
ghost use Rattle.text.specs.Digits.{binary, dig, bare, whole_text, padded_text, factor_text};

use crate::writer::Writer;

// A digit that is 0 or 1.
pub fn binary(on: bool) -> u8
    ensures { result ≡ binary on }
{
    b'0' + u8::from(on)
}

// The digit of n with k digits behind it; a number has ten at most.
pub fn digit_at(n: u32, k: usize) -> u8
    ensures { result ≡ 48 + n / 10 ^ k % 10 }
{
    if k < 10 {
        b'0' + (n / 10u32.pow(k as u32) % 10) as u8
    } else {
        b'0'
    }
}

// All digits that a number can have, the highest first.
fn digits_of(n: u32) -> [u8; 10]
    ensures { result ≡ dig 10 n }
{
    std::array::from_fn(|i| digit_at(n, 9 - i))
}

// How many of the digits are leading zeros; the last digit is none.
fn zeros(d: [u8; 10]) -> usize
    ensures { (result ≤ 9) × (drop result d ≡ bare d) }
{
    d[..9].iter().take_while(|&&b| b == b'0').count()
}

impl Writer<'_> {
    // A whole number without leading zeros; one digit needs no search for them.
    pub fn whole(&mut self, n: u32)
        ensures { Wrote self.old self.new (whole_text n) }
    {
        if n < 10 {
            return self.put(b'0' + n as u8);
        }
        let d = digits_of(n);
        self.append(&d[zeros(d)..]);
    }

    // A number of fixed width, with leading zeros; ten digits at most.
    // Digit by digit, and put into its callers: each knows the width, and no other digit is made.
    #[inline(always)]
    #[tactic(auto, using(crate::proofs::Decimals::dig_next))]
    pub fn padded(&mut self, n: u32, width: usize)
        ensures { Wrote self.old self.new (padded_text n width) }
    {
        for k in (0..width.min(10)).rev() {
            self.put(digit_at(n, k));
        }
    }

    // A factor of t thousandths.
    #[tactic(auto, using(crate::proofs::Pages::puts_append))]
    pub fn factor(&mut self, t: u32)
        ensures { Wrote self.old self.new (factor_text t) }
    {
        self.whole(t / 1000);
        self.put(b'.');
        self.padded(t, 3);
    }
}

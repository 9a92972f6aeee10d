// A reading's number as a frame of the bench has it in bytes.
ghost use Rattle.std.specs.Prelude.{◌≡◌};
ghost use Rattle.frames.specs.Encoding.{exponent_of, mantissa_of};

// An exponent byte in two's complement.
pub(crate) fn exponent_of(byte: u8) -> i32
    ensures { result ≡ exponent_of byte }
{
    i32::from(byte.cast_signed())
}

// A mantissa from its sign and its three bytes, high first.
pub(crate) fn mantissa_of(minus: bool, high: u8, middle: u8, low: u8) -> i32
    ensures { result ≡ mantissa_of minus high middle low }
{
    let m = i32::from_be_bytes([0, high, middle, low]);
    if minus { -m } else { m }
}

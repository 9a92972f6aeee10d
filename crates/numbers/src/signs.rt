// Signs apart from magnitudes.
ghost use Rattle.std.specs.Prelude.{◌≡◌, ◌≤◌, nat_abs};
ghost use Rattle.numbers.specs.Numbers.{signed};

pub fn magnitude(z: i32) -> u32
    ensures { result ≡ nat_abs z }
{
    // by negation and not `unsigned_abs`: the form that 01 names
    if z < 0 {
        -i64::from(z) as u32
    } else {
        z as u32
    }
}

// The magnitude m with the sign of z.
pub(crate) fn with_sign(z: i32, m: u32) -> i32
    requires { m ≤ 100000 }
    ensures { result ≡ signed z m }
{
    // not `signum`, which is 0 at zero, where `signed` promises m
    let m = m as i32;
    if z < 0 { -m } else { m }
}

// Quotients by a positive number, rounded down and up, exact to the ends of `i128`.

ghost use Rattle.std.specs.Prelude.{◌≡◌, ◌^◌, ◌<◌, pos, ◌<ℤ◌, unsigned_abs};
ghost use Rattle.whole_numbers.specs.Rounding.{floor_of, ceil_of};

/// `z / k`, rounded down.
pub fn floor_by(z: i128, k: i128) -> i128
    requires { pos 0 <ℤ k }
    ensures { result ≡ floor_of z (unsigned_abs k) }
{
    z.div_euclid(k)
}

/// `z / k`, rounded up.
pub fn ceil_by(z: i128, k: i128) -> i128
    requires { pos 0 <ℤ k }
    ensures { result ≡ ceil_of z (unsigned_abs k) }
{
    let down = z.div_euclid(k);
    if z.rem_euclid(k) == 0 { down } else { down + 1 }
}

/// `z / 2^bits`, rounded down.
pub fn floor_shift(z: i128, bits: u32) -> i128
    requires { bits < 128 }
    ensures { result ≡ floor_of z (2 ^ bits) }
{
    z >> bits
}

/// `z / 2^bits`, rounded up: one above the floor of what is one less. The least `i128` has nothing one less, and is a
/// multiple of `2^bits`.
pub fn ceil_shift(z: i128, bits: u32) -> i128
    requires { bits < 128 }
    ensures { result ≡ ceil_of z (2 ^ bits) }
{
    if z == i128::MIN {
        z >> bits
    } else {
        ((z - 1) >> bits) + 1
    }
}

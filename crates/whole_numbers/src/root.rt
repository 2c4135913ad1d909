// The square root of a whole number, rounded down.

ghost use Rattle.std.specs.Prelude.{◌≡◌, pos, ◌≤ℤ◌};
ghost use Rattle.whole_numbers.specs.Root.{root_of};

/// The square root of `z`, rounded down.
pub fn whole_root(z: i128) -> i128
    requires { pos 0 ≤ℤ z }
    ensures { result ≡ pos (root_of z) }
{
    z.isqrt()
}

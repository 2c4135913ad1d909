// From ends of 128 bits to ends of 64, and back.

ghost use Rattle.std.specs.Prelude.{◌≡◌, ◌^◌};
ghost use Rattle.fix_interval.specs.Intervals.{ends, ends_64, IsWithin};

use crate::interval::Iv;
use crate::interval_64::Iv64;

impl Iv {
    /// The same interval, by ends of 64 bits.
    #[inline(always)]
    pub fn in_64_bits(self) -> Iv64
        requires { IsWithin self (2 ^ 62) }
        ensures { ends_64 result ≡ ends self }
    {
        Iv64 {
            lo: self.lo as i64,
            hi: self.hi as i64,
        }
    }
}

impl Iv64 {
    /// The same interval, by ends of 128 bits.
    #[inline(always)]
    pub fn in_128_bits(self) -> Iv
        ensures { ends result ≡ ends_64 self }
    {
        Iv {
            lo: self.lo as i128,
            hi: self.hi as i128,
        }
    }
}

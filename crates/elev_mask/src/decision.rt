// The decisions of a look.

ghost use Rattle.std.specs.Prelude.{◌≡◌};
ghost use Rattle.fix_interval.specs.Intervals.{ends};
ghost use Rattle.site_laws.specs.Sights.{is_hidden, is_seen};

use fix_interval::Iv;

/// One megametre, in units of 2^-38.
const ONE: i128 = 274877906944;

/// Whether the range is surely below one megametre, or the part over the up direction surely below the least.
pub(crate) fn hidden(range: Iv, up: Iv, least: Iv) -> bool
    ensures { result ≡ is_hidden (ends range) (ends up) (ends least) }
{
    range.hi < ONE || up.hi < least.lo
}

/// Whether the range is surely at least one megametre, and the part over the up direction surely at least the least.
pub(crate) fn seen(range: Iv, up: Iv, least: Iv) -> bool
    ensures { result ≡ is_seen (ends range) (ends up) (ends least) }
{
    range.lo >= ONE && least.hi <= up.lo
}

// The weights of the satellites' rows.
ghost use Rattle.std.specs.Prelude.{◌≡◌, All, pos, ◌≤ℤ◌, ◌^◌};
ghost use Rattle.fix_interval.specs.Intervals.{ends};
ghost use Rattle.raim_model.specs.Ranges.{IsWeight};
ghost use Rattle.case_laws.specs.SightOver.{weight_over};

use fix_interval::Iv;
use raim_model::Weight;

/// The weight of the satellite `prn`, in units of 2^-38: 1 where none is given.
pub(crate) fn weight(weights: &[Weight], prn: u8) -> Iv
    requires { All IsWeight weights.now }
    ensures exact { ends result ≡ weight_over weights.now prn }
    ensures not_negative { pos 0 ≤ℤ result.lo }
    ensures at_most_one { result.hi ≤ℤ pos (2 ^ 38) }
{
    for weight in weights {
        if weight.prn == prn {
            return Iv::from_dec(&weight.k);
        }
    }
    Iv::ONE
}

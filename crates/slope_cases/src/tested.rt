// The tests of slopes where nothing is known of the rows.
ghost use Rattle.std.specs.Prelude.{◌≤◌, length};

use exclusion_subsets::exclude;
use fix_interval::Iv;
use geom_inverse::Row;
use raim_model::Verdict;
use slope_laws::Shift;
use slope_test::{Marks, detect};

/// What the test for detection makes of the rows.
pub(crate) fn detected(shift: Shift, rows: &[Row], kappa: Iv) -> Verdict
    requires { length rows.now ≤ 32 }
{
    let mut known = Marks::none();
    detect(shift, rows, kappa, &mut known)
}

/// What the test for exclusion makes of the rows.
pub(crate) fn excluded(shift: Shift, rows: &[Row], kappa: Iv, kappa_less: Iv) -> Verdict
    requires { length rows.now ≤ 32 }
{
    let mut slopes = Marks::none();
    let mut lists = Marks::none();
    exclude(shift, rows, kappa, kappa_less, &mut slopes, &mut lists)
}

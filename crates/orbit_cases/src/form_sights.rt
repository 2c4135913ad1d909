// Looks at satellites in forms, as an independent evaluation of the definitions in whole numbers of any size has them
// (`oracle/table_of_form_sights.py`).

ghost use Rattle.std.specs.Prelude.{◌^◌, IfSome};
ghost use Rattle.fix_interval.specs.Intervals.{IsWithin};
ghost use Rattle.angle_forms.specs.Vectors.{vector_form, IsVectorWithin};
ghost use Rattle.site_forms.specs.Frames.{frame_form, IsFrameWithin};

use crate::form_tables::{form_of, number, say};
use fix_interval::Iv;
use sight_forms::{TimeSight, look};
use site_forms::{TimeFrame, TimePlace, frame};
use std::str::SplitWhitespace;
use time_forms::TimeForm;

/// The interval of two words, where it is one of numbers of at most 2.
fn interval(words: &mut SplitWhitespace) -> Option<Iv>
    ensures { IfSome result (λ a. IsWithin a (2 ^ 39)) }
{
    let lo = number(words)?;
    let hi = number(words)?;
    if -549755813888 <= lo && lo <= hi && hi <= 549755813888 {
        Some(Iv {
            lo: lo as i128,
            hi: hi as i128,
        })
    } else {
        None
    }
}

/// The receiver's frame at the place of nine words.
fn frame_of(words: &mut SplitWhitespace) -> Option<TimeFrame>
    ensures { IfSome result (λ f. IsFrameWithin (frame_form f) (2 ^ 58)) }
{
    let lat = form_of(words)?;
    let lon = form_of(words)?;
    let height = form_of(words)?;
    frame(&TimePlace { lat, lon, height })
}

/// The satellite's place of nine words.
fn satellite_of(words: &mut SplitWhitespace) -> Option<[TimeForm; 3]>
    ensures { IfSome result (λ p. IsVectorWithin (vector_form p) (2 ^ 59)) }
{
    let x = form_of(words)?;
    let y = form_of(words)?;
    let z = form_of(words)?;
    Some([x, y, z])
}

/// What is told of the look that the first words ask for.
fn look_of(words: &mut SplitWhitespace) -> Option<TimeSight> {
    let frame = frame_of(words)?;
    let satellite = satellite_of(words)?;
    let mask = interval(words)?;
    let weight = interval(words)?;
    Some(look(&frame, &satellite, mask, weight))
}

/// Whether the look of a line has the answer that the line says.
fn is_right(line: &str) -> Option<bool> {
    let mut words = line.split_whitespace();
    let sight = look_of(&mut words)?;
    let word = words.next()?;
    Some(match sight {
        TimeSight::Visible(row) => {
            word == "Visible" && say(&mut words, &[row.e, row.n, row.u, row.k])
        }
        TimeSight::Hidden => word == "Hidden",
        TimeSight::Unsure => word == "Unsure",
    })
}

#[test]
fn looks_in_forms_are_as_the_table_says(rt: HostRuntime) {
    let mut lines: usize = 0;
    for line in TABLE.lines() {
        lines = lines.wrapping_add(1);
        assert_eq!(rt; is_right(line), Some(true), "{line}");
    }
    assert_eq!(rt; lines, 20);
}

/// The forms of latitude, longitude and height, those of the satellite's place, the ends of the mask's sine and of the weight, and
/// the answer.
const TABLE: &str = "\
0 0 0 0 0 0 0 0 0 7300757183360 0 300 0 0 300 0 0 300 23957188262 23957188264 274877906944 274877906944 Visible 0 0 370 0 0 373 274877906941 0 906 274877906944 0 0
0 0 0 0 0 0 0 0 0 1649267436000 0 300 6871947650000 0 300 0 0 300 23957188262 23957188264 274877906944 274877906944 Hidden
0 0 0 0 0 0 0 0 0 1649267436000 0 300 6871947650000 0 300 0 0 300 -23957188264 -23957188262 274877906944 274877906944 Visible 274846469029 0 436 0 0 96 -4157185011 0 433 274877906944 0 0
0 0 0 0 0 0 0 0 0 -7300757183360 0 300 0 0 300 0 0 300 23957188262 23957188264 274877906944 274877906944 Hidden
0 0 0 0 0 0 0 0 0 -7300757183360 0 300 0 0 300 0 0 300 -274877906944 -274877906944 274877906944 274877906944 Unsure
0 0 0 0 0 0 0 0 0 1753208948762 0 300 6871947650000 0 300 0 0 300 0 0 274877906944 274877906944 Unsure
0 0 0 0 0 0 0 0 0 1896657551400 0 300 0 0 300 0 0 300 23957188262 23957188264 274877906944 274877906944 Hidden
0 0 0 0 0 0 0 0 0 2028086855706 0 0 0 0 0 0 0 0 23957188262 23957188264 274877906944 274877906944 Unsure
0 0 0 0 0 0 0 0 0 1753208948762 0 0 0 0 0 0 0 0 23957188262 23957188264 274877906944 274877906944 Unsure
36650387568 12345 3 -55739131093 -23456 3 2748779060 100 4 549755812000 20000000 300 -5772436026000 -7000000 300 4398046496000 9000000 300 23957188262 23957188264 183251937962 183251937964 Visible -38095968917 738396 390 -41737973795 -102647 738 174321288035 136791 843 183251937963 0 1
36650387568 12345 3 -55739131093 -23456 3 2748779060 100 4 -2473901154000 -4000000 300 -4123168590000 900000 300 5497558120000 123456 300 23957188262 23957188264 0 0 Visible 0 0 4 0 0 4 0 0 4 0 0 0
36650387568 12345 3 -55739131093 -23456 3 2748779060 100 4 2473901154000 3000000000 300 4123168590000 700000000 300 -5497558120000 -900000000 300 23957188262 23957188264 274877906944 274877906944 Hidden
36650387568 12345 3 -55739131093 -23456 3 2748779060 100 4 549755812000 20000000 300 -5772436026000 -7000000 300 4398046496000 9000000 300 0 274877906944 274877906944 274877906944 Unsure
0 0 0 0 0 0 0 0 0 2354329264890 -137438953000 300 6871947650000 0 300 0 0 300 23957188262 23957188264 274877906944 274877906944 Unsure
36650387568 12345 3 -55739131093 -23456 3 2748779060 100 4 3848290684000 3000000000 300 2199023248000 700000000 300 5772436026000 -900000000 300 23957188262 23957188264 274877906944 274877906944 Visible 180487985111 91601980 33831 191841488628 -70563847 30958 78605249339 -38114271 15152 274877906944 0 0
68719476736 0 1 274877906944 0 1 -274877906 0 1 3298534872000 1073741824 300 274877906000 -536870912 300 6597069744000 12345 300 23957188262 23957188264 7 12 Visible 0 -1 4 -6 -1 5 7 -1 6 9 0 3
-22906492230 12725829 7 152709948200 -12725830 7 824633718 274877906 9 -6597069744000 17179869184 100000 -2473901154000 8589934592 100000 -1924145342000 -17179869184 100000 23957188262 23957188264 274877906944 274877906944 Visible 3341328330 2325515 211269 90467623972 -1037171898 4072319 259540760796 361485130 3829524 274877906944 0 0
0 0 0 0 0 0 0 0 0 288230376151711744 0 0 0 0 0 0 0 0 23957188262 23957188264 274877906944 274877906944 Visible 0 0 272 0 0 276 274877906941 0 538 274877906944 0 0
0 0 0 0 0 0 0 0 0 288230376151711744 288230376151711744 288230376151711744 288230376151711744 288230376151711744 288230376151711744 288230376151711744 288230376151711744 288230376151711744 23957188262 23957188264 274877906944 274877906944 Unsure
0 0 0 0 0 0 0 0 0 7300000000000 72057594037927936 0 0 0 0 0 0 0 23957188262 23957188264 274877906944 274877906944 Unsure";

// A table of sums, products, multiples, roots and quotients of time forms, and what each call answers, worked out in exact
// arithmetic.

ghost use Rattle.std.specs.Prelude.{◌^◌, IsTrue};
ghost use Rattle.time_forms.specs.Programs.{form, IsNumberWithin, IsFormWithin};

use time_forms::{TimeForm, WideForm, add, div, mul, multiple, sqrt, sub, wide_product};

#[derive(Clone, Copy, Debug, PartialEq)]
enum Answer {
    Numbers(i128, i128, i128),
    NoForm,
    /// The condition of the call does not hold.
    NotAsked,
}

fn of(a: TimeForm) -> Answer {
    Answer::Numbers(a.centre as i128, a.turning as i128, a.remainder as i128)
}

fn of_wide(a: WideForm) -> Answer {
    Answer::Numbers(a.centre, a.turning, a.remainder)
}

fn of_some(a: Option<TimeForm>) -> Answer {
    match a {
        Some(a) => of(a),
        None => Answer::NoForm,
    }
}

fn form_of(centre: &str, turning: &str, remainder: &str) -> Option<TimeForm> {
    let centre = centre.parse::<i64>().ok()?;
    let turning = turning.parse::<i64>().ok()?;
    let remainder = remainder.parse::<i64>().ok()?;
    Some(TimeForm {
        centre,
        turning,
        remainder,
    })
}

fn wide_of(centre: &str, turning: &str, remainder: &str) -> Option<WideForm> {
    let centre = centre.parse::<i128>().ok()?;
    let turning = turning.parse::<i128>().ok()?;
    let remainder = remainder.parse::<i128>().ok()?;
    Some(WideForm {
        centre,
        turning,
        remainder,
    })
}

fn is_short_number(z: i64) -> bool
    ensures { IsTrue result → IsNumberWithin z (2 ^ 58) }
{
    -288230376151711744 <= z && z <= 288230376151711744
}

/// Whether a quotient takes the form.
fn is_short(a: TimeForm) -> bool
    ensures { IsTrue result → IsFormWithin (form a) (2 ^ 58) }
{
    is_short_number(a.centre) && is_short_number(a.turning) && is_short_number(a.remainder)
}

fn is_factor_number(z: i64) -> bool
    ensures { IsTrue result → IsNumberWithin z (2 ^ 60) }
{
    -1152921504606846976 <= z && z <= 1152921504606846976
}

/// Whether a product takes it.
fn is_factor(a: TimeForm) -> bool
    ensures { IsTrue result → IsFormWithin (form a) (2 ^ 60) }
{
    is_factor_number(a.centre) && is_factor_number(a.turning) && is_factor_number(a.remainder)
}

fn is_part_number(z: i64) -> bool
    ensures { IsTrue result → IsNumberWithin z (2 ^ 61) }
{
    -2305843009213693952 <= z && z <= 2305843009213693952
}

/// Whether a sum takes it.
fn is_part(a: TimeForm) -> bool
    ensures { IsTrue result → IsFormWithin (form a) (2 ^ 61) }
{
    is_part_number(a.centre) && is_part_number(a.turning) && is_part_number(a.remainder)
}

fn is_wide_within(z: i128) -> bool
    ensures { IsTrue result → IsNumberWithin z (2 ^ 122) }
{
    -5316911983139663491615228241121378304 <= z && z <= 5316911983139663491615228241121378304
}

fn answer_of_root(a: WideForm) -> Answer {
    if is_wide_within(a.centre) && is_wide_within(a.turning) && is_wide_within(a.remainder) {
        of_some(sqrt(a))
    } else {
        Answer::NotAsked
    }
}

fn answer_of_sum(op: &str, a: TimeForm, b: TimeForm) -> Answer {
    if is_part(a) && is_part(b) {
        match op {
            "Add" => of(add(a, b)),
            _ => of(sub(a, b)),
        }
    } else {
        Answer::NotAsked
    }
}

fn answer_of_product(op: &str, a: TimeForm, b: TimeForm) -> Answer {
    if is_factor(a) && is_factor(b) {
        match op {
            "WideProduct" => of_wide(wide_product(a, b)),
            _ => of_some(mul(a, b)),
        }
    } else {
        Answer::NotAsked
    }
}

fn answer_of_multiple(a: TimeForm, k: i64) -> Answer {
    if is_factor(a) && is_factor_number(k) {
        of_wide(multiple(a, k))
    } else {
        Answer::NotAsked
    }
}

fn answer_of_quotient(a: TimeForm, b: TimeForm) -> Answer {
    if is_short(a) && is_short(b) {
        of_some(div(a, b))
    } else {
        Answer::NotAsked
    }
}

fn answer_of(op: &str, a: TimeForm, b: TimeForm) -> Answer {
    match op {
        "Add" | "Sub" => answer_of_sum(op, a, b),
        "WideProduct" | "Mul" => answer_of_product(op, a, b),
        "Multiple" => answer_of_multiple(a, b.centre),
        "Div" => answer_of_quotient(a, b),
        _ => Answer::NotAsked,
    }
}

/// What the call of a line of the table answers, and what the line says.
fn answers(line: &str) -> Option<(Answer, Answer)> {
    let mut words = line.split_whitespace();
    let op = words.next()?;
    let (centre, turning, remainder) = (words.next()?, words.next()?, words.next()?);
    let other = form_of(words.next()?, words.next()?, words.next()?)?;
    let answer = match op {
        "Sqrt" => answer_of_root(wide_of(centre, turning, remainder)?),
        _ => answer_of(op, form_of(centre, turning, remainder)?, other),
    };
    let said = match words.next()? {
        "none" => Answer::NoForm,
        centre => of_wide(wide_of(centre, words.next()?, words.next()?)?),
    };
    Some((answer, said))
}

#[test]
fn forms_answer_as_the_table_says(rt: HostRuntime) {
    let mut lines: usize = 0;
    for line in TABLE.lines() {
        lines = lines.wrapping_add(1);
        match answers(line) {
            Some((answer, said)) => assert_eq!(rt; answer, said, "{line}"),
            None => panic!(rt; "{line}"),
        }
    }
    assert_eq!(rt; lines, 13);
}

const TABLE: &str = "\
Add 1823451098765 -40123456789 2103 -274877906944 30098765 17 1548573191821 -40093358024 2120
Sub 1823451098765 -40123456789 2103 -274877906944 30098765 17 2098329005709 -40153555554 2120
WideProduct 1823451098765 -40123456789 2103 -274877906944 30098765 17 -501227025276508663206953 11083935447629066568041 604443060743368989
Mul 1823451098765 -40123456789 2103 -274877906944 30098765 17 -1823453295498 40323122257 2198955
WideProduct 3 -5 0 -2 7 1 -24 31 26
Mul 3 -5 0 -2 7 1 -1 0 4
WideProduct 144115188075855872 1 0 144115188075855872 0 1 20769187434139310514121985316880384 144115188075855872 144115188075855874
Mul 144115188075855872 1 0 144115188075855872 0 1 none
Multiple -274877906944 30098765 17 -86399999 0 0 23749450885083693056 -2600533265901235 1468799983
Sqrt 1813388729421943762059264 -1180591620717411303424 1125899906842624 0 0 0 1346621227154 -438353265 71795
Sqrt 75557863725914323419136 75557863725914323419136 0 0 0 0 none
Div -68719476736 17179869184 90 6871947673600 8589934592 40 -2748779070 690630741 864377
Div 1099511627776 0 1 5 5 0 none";

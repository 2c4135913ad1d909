// Matrices of time forms: what each call answers of a table of rows, worked out in exact arithmetic.
mod tables;

ghost use Rattle.std.specs.Prelude.{◌^◌, IfSome};
ghost use Rattle.time_forms.specs.Programs.{form, IsFormWithin};

use matrix_forms::{
    FormMatrix, FormRow, WideMatrix, det, horizontal, normal_matrix, row_up, rows_across, share,
    sums, sums_less, vertical,
};
use std::alloc::Global;
use std::process::Abort;
use std::test::Fail;
use tables::CASES;
use time_forms::{TimeForm, WideForm, in_64_bits};

type Numbers = (i64, i64, i64);

/// Rows, the place of the one that is left out, and the answers: the determinants with and without it, the rows of the adjugate to
/// the east, to the north and up, what that row has of each, and the two squares.
struct Case {
    rows: &'static [[Numbers; 4]],
    out: usize,
    answers: &'static [Option<Numbers>],
}

fn part(numbers: Numbers) -> Option<TimeForm>
    ensures { IfSome result (λ f. IsFormWithin (form f) (2 ^ 58)) }
{
    in_64_bits(WideForm {
        centre: numbers.0 as i128,
        turning: numbers.1 as i128,
        remainder: numbers.2 as i128,
    })
}

fn row(parts: [Numbers; 4]) -> Option<FormRow> {
    Some(FormRow {
        e: part(parts[0])?,
        n: part(parts[1])?,
        u: part(parts[2])?,
        k: part(parts[3])?,
    })
}

fn numbers(f: TimeForm) -> Numbers {
    (f.centre, f.turning, f.remainder)
}

fn of_row(r: Option<FormRow>) -> [Option<Numbers>; 4] {
    match r {
        Some(r) => [
            Some(numbers(r.e)),
            Some(numbers(r.n)),
            Some(numbers(r.u)),
            Some(numbers(r.k)),
        ],
        None => [None; 4],
    }
}

fn matrix(all: &WideMatrix) -> Option<FormMatrix> {
    normal_matrix(all)
}

/// The sums over the rows, and those without one of them.
fn both(rows: &[FormRow], out: usize) -> Option<(WideMatrix, WideMatrix)> {
    if out < rows.len() && rows.len() <= 32 {
        let all = sums(rows);
        Some((all, sums_less(&all, rows, out)))
    } else {
        None
    }
}

/// What a row has along an axis.
fn along(line: Option<FormRow>, row: &FormRow) -> Option<TimeForm>
    ensures { IfSome result (λ f. IsFormWithin (form f) (2 ^ 58)) }
{
    share(&line?, row)
}

fn across(east: Option<TimeForm>, north: Option<TimeForm>) -> Option<TimeForm>
    requires east_small { IfSome east (λ f. IsFormWithin (form f) (2 ^ 58)) }
    requires north_small { IfSome north (λ f. IsFormWithin (form f) (2 ^ 58)) }
{
    horizontal(east?, north?)
}

fn upward(up: Option<TimeForm>) -> Option<TimeForm>
    requires small { IfSome up (λ f. IsFormWithin (form f) (2 ^ 58)) }
{
    vertical(up?)
}

/// What is answered of the rows from their normal matrix and from that without the row.
fn answered(
    h: Option<FormMatrix>,
    less: Option<FormMatrix>,
    left: &FormRow,
) -> [Option<Numbers>; 19] {
    let (east, north) = match h {
        Some(h) => match rows_across(&h) {
            Some((east, north)) => (Some(east), Some(north)),
            None => (None, None),
        },
        None => (None, None),
    };
    let up = match h {
        Some(h) => row_up(&h),
        None => None,
    };
    let shares = (along(east, left), along(north, left), along(up, left));
    let [e0, e1, e2, e3] = of_row(east);
    let [n0, n1, n2, n3] = of_row(north);
    let [u0, u1, u2, u3] = of_row(up);
    let whole = match h {
        Some(h) => det(&h).map(numbers),
        None => None,
    };
    let part = match less {
        Some(h) => det(&h).map(numbers),
        None => None,
    };
    [
        whole,
        part,
        e0,
        e1,
        e2,
        e3,
        n0,
        n1,
        n2,
        n3,
        u0,
        u1,
        u2,
        u3,
        shares.0.map(numbers),
        shares.1.map(numbers),
        shares.2.map(numbers),
        across(shares.0, shares.1).map(numbers),
        upward(shares.2).map(numbers),
    ]
}

fn expect(rt: &impl Abort, alloc: Global, case: &Case) -> Result<(), Fail> {
    let mut rows = Vec::new(alloc);
    for parts in case.rows {
        match row(*parts) {
            Some(row) => rows.push(row)?,
            None => assert!(rt; false),
        }
    }
    let (Some((all, less)), Some(left)) = (both(&rows, case.out), rows.get(case.out)) else {
        assert!(rt; false);
        return Ok(());
    };
    let found = answered(matrix(&all), matrix(&less), left);
    assert_eq!(rt; found.as_slice(), case.answers);
    Ok(())
}

#[test]
fn matrices_of_forms_are_those_of_the_table(rt: HostRuntime) -> Result<(), Fail> {
    let alloc = rt.alloc();
    for case in CASES {
        expect(&rt, alloc, case)?;
    }
    Ok(())
}

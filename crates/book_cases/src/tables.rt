// What the two tables of a book hold, read by SQL.

use crate::running::{files, kept_anew};
use crate::texts::{ADD, RESCHEDULE};
use sqlite::{Alter, Connection, Row};
use std::alloc::Global;
use std::test::Fail;

const NOTICES: &str =
    "SELECT number, kind, target, prn, start_ms, end_ms FROM notice ORDER BY number";

const ENTRIES: &str = "SELECT number, prn, start_ms, end_ms FROM live ORDER BY number";

fn rows_of<S: Alter + Drop>(conn: &mut Connection<S>, sql: &str) -> Result<Vec<Row>, Fail> {
    match conn.query_all(sql, &[]) {
        Ok(rows) => Ok(rows),
        Err(_) => Err(Fail::from("no rows")),
    }
}

fn push_column(alloc: Global, text: &mut String, row: &Row, at: usize) -> Result<(), Fail> {
    let value: Option<i64> = match row.get(at) {
        Ok(value) => value,
        Err(_) => return Err(Fail::from("no whole number")),
    };
    match value {
        Some(value) => text.push_str(format!(in alloc; "{value} ")?.as_str())?,
        None => text.push_str("- ")?,
    }
    Ok(())
}

fn push_rows(alloc: Global, text: &mut String, rows: &[Row], width: usize) -> Result<(), Fail> {
    for row in rows {
        for at in 0..width {
            push_column(alloc, text, row, at)?;
        }
        text.push('\n')?;
    }
    Ok(())
}

/// Says the rows of both tables: first the notices, and behind a line `in effect` the entries.
pub(crate) fn push_tables<S: Alter + Drop>(
    alloc: Global,
    conn: &mut Connection<S>,
    text: &mut String,
) -> Result<(), Fail> {
    let notices = rows_of(conn, NOTICES)?;
    push_rows(alloc, text, &notices, 6)?;
    text.push_str("in effect\n")?;
    let entries = rows_of(conn, ENTRIES)?;
    push_rows(alloc, text, &entries, 4)
}

// Commands, each with what it says and what the tables hold after it. The times are `2024-10-27T00:00` to `00:04`, in
// milliseconds since the begin of 1980-01-06.
const STEPS: [(&str, &str, &str); 7] = [
    (
        "notice b add 1 5 B -",
        "0\n",
        "1 0 0 5 1414022400000 - \nin effect\n1 5 1414022400000 - \n",
    ),
    (
        "notice b add 3 32 C D",
        "0\n",
        "1 0 0 5 1414022400000 - \n3 0 0 32 1414022460000 1414022520000 \nin effect\n1 5 1414022400000 - \n3 32 1414022460000 1414022520000 \n",
    ),
    (
        "notice b move 4 1 E F",
        "0\n",
        "1 0 0 5 1414022400000 - \n3 0 0 32 1414022460000 1414022520000 \n4 1 1 0 1414022580000 1414022640000 \nin effect\n1 5 1414022580000 1414022640000 \n3 32 1414022460000 1414022520000 \n",
    ),
    (
        "notice b cancel 5 3",
        "0\n",
        "1 0 0 5 1414022400000 - \n3 0 0 32 1414022460000 1414022520000 \n4 1 1 0 1414022580000 1414022640000 \n5 2 3 0 0 - \nin effect\n1 5 1414022580000 1414022640000 \n",
    ),
    (
        "notice b cancel 4 1",
        "2\nnotice: refused Old 5\n",
        "1 0 0 5 1414022400000 - \n3 0 0 32 1414022460000 1414022520000 \n4 1 1 0 1414022580000 1414022640000 \n5 2 3 0 0 - \nin effect\n1 5 1414022580000 1414022640000 \n",
    ),
    (
        "notice b cancel 6 1",
        "0\n",
        "1 0 0 5 1414022400000 - \n3 0 0 32 1414022460000 1414022520000 \n4 1 1 0 1414022580000 1414022640000 \n5 2 3 0 0 - \n6 2 1 0 0 - \nin effect\n",
    ),
    (
        "notice b file outages;notice b file route",
        "0\n0\n",
        "1 0 0 5 1414022400000 - \n3 0 0 32 1414022460000 1414022520000 \n4 1 1 0 1414022580000 1414022640000 \n5 2 3 0 0 - \n6 2 1 0 0 - \n2024061 0 0 5 1414022520000 1414022640000 \n2024062 1 2024061 0 1414022580000 - \nin effect\n2024061 5 1414022580000 - \n",
    ),
];

#[test]
fn tables_hold_what_was_accepted(rt: HostRuntime) -> Result<(), Fail> {
    let alloc = rt.alloc();
    let mut whole = String::new(alloc);
    let mut wanted = String::new(alloc);
    for (script, answer, tables) in STEPS {
        whole.push_str(script)?;
        whole.push_str(";database tables;")?;
        wanted.push_str(answer)?;
        wanted.push_str(tables)?;
    }
    let said = kept_anew(alloc, whole.as_str(), files(ADD, RESCHEDULE))?;
    assert_eq!(rt; said, wanted);
    Ok(())
}

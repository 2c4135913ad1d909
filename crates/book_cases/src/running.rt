// Scripts of commands on a book, over keepers in memory and databases, and what they say.
ghost use Rattle.std.specs.Prelude.{◌≡◌, IfSome};
ghost use Rattle.notice_book.specs.Gains.{IsKept};

use crate::calls::push_answer;
use crate::tables::push_tables;
use crate::texts::spelled;
use notice_book::{KeepFault, Keeper, MemKeeper};
use notice_command::nanu_run;
use notice_sqlite::SqliteKeeper;
use raim_base::{MemDesk, MemSink};
use sqlite::{Alter, Connection};
use std::alloc::Global;
use std::test::Fail;

/// What is around a book: the texts of the files `outages` and `route`, and which calls on the files, and which writes
/// of the output, sixteen bytes each, fail.
#[derive(Clone, Copy)]
pub(crate) struct Around<'a> {
    pub(crate) outages: &'a [u8],
    pub(crate) route: &'a [u8],
    pub(crate) reads: &'a [u64],
    pub(crate) writes: &'a [u64],
}

/// The files have these texts, and nothing fails.
pub(crate) fn files<'a>(outages: &'a str, route: &'a str) -> Around<'a> {
    Around {
        outages: outages.as_bytes(),
        route: route.as_bytes(),
        reads: &[],
        writes: &[],
    }
}

fn sink_of(alloc: Global, fails: &[u64], chunk: u8) -> Result<MemSink, Fail> {
    match MemSink::new(alloc, 20000, fails.to_vec(alloc)?, usize::from(chunk) + 1) {
        Ok(sink) => Ok(sink),
        Err(_) => Err(Fail::from("no memory")),
    }
}

fn desk_of(alloc: Global, around: Around) -> Result<MemDesk, Fail> {
    Ok(MemDesk::new(
        Vec::new(alloc),
        Vec::new(alloc),
        around.outages.to_vec(alloc)?,
        around.route.to_vec(alloc)?,
        around.reads.to_vec(alloc)?,
        4096,
    ))
}

fn words_of(alloc: Global, line: &str) -> Result<Vec<String>, Fail> {
    let mut words = Vec::new(alloc);
    for word in line.split(' ') {
        words.push(String::from_str(alloc, word)?)?;
    }
    Ok(words)
}

fn push_left(
    alloc: Global,
    said: &mut String,
    number: u8,
    out: &MemSink,
    note: &MemSink,
) -> Result<(), Fail> {
    said.push_str(format!(in alloc; "{number}\n")?.as_str())?;
    said.push_str(String::from_utf8_lossy(alloc, out.contents())?.as_str())?;
    said.push_str(String::from_utf8_lossy(alloc, note.contents())?.as_str())?;
    Ok(())
}

// Runs the words of a line, which single blanks part, and says its status, its output and its note.
fn run_line<Q: Keeper>(
    alloc: Global,
    keeper: &mut Q,
    line: &str,
    around: Around,
    said: &mut String,
) -> Result<(), Fail>
    requires { IfSome (Q.tables keeper.old) IsKept }
    ensures { IfSome (Q.tables keeper.new) IsKept }
{
    let words = words_of(alloc, line)?;
    let mut desk = desk_of(alloc, around)?;
    let mut out = sink_of(alloc, around.writes, 15)?;
    let mut note = sink_of(alloc, &[], 255)?;
    let status = nanu_run(alloc, &words, keeper, &mut desk, &mut out, &mut note);
    push_left(alloc, said, status.number(), &out, &note)
}

// Runs each line of a script.
fn run_lines<Q: Keeper>(
    alloc: Global,
    keeper: &mut Q,
    script: &str,
    around: Around,
) -> Result<String, Fail>
    requires { IfSome (Q.tables keeper.old) IsKept }
{
    let script = spelled(alloc, script)?;
    let mut said = String::new(alloc);
    'lines: for line in script.lines() {
        run_line(alloc, keeper, line, around, &mut said)?;
    }
    Ok(said)
}

/// What a script says over a keeper that tells its tables and fails at these calls: of each command the number of its
/// status, its output and its note.
pub(crate) fn told(
    alloc: Global,
    fails: &[u64],
    script: &str,
    around: Around,
) -> Result<String, Fail> {
    let mut keeper = MemKeeper::new(alloc, fails.to_vec(alloc)?);
    run_lines(alloc, &mut keeper, script, around)
}

/// The database of a keeper.
fn opened<S: Alter + Drop>(keeper: SqliteKeeper<S>) -> Result<Connection<S>, Fail> {
    match keeper.into_opened() {
        Ok(conn) => Ok(conn),
        Err(_) => Err(Fail::from("not opened")),
    }
}

// A line that is said to the database itself: `tables` says the rows of its two tables, `steps` how many steps a statement
// may take, and any other is a statement.
fn run_on_database<S: Alter + Drop>(
    alloc: Global,
    conn: &mut Connection<S>,
    line: &str,
    said: &mut String,
) -> Result<(), Fail> {
    if line == "tables" {
        return push_tables(alloc, conn, said);
    }
    if let Some(steps) = line.strip_prefix("steps ") {
        conn.set_step_limit(steps.parse::<u64>().ok());
        return Ok(());
    }
    match conn.execute_batch(line) {
        Ok(_) => Ok(()),
        Err(_) => Err(Fail::from("no such statement")),
    }
}

// A line of a script on a database: a command, a call of the keeper itself behind `keeper`, or what is said to the database
// behind `database`.
fn run_on<S: Alter + Drop>(
    alloc: Global,
    mut keeper: SqliteKeeper<S>,
    line: &str,
    around: Around,
    said: &mut String,
) -> Result<SqliteKeeper<S>, Fail> {
    if let Some(line) = line.strip_prefix("database ") {
        let mut conn = opened(keeper)?;
        run_on_database(alloc, &mut conn, line, said)?;
        return Ok(SqliteKeeper::adopt(alloc, Ok(conn)));
    }
    if let Some(call) = line.strip_prefix("keeper ") {
        push_answer(alloc, &mut keeper, call, said)?;
    } else {
        run_line(alloc, &mut keeper, line, around, said)?;
    }
    Ok(keeper)
}

/// Runs a script on what opening a database gave, and gives the keeper back.
pub(crate) fn run_script<S: Alter + Drop>(
    alloc: Global,
    opened: Result<Connection<S>, KeepFault>,
    script: &str,
    around: Around,
    said: &mut String,
) -> Result<SqliteKeeper<S>, Fail> {
    let script = spelled(alloc, script)?;
    let mut keeper = SqliteKeeper::adopt(alloc, opened);
    for line in script.lines() {
        if !line.is_empty() {
            keeper = run_on(alloc, keeper, line, around, said)?;
        }
    }
    Ok(keeper)
}

// What a script says over what opening a database gave.
fn said_over<S: Alter + Drop>(
    alloc: Global,
    opened: Result<Connection<S>, KeepFault>,
    script: &str,
    around: Around,
) -> Result<String, Fail> {
    let mut said = String::new(alloc);
    run_script(alloc, opened, script, around, &mut said)?;
    Ok(said)
}

/// What a script says over an empty database in memory, or over one that was not opened.
pub(crate) fn kept_in_memory(
    alloc: Global,
    fault: Option<KeepFault>,
    script: &str,
    around: Around,
) -> Result<String, Fail> {
    let opened = match fault {
        Some(fault) => Err(fault),
        None => match Connection::open_in_memory(alloc) {
            Ok(conn) => Ok(conn),
            Err(_) => return Err(Fail::from("no memory")),
        },
    };
    said_over(alloc, opened, script, around)
}

/// What a script says over an empty database in memory.
pub(crate) fn kept_anew(alloc: Global, script: &str, around: Around) -> Result<String, Fail> {
    kept_in_memory(alloc, None, script, around)
}

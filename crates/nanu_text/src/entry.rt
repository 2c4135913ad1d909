// What a line says after the lines before it.
ghost use Rattle.std.specs.Prelude.{◌≡◌, ◌<ℤ◌, true, IfOk, IfSome};
ghost use Rattle.gps_week.specs.GpsTime.{IsInstant};
ghost use Rattle.nanu_text.specs.Nanus.{typed_of, numbered_of, target_of, referred_of, placed_of, start_of, started_of, end_of, is_after, notice_said, ended_of, message_of, entry_of};
ghost use Rattle.nanu_text.specs.Stages.{IsTarget, IsStage, Fits};

use crate::stage::{Entry, Kind, Stage};
use crate::value::{
    is_the_word, read_kind, read_named, read_prn, read_seven, read_start, read_stop,
};
use notice_model::Notice;
use raim_model::TextWhy;
use text_lines::next_word;

const NONE: &[u8] = b"N/A";

fn read_typed(line: &[u8]) -> Result<Entry, TextWhy>
    ensures value { result ≡ typed_of line.now }
    ensures fits { IfOk result Fits }
{
    let value = read_named(b"nanutype", line)?;
    let kind = read_kind(value)?;
    Ok(Entry::Goes(Stage::Typed { kind }))
}

fn read_numbered(kind: Kind, line: &[u8]) -> Result<Entry, TextWhy>
    ensures value { result ≡ numbered_of kind line.now }
    ensures fits { IfOk result Fits }
{
    let value = read_named(b"nanunumber", line)?;
    let number = read_seven(value)?;
    Ok(Entry::Goes(Stage::Numbered { kind, number }))
}

// The number of the notice that a message is about: none for an Add, which is 0.
fn read_target(kind: Kind, value: &[u8]) -> Result<u32, TextWhy>
    ensures value { result ≡ target_of kind value.now }
    ensures target { IfOk result (IsTarget kind) }
{
    if kind != Kind::Add {
        return read_seven(value);
    }
    if !is_the_word(value, NONE) {
        return Err(TextWhy::Word);
    }
    Ok(0)
}

fn read_referred(kind: Kind, number: u32, line: &[u8]) -> Result<Entry, TextWhy>
    ensures value { result ≡ referred_of kind number line.now }
    ensures fits { IsStage (Stage.Numbered kind number) → IfOk result Fits }
{
    let value = read_named(b"reference", line)?;
    let target = read_target(kind, value)?;
    Ok(Entry::Goes(Stage::Referred {
        kind,
        number,
        target,
    }))
}

fn read_placed(kind: Kind, number: u32, target: u32, line: &[u8]) -> Result<Entry, TextWhy>
    ensures value { result ≡ placed_of kind number target line.now }
    ensures fits { IsStage (Stage.Referred kind number target) → IfOk result Fits }
{
    let value = read_named(b"prn", line)?;
    let prn = read_prn(value)?;
    Ok(Entry::Goes(Stage::Placed {
        kind,
        number,
        target,
        prn,
    }))
}

// The start: none for a Cancel, which is 0.
fn read_begin(kind: Kind, value: &[u8]) -> Result<i64, TextWhy>
    ensures value { result ≡ start_of kind value.now }
    ensures range { IfOk result (IsInstant 0) }
{
    if kind != Kind::Cancel {
        return read_start(value);
    }
    if !is_the_word(value, NONE) {
        return Err(TextWhy::Word);
    }
    Ok(0)
}

fn read_started(
    kind: Kind,
    number: u32,
    target: u32,
    prn: u8,
    line: &[u8],
) -> Result<Entry, TextWhy>
    ensures value { result ≡ started_of kind number target prn line.now }
    ensures fits { IsStage (Stage.Placed kind number target prn) → IfOk result Fits }
{
    let value = read_named(b"start", line)?;
    let start = read_begin(kind, value)?;
    Ok(Entry::Goes(Stage::Started {
        kind,
        number,
        target,
        prn,
        start,
    }))
}

fn after(start: i64, end: Option<i64>) -> bool
    ensures value { result ≡ is_after start end }
    ensures after { result ≡ true → IfSome end (λ e. start <ℤ e) }
{
    match end {
        Some(end) => start < end,
        None => true,
    }
}

// The end, after the start: none for a Cancel.
fn read_end(kind: Kind, start: i64, value: &[u8]) -> Result<Option<i64>, TextWhy>
    ensures value { result ≡ end_of kind start value.now }
    ensures range { IfOk result (λ end. IfSome end (IsInstant 0)) }
    ensures after { IfOk result (λ end. IfSome end (λ e. start <ℤ e)) }
{
    if kind == Kind::Cancel {
        if !is_the_word(value, NONE) {
            return Err(TextWhy::Word);
        }
        return Ok(None);
    }
    let end = read_stop(value)?;
    if !after(start, end) {
        return Err(TextWhy::EmptySpan);
    }
    Ok(end)
}

fn notice(kind: Kind, number: u32, target: u32, prn: u8, start: i64, end: Option<i64>) -> Notice
    ensures { result ≡ notice_said kind number target prn start end }
{
    match kind {
        Kind::Add => Notice::Add {
            number,
            prn,
            start,
            end,
        },
        Kind::Reschedule => Notice::Reschedule {
            number,
            target,
            start,
            end,
        },
        Kind::Cancel => Notice::Cancel { number, target },
    }
}

fn read_ended(
    kind: Kind,
    number: u32,
    target: u32,
    prn: u8,
    start: i64,
    line: &[u8],
) -> Result<Entry, TextWhy>
    ensures value { result ≡ ended_of kind number target prn start line.now }
    ensures fits { IsStage (Stage.Started kind number target prn start) → IfOk result Fits }
{
    let value = read_named(b"stop", line)?;
    let end = read_end(kind, start, value)?;
    Ok(Entry::Ends(notice(kind, number, target, prn, start, end)))
}

// What a line that is not blank says.
fn read_message(stage: Stage, line: &[u8]) -> Result<Entry, TextWhy>
    ensures value { result ≡ message_of stage line.now }
    ensures fits { IsStage stage → IfOk result Fits }
{
    match stage {
        Stage::Nothing | Stage::Between => read_typed(line),
        Stage::Typed { kind } => read_numbered(kind, line),
        Stage::Numbered { kind, number } => read_referred(kind, number, line),
        Stage::Referred {
            kind,
            number,
            target,
        } => read_placed(kind, number, target, line),
        Stage::Placed {
            kind,
            number,
            target,
            prn,
        } => read_started(kind, number, target, prn, line),
        Stage::Started {
            kind,
            number,
            target,
            prn,
            start,
        } => read_ended(kind, number, target, prn, start, line),
    }
}

// What a line says where the message has come so far, or the first test that refuses it.
pub(crate) fn read_entry(stage: Stage, line: &[u8]) -> Result<Entry, TextWhy>
    ensures value { result ≡ entry_of stage line.now }
    ensures fits { IsStage stage → IfOk result Fits }
{
    if next_word(line).is_none() {
        return Ok(Entry::Blank);
    }
    read_message(stage, line)
}

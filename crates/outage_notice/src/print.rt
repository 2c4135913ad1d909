// Outages as a text.
ghost use Rattle.std.specs.Prelude.{◌≡◌, ◌≤◌, ◌++◌, [], ◌∷◌, ℕ, List, All, IfOk, IfSome, OnOk};
ghost use Rattle.text_lines.specs.Lines.{lines_of};
ghost use Rattle.gps_week.specs.TimeText.{two_digits};
ghost use Rattle.gps_week.specs.GpsTime.{IsInstant, SpellsInstant};
ghost use Rattle.outage_notice.specs.Answers.{SayOutages};
ghost use Rattle.outage_notice.specs.Printing.{IsEndText, IsLineOf, ListsOutages, IsPrintable, AreReadable};
ghost use Rattle.outage_notice.specs.Appended.{Appended};

use gps_week::utc_text;
use raim_model::{OutOfMemory, Outage};
use std::alloc::{AllocError, Global};

fn push_prn(text: &mut Vec<u8>, prn: u8) -> Result<(), AllocError>
    requires { prn ≤ 32 }
    ensures { OnOk result (text.new.items ≡ text.old.items ++ two_digits prn) }
{
    text.push(b'0' + prn / 10)?;
    text.push(b'0' + prn % 10)?;
    Ok(())
}

fn push_time(text: &mut Vec<u8>, ms: i64, leap: u8) -> Result<(), AllocError>
    requires { IsInstant leap ms }
    ensures { OnOk result (Appended (λ more. SpellsInstant more leap ms) text.old.items text.new.items) }
{
    text.extend_from_slice(utc_text(ms, leap).as_str().as_bytes())
}

fn push_end(text: &mut Vec<u8>, end: Option<i64>, leap: u8) -> Result<(), AllocError>
    requires { IfSome end (IsInstant leap) }
    ensures { OnOk result (Appended (IsEndText leap end) text.old.items text.new.items) }
{
    match end {
        Some(end) => push_time(text, end, leap),
        None => {
            text.push(b'-')?;
            Ok(())
        }
    }
}

// One line, with its line feed.
fn push_line(text: &mut Vec<u8>, outage: &Outage, leap: u8) -> Result<(), AllocError>
    requires { IsPrintable leap outage.now }
    ensures { OnOk result (Appended (λ more. (line : List ℕ) × IsLineOf leap outage.now line × (more ≡ line ++ 10 ∷ [])) text.old.items text.new.items) }
{
    push_prn(text, outage.prn)?;
    text.push(b' ')?;
    push_time(text, outage.start, leap)?;
    text.push(b' ')?;
    push_end(text, outage.end, leap)?;
    text.push(b'\n')?;
    Ok(())
}

// What `print_outages` answers, as one fact.
fn lines(alloc: Global, list: &[Outage], leap: u8) -> Result<Vec<u8>, OutOfMemory>
    requires { All (IsPrintable leap) list.now }
    ensures { IfOk result (λ v. ListsOutages leap list.now v.items) }
{
    let mut text = Vec::new(alloc);
    for outage in list {
        let Ok(()) = push_line(&mut text, outage, leap) else {
            return Err(OutOfMemory);
        };
    }
    Ok(text)
}

/// The text of outages: a line `PRN START END` for each, with times of UTC, where GPS time is ahead of it
/// by `leap` seconds, a PRN of two digits, and an END of `-` for an outage without an end.
pub fn print_outages(alloc: Global, list: &[Outage], leap: u8) -> Result<Vec<u8>, OutOfMemory>
    requires { All (IsPrintable leap) list.now }
    ensures text { IfOk result (λ v. ListsOutages leap list.now v.items) }

    // So `read_outages` reads what is printed.
    ensures read { IfOk result (λ v. AreReadable list.now → SayOutages leap (lines_of v.items) list.now) }
{
    lines(alloc, list, leap)
}

// The calls of a book and of a keeper, each once where all is well, and the most outages that a database has.
ghost use Rattle.std.specs.Prelude.{◌≡◌, ◌≤◌};

use crate::running::{files, kept_anew};
use notice_book::{
    BookFault, BookStop, KeepFault, Keeper, Live, MemKeeper, Notice, apply, apply_all, outages_now,
};
use notice_model::UtcOutage;
use notice_sqlite::SqliteKeeper;
use sqlite::Alter;
use std::alloc::Global;
use std::test::Fail;

fn add(number: u32) -> Notice {
    Notice::Add {
        number,
        prn: 5,
        start: 0,
        end: None,
    }
}

// Accepts a list and then one notice, and answers what is in effect.
fn in_effect_after(
    alloc: Global,
    list: &[Notice; 3],
    more: &Notice,
) -> Result<Vec<UtcOutage>, BookStop> {
    let mut keeper = MemKeeper::new(alloc, Vec::new(alloc));
    apply_all(&mut keeper, list)?;
    match apply(&mut keeper, more) {
        Ok(()) => {}
        Err(why) => return Err(BookStop { at: 3, why }),
    }
    match outages_now(alloc, &mut keeper) {
        Ok(outages) => Ok(outages),
        Err(why) => Err(BookStop { at: 4, why }),
    }
}

#[test]
fn notices_are_accepted(rt: HostRuntime) -> Result<(), Fail> {
    let alloc = rt.alloc();
    let cancel = Notice::Cancel {
        number: 4,
        target: 1,
    };
    let outage = UtcOutage {
        prn: 5,
        start: 0,
        end: None,
    };
    let list = [add(1), add(3), cancel];
    match in_effect_after(alloc, &list, &add(9)) {
        Ok(outages) => assert_eq!(rt; outages.as_slice(), [outage, outage].as_slice()),
        Err(stop) => assert!(rt; false, "{stop:?}"),
    }
    match in_effect_after(alloc, &list, &add(4)) {
        Ok(_) => assert!(rt; false),
        Err(stop) => assert_eq!(rt; stop.why, BookFault::Old { last: 4 }),
    }
    Ok(())
}

// A number, or nothing behind a fault.
fn number_of(found: Result<Option<Live>, KeepFault>) -> Result<Option<u32>, KeepFault> {
    Ok(found?.map(|live| live.number))
}

// Commits an Add and the entry that it begins.
fn hold<S: Alter + Drop>(keeper: &mut SqliteKeeper<S>, number: u32) -> Result<(), KeepFault>
    requires { 1 ≤ number }
{
    let notice = Notice::Add {
        number,
        prn: 5,
        start: 0,
        end: None,
    };
    let live = Live {
        number,
        prn: 5,
        start: 0,
        end: None,
    };
    keeper.commit(&notice, &Some(live))
}

// What one of the calls of a keeper answers, in a word or a number.
fn answer_of<S: Alter + Drop>(
    alloc: Global,
    keeper: &mut SqliteKeeper<S>,
    name: &str,
    number: u32,
) -> Result<String, Fail> {
    let answer = match name {
        "start" => keeper.start("b").map(|()| None),
        "last" => keeper.last().map(|last| Some(last)),
        "count" => keeper.live_count().map(|count| Some(count)),
        "find" => number_of(keeper.find(number)),
        "next" => number_of(keeper.next(number)),
        _ if number > 0 => hold(keeper, number).map(|()| None),
        _ => Err(KeepFault::Failed),
    };
    match answer {
        Ok(Some(number)) => Ok(format!(in alloc; "{number}\n")?),
        Ok(None) if name == "find" || name == "next" => Ok(String::from_str(alloc, "none\n")?),
        Ok(None) => Ok(String::from_str(alloc, "ok\n")?),
        Err(_) => Ok(String::from_str(alloc, "failed\n")?),
    }
}

/// Says what a call of a keeper answers, whose name may have a number behind it.
pub(crate) fn push_answer<S: Alter + Drop>(
    alloc: Global,
    keeper: &mut SqliteKeeper<S>,
    call: &str,
    said: &mut String,
) -> Result<(), Fail> {
    let mut words = call.split(' ');
    let (Some(name), number) = (words.next(), words.next()) else {
        return Err(Fail::from("no call"));
    };
    let number = number
        .and_then(|word| word.parse::<u32>().ok())
        .unwrap_or(0);
    said.push_str(answer_of(alloc, keeper, name, number)?.as_str())?;
    Ok(())
}

// A number that was refused is not used up, and one that leaves makes room.
#[test]
fn a_database_has_256_outages(rt: HostRuntime) -> Result<(), Fail> {
    let alloc = rt.alloc();
    let mut script = String::new(alloc);
    let mut wanted = String::new(alloc);
    for number in 1u32..257 {
        script.push_str(format!(in alloc; "notice b add {number} 5 A -;")?.as_str())?;
        wanted.push_str("0\n")?;
    }
    script.push_str(
        "notice b add 257 5 A -;notice b cancel 257 9;notice b add 258 5 A -;notice b add 259 5 A -",
    )?;
    wanted.push_str("2\nnotice: refused Full\n0\n0\n2\nnotice: refused Full\n")?;
    let said = kept_anew(alloc, script.as_str(), files("", ""))?;
    assert_eq!(rt; said, wanted);
    Ok(())
}

#[test]
fn a_number_that_is_held_is_not_held_again(rt: HostRuntime) -> Result<(), Fail> {
    let script = "keeper start;keeper hold 3;keeper hold 3;keeper count";
    let said = kept_anew(rt.alloc(), script, files("", ""))?;
    assert_eq!(rt; said.as_str(), "ok\nok\nfailed\n1\n");
    Ok(())
}

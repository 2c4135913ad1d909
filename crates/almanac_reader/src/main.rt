//! Reads almanacs, for whoever has one to try, and for the benchmark: `almanac_reader yuma FILE` and
//! `almanac_reader sem FILE` print how many records the file has or why it is refused, and
//! `almanac_reader agree YUMA SEM ..` how many records the files of each pair have in common.
//!
//! The flight is the first second of GPS week 2338, or of week N behind the words `in N`.
#![tactic(auto)]

mod agreement;
mod form;

use agreement::agree;
use form::Form;
use raim_model::AlmRecord;
use std::{env, fs, io};
use text_lines::read_whole_number;

// 2024-10-27, as GPS counts.
const WEEK: u16 = 2338;

fn print_usage(rt: &HostRuntime) -> io::Result<()> {
    println!(rt; "almanac_reader [in WEEK] yuma FILE | sem FILE | agree YUMA SEM ..")
}

// The records of a file. Where it is refused that is printed, and there are none.
fn records(rt: &HostRuntime, form: Form, week: u16, path: &str) -> io::Result<Vec<AlmRecord>> {
    let text = fs::read(rt, path)?;
    match form.read(rt.alloc(), text.as_slice(), week) {
        Ok(records) => Ok(records),
        Err(refusal) => {
            println!(rt; "{}: {:?}", path, refusal)?;
            Ok(Vec::new(rt.alloc()))
        }
    }
}

fn print_count(rt: &HostRuntime, form: Form, week: u16, path: &str) -> io::Result<()> {
    let found = records(rt, form, week, path)?;
    println!(rt; "{}: {} records", path, found.len())
}

fn print_agreement(rt: &HostRuntime, week: u16, yuma: &str, sem: &str) -> io::Result<()> {
    let of_yuma = records(rt, Form::Yuma, week, yuma)?;
    let of_sem = records(rt, Form::Sem, week, sem)?;
    // An almanac that is read has a record, so two that are refused do not agree.
    let word = if !of_yuma.is_empty() && agree(of_yuma.as_slice(), of_sem.as_slice()) {
        "agree"
    } else {
        "differ"
    };
    println!(rt;
        "{} and {}: {} and {} records, which {}",
        yuma,
        sem,
        of_yuma.len(),
        of_sem.len(),
        word
    )
}

fn print_pairs(rt: &HostRuntime, week: u16, paths: &[String]) -> io::Result<()> {
    for pair in paths.chunks(2) {
        match pair {
            [yuma, sem] => print_agreement(rt, week, yuma.as_str(), sem.as_str())?,
            [alone] => println!(rt; "{}: no SEM file to hold it against", alone)?,
            _ => {}
        }
    }
    Ok(())
}

fn run(rt: &HostRuntime, week: u16, words: &[String]) -> io::Result<()> {
    let Some((command, paths)) = words.split_first() else {
        return print_usage(rt);
    };
    if command.as_str() == "agree" {
        return print_pairs(rt, week, paths);
    }
    match (Form::of(command.as_str()), paths.first()) {
        (Some(form), Some(path)) => print_count(rt, form, week, path.as_str()),
        _ => print_usage(rt),
    }
}

fn main(rt: HostRuntime) -> io::Result<()> {
    let mut words = env::args(&rt)?;
    words.next();
    let words: Vec<String> = words.collect(rt.alloc())?;
    match words.as_slice() {
        [first, week, words @ ..] if first.as_str() == "in" => match read_whole_number(
            week.as_bytes(),
        ) {
            Some(week) if week <= 9999 => run(&rt, week as u16, words),
            _ => print_usage(&rt),
        },
        words => run(&rt, WEEK, words),
    }
}

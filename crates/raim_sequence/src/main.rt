//! Commands of the programs `raim`, `raim_vert`, `raim_fleet` and `raim_chart`, a line each of the files that the words name, one
//! after another over the files of one folder. What a command writes stands on the output, and its note and the code of its
//! process behind it.
#![tactic(auto)]

use chart_run::run_chart_to_end;
use command_words::Program;
use fleet_run::run_fleet_to_end;
use raim_base::{FileDesk, StdSink};
use raim_run::run_program_to_end;
use std::process::ExitCode;
use std::{env, fs, io};

// The words of a line, which blanks part.
fn words_of(rt: &HostRuntime, line: &str) -> io::Result<Vec<String>> {
    let alloc = rt.alloc();
    let mut words = Vec::new(alloc);
    for word in line.split(' ') {
        if !word.is_empty() {
            words.push(String::from_str(alloc, word)?)?;
        }
    }
    Ok(words)
}

fn run_program(rt: &HostRuntime, program: Program, words: &[String]) -> io::Result<ExitCode> {
    let mut desk = FileDesk::new(rt.clone()?);
    let mut out = StdSink::new(rt.stdout());
    let mut note = StdSink::new(rt.stdout());
    Ok(run_program_to_end(program, rt.alloc(), words, &mut desk, &mut out, &mut note))
}

fn run_fleet(rt: &HostRuntime, words: &[String]) -> io::Result<ExitCode> {
    let mut desk = FileDesk::new(rt.clone()?);
    let mut out = StdSink::new(rt.stdout());
    let mut note = StdSink::new(rt.stdout());
    Ok(run_fleet_to_end(rt.alloc(), words, &mut desk, &mut out, &mut note))
}

fn run_chart(rt: &HostRuntime, words: &[String]) -> io::Result<ExitCode> {
    let mut desk = FileDesk::new(rt.clone()?);
    let mut out = StdSink::new(rt.stdout());
    let mut note = StdSink::new(rt.stdout());
    Ok(run_chart_to_end(rt.alloc(), words, &mut desk, &mut out, &mut note))
}

fn run_words(rt: &HostRuntime, words: &[String]) -> io::Result<ExitCode> {
    match words.first().map(|word| word.as_str()) {
        Some("raim_vert") => run_program(rt, Program::RaimVert, words),
        Some("raim_fleet") => run_fleet(rt, words),
        Some("raim_chart") => run_chart(rt, words),
        _ => run_program(rt, Program::Raim, words),
    }
}

// The number of an exit code, of those that the programs have.
fn number_of(code: ExitCode) -> u8 {
    for number in 0..=7 {
        if code == ExitCode::from(number) {
            return number;
        }
    }
    u8::MAX
}

fn run_line(rt: &HostRuntime, line: &str) -> io::Result<()> {
    let words = words_of(rt, line)?;
    let code = run_words(rt, &words)?;
    println!(rt; "status {}", number_of(code))
}

fn main(rt: HostRuntime) -> io::Result<()> {
    let mut words = env::args(&rt)?;
    words.next();
    for path in words {
        let commands = fs::read_to_string(&rt, path.as_str())?;
        for line in commands.lines() {
            run_line(&rt, line)?;
        }
    }
    Ok(())
}

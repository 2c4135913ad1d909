//! Commands of the program `notice`, a line each of the file under the program's word, one after another over the files of
//! one folder. What a command writes stands on the output, and its note and the code of its process behind it.
#![tactic(auto)]

use notice_process::run_words;
use raim_base::StdSink;
use std::{env, fs, io};

// The words of a line, which blanks part, with the program's name before them: of an empty line that name alone.
fn words_of(rt: &HostRuntime, line: &str) -> io::Result<Vec<String>> {
    let alloc = rt.alloc();
    let mut words = Vec::new(alloc);
    words.push(String::from_str(alloc, "notice")?)?;
    for word in line.split(' ') {
        if !word.is_empty() {
            words.push(String::from_str(alloc, word)?)?;
        }
    }
    Ok(words)
}

fn run_line(rt: &HostRuntime, line: &str) -> io::Result<()> {
    let words = words_of(rt, line)?;
    let mut out = StdSink::new(rt.stdout());
    let mut note = StdSink::new(rt.stdout());
    let status = run_words(rt.clone()?, &words, &mut out, &mut note);
    println!(rt; "status {}", status.number())
}

fn main(rt: HostRuntime) -> io::Result<()> {
    let mut words = env::args(&rt)?;
    words.next();
    for path in words {
        let commands = fs::read_to_string(&rt, path.as_str())?;
        for line in commands.lines() {
            run_line(&rt, line)?;
        }
    }
    Ok(())
}

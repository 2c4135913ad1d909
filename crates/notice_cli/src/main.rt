//! The program `notice`: what a process does with its words, its database, its files and its streams.
#![tactic(auto)]

use notice_process::run_process;
use std::process::ExitCode;

fn main(rt: HostRuntime) -> ExitCode {
    let output = rt.stdout();
    let error = rt.stderr();
    run_process(rt, output, error)
}

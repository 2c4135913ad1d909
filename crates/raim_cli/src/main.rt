//! The program `raim`: what a process does with its words, files and streams.
#![tactic(auto)]

use raim_run::run_process;
use std::process::ExitCode;

fn main(rt: HostRuntime) -> ExitCode {
    let output = rt.stdout();
    let error = rt.stderr();
    run_process(rt, output, error)
}

//! The program `raim_vert`: what a process does with its words, files and streams.
#![tactic(auto)]

use std::process::ExitCode;
use vert_run::run_vertical_process;

fn main(rt: HostRuntime) -> ExitCode {
    let output = rt.stdout();
    let error = rt.stderr();
    run_vertical_process(rt, output, error)
}

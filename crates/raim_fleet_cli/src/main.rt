//! The program `raim_fleet`: what a process does with its words, files and streams.
#![tactic(auto)]

use fleet_run::run_fleet_process;
use std::process::ExitCode;

fn main(rt: HostRuntime) -> ExitCode {
    let output = rt.stdout();
    let error = rt.stderr();
    run_fleet_process(rt, output, error)
}

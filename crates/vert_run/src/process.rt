// A process around the top call.

use command_words::Program;
use raim_run::run_program_process;
use std::io::Write;
use std::process::ExitCode;
use std::rt::{Env, Files};

/// All that `raim_vert` does: it runs its own words over the files of the system and its two streams, the report on
/// the output and the note on the error, and answers the code that it exits with.
pub fn run_vertical_process<R, O, E>(rt: R, output: O, error: E) -> ExitCode
where
    R: Env + AllocGlobal + Files + Drop,
    O: Write + Drop,
    E: Write + Drop,
{
    run_program_process(Program::RaimVert, rt, output, error)
}

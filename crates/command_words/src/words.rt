// From the words to what they ask for.
ghost use Rattle.std.specs.Prelude.{◌≡◌, map, option_map, IfOk};
ghost use Rattle.std.specs.String.{string_bytes};
ghost use Rattle.command_words.specs.Asked.{asked_by, asked_of};
ghost use Rattle.command_words.specs.Vertical.{asked_for};

use crate::demonstration::read_demonstration;
use crate::prediction::read_prediction;
use crate::vertical::read_vertical_request;
use crate::{Program, Request};
use std::alloc::{AllocError, Global};

/// Reads the words of a process, the program's name first: `raim predict LIMITS ALMANAC OUTAGES ROUTE`, or
/// `raim demo NUMBER` with a whole number from 0 to 4294967295.
///
/// The second word chooses the command. The words from the third on are read by `clap`, which takes a first word for
/// the program's, whatever it is. They ask for nothing where `clap` refuses them, also by its answer to a request for
/// help, or where the second word is missing or neither command. An `Err` comes for want of memory alone.
pub fn read_request<'a>(
    alloc: Global,
    words: &'a [String],
) -> Result<Option<Request<'a>>, AllocError>
    ensures { IfOk result (λ request. option_map asked_by request ≡ asked_of (map string_bytes words.entry.now)) }
{
    if words.len() < 2 {
        return Ok(None);
    }
    let rest = words.split_at(1).1;
    match words[1].as_str() {
        "predict" => read_prediction(alloc, rest),
        "demo" => read_demonstration(alloc, rest),
        _ => Ok(None),
    }
}

/// Reads the words of a program's process, as `read_request` and `read_vertical_request` do. An `Err` comes for want of memory alone.
pub fn read_words<'a>(
    program: Program,
    alloc: Global,
    words: &'a [String],
) -> Result<Option<Request<'a>>, AllocError>
    ensures { IfOk result (λ request. option_map asked_by request ≡ asked_for program (map string_bytes words.entry.now)) }
{
    match program {
        Program::Raim => read_request(alloc, words),
        Program::RaimVert => Ok(read_vertical_request(words)),
    }
}

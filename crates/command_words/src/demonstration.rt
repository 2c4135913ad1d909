// The words of a demonstration.
ghost use Rattle.std.specs.Prelude.{◌≡◌, ◌≢◌, [], map, option_map, codes, Some, IfOk, IfNone, IfSome};
ghost use Rattle.std.specs.String.{string_bytes};
ghost use Rattle.clap.specs.Words.{fault_of, first_value, found_of};
ghost use Rattle.command_words.specs.Asked.{asked_by, demonstration_of, number_written};
ghost use Rattle.command_words.specs.Commands.{demo_app};
ghost use Rattle.command_words.specs.Parsed.{IsNumber, IsDemo, AreMatched, HasNumber};

use crate::Request;
use clap::error::ErrorKind;
use clap::{Arg, ArgAction, ArgMatches, Command};
use std::alloc::{AllocError, Global};

fn required_number<'a>(alloc: Global) -> Arg<'a>
    ensures { IsNumber result }
{
    Arg::new(alloc, "number")
        .required(true)
        .action(ArgAction::Set)
        .value_parser(clap::value_parser!(u32))
}

// The command of one required whole number.
fn demo_command<'a>(alloc: Global) -> Result<Command<'a>, AllocError>
    ensures { IfOk result IsDemo }
{
    Command::new(alloc, "raim").arg(required_number(alloc))
}

// The matches of the words. There are none exactly where `clap` refuses the words.
fn demo_matches<'a>(
    alloc: Global,
    words: &'a [String],
) -> Result<Option<ArgMatches<'a>>, AllocError>
    ensures none { IfOk result (λ found. IfNone found (fault_of demo_app (map string_bytes words.entry.now) ≢ [])) }
    ensures some { IfOk result (λ found. IfSome found (λ matches. AreMatched demo_app (map string_bytes words.entry.now) matches × HasNumber matches)) }
{
    match demo_command(alloc)?.try_get_matches_from(words) {
        Ok(matches) => Ok(Some(matches)),
        Err(error) => match error.kind() {
            ErrorKind::OutOfMemory => Err(AllocError),
            _ => Ok(None),
        },
    }
}

// The number of the matches.
fn number_of(matches: &ArgMatches<'_>) -> u32
    requires { HasNumber matches.now }
    ensures { option_map number_written (first_value (found_of matches.now) (codes "number")) ≡ Some result }
{
    matches.get_one::<u32>("number").unwrap()
}

// The number, where the words, the first of which is any, are `NUMBER` for `clap`.
pub(crate) fn read_demonstration<'a>(
    alloc: Global,
    words: &'a [String],
) -> Result<Option<Request<'a>>, AllocError>
    ensures { IfOk result (λ request. option_map asked_by request ≡ demonstration_of (map string_bytes words.entry.now)) }
{
    let Some(matches) = demo_matches(alloc, words)? else {
        return Ok(None);
    };
    let number = number_of(&matches);
    Ok(Some(Request::Demo { number }))
}

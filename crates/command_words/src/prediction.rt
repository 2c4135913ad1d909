// The words of a prediction.
ghost use Rattle.std.specs.Prelude.{◌≡◌, ◌≢◌, [], map, option_map, IfOk, IfNone, IfSome};
ghost use Rattle.std.specs.String.{string_bytes};
ghost use Rattle.clap.specs.Words.{fault_of};
ghost use Rattle.command_words.specs.Asked.{asked_by, prediction_of};
ghost use Rattle.command_words.specs.Commands.{predict_app};
ghost use Rattle.command_words.specs.Parsed.{IsText, IsPredict, AreMatched, HasFour};

use crate::Request;
use clap::error::ErrorKind;
use clap::{Arg, ArgAction, ArgMatches, Command};
use std::alloc::{AllocError, Global};

fn required_text<'a>(alloc: Global, id: &'a str) -> Arg<'a>
    ensures { IsText id.entry result }
{
    Arg::new(alloc, id).required(true).action(ArgAction::Set)
}

// The command of four required texts.
fn predict_command<'a>(alloc: Global) -> Result<Command<'a>, AllocError>
    ensures { IfOk result IsPredict }
{
    Command::new(alloc, "raim")
        .arg(required_text(alloc, "limits"))?
        .arg(required_text(alloc, "almanac"))?
        .arg(required_text(alloc, "outages"))?
        .arg(required_text(alloc, "route"))
}

// The matches of the words. There are none exactly where `clap` refuses the words.
fn predict_matches<'a>(
    alloc: Global,
    words: &'a [String],
) -> Result<Option<ArgMatches<'a>>, AllocError>
    ensures none { IfOk result (λ found. IfNone found (fault_of predict_app (map string_bytes words.entry.now) ≢ [])) }
    ensures some { IfOk result (λ found. IfSome found (λ matches. AreMatched predict_app (map string_bytes words.entry.now) matches × HasFour matches)) }
{
    match predict_command(alloc)?.try_get_matches_from(words) {
        Ok(matches) => Ok(Some(matches)),
        Err(error) => match error.kind() {
            ErrorKind::OutOfMemory => Err(AllocError),
            _ => Ok(None),
        },
    }
}

// The four paths, where the words, the first of which is any, are `LIMITS ALMANAC OUTAGES ROUTE` for `clap`.
pub(crate) fn read_prediction<'a>(
    alloc: Global,
    words: &'a [String],
) -> Result<Option<Request<'a>>, AllocError>
    ensures { IfOk result (λ request. option_map asked_by request ≡ prediction_of (map string_bytes words.entry.now)) }
{
    let Some(matches) = predict_matches(alloc, words)? else {
        return Ok(None);
    };
    let limits = matches.get_str("limits").unwrap();
    let almanac = matches.get_str("almanac").unwrap();
    let outages = matches.get_str("outages").unwrap();
    let route = matches.get_str("route").unwrap();
    Ok(Some(Request::Predict {
        limits,
        almanac,
        outages,
        route,
    }))
}

// The words of a prediction of the vertical verdicts.
ghost use Rattle.std.specs.Prelude.{◌≡◌, map, option_map};
ghost use Rattle.std.specs.String.{string_bytes};
ghost use Rattle.command_words.specs.Asked.{asked_by};
ghost use Rattle.command_words.specs.Vertical.{limit_in, vertical_asked_of};

use crate::{Request, VerticalLimit};
use text_lines::read_whole_number;

fn read_limit(word: &str) -> Option<VerticalLimit>
    ensures { option_map (λ limit. limit.mm) result ≡ limit_in word.now }
{
    let mm = read_whole_number(word.as_bytes())?;
    if mm < 1 || 1_000_000_000 < mm {
        return None;
    }
    Some(VerticalLimit { mm: mm as u32 })
}

/// Reads the words of a process, the program's name first: `raim_vert LIMITS ALMANAC OUTAGES ROUTE VERTICAL`, with the
/// vertical alert limit in millimetres, a whole number from 1 to 1000000000.
///
/// They ask for nothing where there are not six words, or the last is no such number.
pub fn read_vertical_request<'a>(words: &'a [String]) -> Option<Request<'a>>
    ensures { option_map asked_by result ≡ vertical_asked_of (map string_bytes words.entry.now) }
{
    let [_, limits, almanac, outages, route, vertical] = words else {
        return None;
    };
    let vertical = read_limit(vertical.as_str())?;
    Some(Request::PredictUp {
        limits: limits.as_str(),
        almanac: almanac.as_str(),
        outages: outages.as_str(),
        route: route.as_str(),
        vertical,
    })
}

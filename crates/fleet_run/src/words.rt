// The words of the command line.
ghost use Rattle.std.specs.Prelude.{◌≡◌, map, option_map};
ghost use Rattle.std.specs.String.{string_bytes};
ghost use Rattle.flight_files.specs.Paths.{paths_of};
ghost use Rattle.fleet_run.specs.Words.{paths_in};

use flight_files::FlightPaths;

// The paths that five words name, the program's name first.
pub(crate) fn read_words(words: &[String]) -> Option<FlightPaths<'_>>
    ensures { option_map paths_of result ≡ paths_in (map string_bytes words.now) }
{
    let [_, limits, almanac, outages, routes] = words else {
        return None;
    };
    Some(FlightPaths {
        limits: limits.as_str(),
        almanac: almanac.as_str(),
        outages: outages.as_str(),
        route: routes.as_str(),
    })
}

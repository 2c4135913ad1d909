// The words of the command line.
ghost use Rattle.std.specs.Prelude.{◌≡◌, map, option_map};
ghost use Rattle.std.specs.String.{string_bytes};
ghost use Rattle.chart_run.specs.Words.{path_in};

// The path that two words name, the program's name first.
pub(crate) fn read_words(words: &[String]) -> Option<&str>
    ensures { option_map (λ path. path.now) result ≡ path_in (map string_bytes words.now) }
{
    let [_, report] = words else {
        return None;
    };
    Some(report.as_str())
}

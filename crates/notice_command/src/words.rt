// The words of a file of notices, and of all commands that make a book.
ghost use Rattle.std.specs.Prelude.{◌≡◌, ◌||◌, is_some, map, option_map};
ghost use Rattle.std.specs.String.{string_bytes};
ghost use Rattle.notice_book.specs.Commands.{command_of, is_add};
ghost use Rattle.notice_command.specs.FileWords.{file_of};

use notice_book::asks_to_add;

// The book and the file of the words `notice BOOK file PATH`.
pub(crate) fn read_file_words(words: &[String]) -> Option<(&str, &str)>
    ensures { option_map (λ p. (p.0.now, p.1.now)) result ≡ file_of (map string_bytes words.now) }
{
    let [_, book, verb, path] = words else {
        return None;
    };
    if verb.as_str() != "file" {
        return None;
    }
    Some((book.as_str(), path.as_str()))
}

/// Whether the words are those of a command that makes its book where there is none: `add` and `file`.
pub fn makes_book(words: &[String]) -> bool
    ensures { result ≡ (is_some (file_of (map string_bytes words.now)) || is_add (command_of (map string_bytes words.now))) }
{
    read_file_words(words).is_some() || asks_to_add(words)
}

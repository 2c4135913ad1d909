// The plain forms of the words, which always match.
ghost use Rattle.command_words.specs.Plain.{PlainPathsAreRead, PlainNumberIsRead};

/// Six words whose second is `predict` ask for the prediction from the last four, where none of these is empty or begins
/// with a hyphen; three words whose second is `demo` ask for the demonstration of the third, where this is decimal
/// digits alone and below 2^32.
pub fn plain_words_are_read()
    ensures predict { PlainPathsAreRead }
    ensures demo { PlainNumberIsRead }
{}

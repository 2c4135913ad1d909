// The words for a file, and for why its text is refused.
ghost use Rattle.std.specs.Prelude.{◌≡◌, ◌≤◌, ◌+◌, ◌++◌, length, decimal};
ghost use Rattle.arrayvec.specs.ArrayString.{array_string_len};
ghost use Rattle.raim_base.specs.CauseWords.{file_name, why_name, why_text};

use arrayvec::ArrayString;
use itoa::Buffer;
use raim_model::{FileNo, TextWhy};

// The words for a cause; the longest have 34 bytes.
type Words = ArrayString<128>;

/// The word for a file.
pub fn name_of_file(file: FileNo) -> &'static str
    ensures name { result.now ≡ file_name file }
    ensures short { length result.now ≤ 8 }
{
    match file {
        FileNo::Limits => "limits",
        FileNo::Almanac => "almanac",
        FileNo::Outages => "outages",
        FileNo::Route => "route",
    }
}

fn name_of_why(why: TextWhy) -> &'static str
    ensures name { result.now ≡ why_name why }
    ensures short { length result.now ≤ 16 }
{
    match why {
        TextWhy::Label => "Label",
        TextWhy::Word => "Word",
        TextWhy::Number => "Number",
        TextWhy::Time => "Time",
        TextWhy::Range => "Range",
        TextWhy::Twice => "Twice",
        TextWhy::PrnTwice => "PrnTwice",
        TextWhy::Missing => "Missing",
        TextWhy::BiasGap => "BiasGap",
        TextWhy::EmptySpan => "EmptySpan",
        TextWhy::NotRising => "NotRising",
        TextWhy::TooFew => "TooFew",
        TextWhy::TooMany => "TooMany",
        TextWhy::TooLong => "TooLong",
        TextWhy::Short => "Short",
        TextWhy::FileTooLong => "FileTooLong",
        TextWhy::CountDiffers { .. } => "CountDiffers",
    }
}

fn push_number(words: &mut Words, number: u32)
    requires { array_string_len words.old ≤ 80 }
    ensures bytes { words.new.bytes ≡ words.old.bytes ++ decimal number }
    ensures len { array_string_len words.new ≤ array_string_len words.old + 40 }
{
    let mut buffer = Buffer::new();
    words.push_str(buffer.format(number));
}

/// The words for why a text is refused: the cause's name, and its numbers where it has some.
pub fn words_of_why(why: TextWhy) -> ArrayString<128>
    ensures text { result.bytes ≡ why_text why }
    ensures short { array_string_len result ≤ 98 }
{
    let mut words = Words::new();
    words.push_str(name_of_why(why));
    if let TextWhy::CountDiffers { said, found } = why {
        words.push_str(" ");
        push_number(&mut words, said);
        words.push_str(" ");
        push_number(&mut words, found);
    }
    words
}

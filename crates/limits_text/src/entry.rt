// What one line says.
ghost use Rattle.std.specs.Prelude.{◌≡◌, ◌==◌, ◌≤◌, IfOk};
ghost use Rattle.std.specs.List.{list_any};
ghost use Rattle.raim_model.specs.Decimal.{IsCanonical};
ghost use Rattle.raim_model.specs.Ranges.{IsLength};
ghost use Rattle.text_lines.specs.Words.{words_of};
ghost use Rattle.limits_text.specs.Limits as limits;
ghost use Rattle.limits_text.specs.Drafts.{said_by, Fits, IsShare, WeighsNew};

use crate::draft::Draft;
use dec_text::{is_at_most, read_dec_between, read_dec_value};
use raim_model::{Dec, TextWhy, Weight};
use text_lines::{check_in, next_word, only_word, read_whole, read_whole_in, two_words};

// In millimetres.
const LONGEST: u64 = 1_000_000_000;

// What a line says.
#[derive(Clone, Copy, Debug, PartialEq, Eq)]
pub(crate) enum Entry {
    Blank,
    Leap(u8),
    Mask(Dec),
    // in millimetres
    Alert(u32),
    // whether a faulty satellite is to be excluded
    Mode(bool),
    // in millimetres, for the number of satellites that comes next
    Bias(u32),
    Weight(Weight),
}

impl Entry {
    pub(crate) fn is_blank(self) -> bool
        ensures { result ≡ limits.is_blank self }
    {
        match self {
            Entry::Blank => true,
            _ => false,
        }
    }
}

// A length in millimetres.
fn length(word: &[u8]) -> Result<u32, TextWhy>
    ensures value { result ≡ limits.length_of word.now }
    ensures length { IfOk result IsLength }
{
    let mm = read_whole_in(word, 1, LONGEST)?;
    Ok(mm as u32)
}

fn leap(draft: &Draft, words: &[u8]) -> Result<Entry, TextWhy>
    ensures value { result ≡ limits.leap_entry_of (said_by draft.now) (words_of words.now) }
    ensures fits { IfOk result (Fits (said_by draft.now)) }
{
    let Some(word) = only_word(words) else {
        return Err(TextWhy::Word);
    };
    if draft.leap.is_some() {
        return Err(TextWhy::Twice);
    }
    let seconds = read_whole_in(word, 0, 255)?;
    Ok(Entry::Leap(seconds as u8))
}

fn mask(draft: &Draft, words: &[u8]) -> Result<Entry, TextWhy>
    ensures value { result ≡ limits.mask_entry_of (said_by draft.now) (words_of words.now) }
    ensures fits { IfOk result (Fits (said_by draft.now)) }
{
    let Some(word) = only_word(words) else {
        return Err(TextWhy::Word);
    };
    if draft.mask.is_some() {
        return Err(TextWhy::Twice);
    }
    let elevation = read_dec_between(word, Dec::whole(true, 90), Dec::whole(false, 90))?;
    Ok(Entry::Mask(elevation))
}

// The limits of the presets after RTCA DO-229, or one in millimetres.
fn alert_limit(word: &[u8]) -> Result<u32, TextWhy>
    ensures value { result ≡ limits.alert_limit_of word.now }
    ensures length { IfOk result IsLength }
{
    if word == b"oceanic".as_slice() {
        return Ok(7_408_000);
    }
    if word == b"enroute".as_slice() {
        return Ok(3_704_000);
    }
    if word == b"terminal".as_slice() {
        return Ok(1_852_000);
    }
    if word == b"approach".as_slice() {
        return Ok(556_000);
    }
    length(word)
}

fn alert(draft: &Draft, words: &[u8]) -> Result<Entry, TextWhy>
    ensures value { result ≡ limits.alert_entry_of (said_by draft.now) (words_of words.now) }
    ensures fits { IfOk result (Fits (said_by draft.now)) }
{
    let Some(word) = only_word(words) else {
        return Err(TextWhy::Word);
    };
    if draft.alert.is_some() {
        return Err(TextWhy::Twice);
    }
    let mm = alert_limit(word)?;
    Ok(Entry::Alert(mm))
}

// Whether a mode excludes.
fn exclusion(word: &[u8]) -> Result<bool, TextWhy>
    ensures { result ≡ limits.exclusion_of word.now }
{
    if word == b"detect".as_slice() {
        return Ok(false);
    }
    if word == b"exclude".as_slice() {
        return Ok(true);
    }
    Err(TextWhy::Word)
}

fn mode(draft: &Draft, words: &[u8]) -> Result<Entry, TextWhy>
    ensures value { result ≡ limits.mode_entry_of (said_by draft.now) (words_of words.now) }
    ensures fits { IfOk result (Fits (said_by draft.now)) }
{
    let Some(word) = only_word(words) else {
        return Err(TextWhy::Word);
    };
    let exclude = exclusion(word)?;
    if draft.mode.is_some() {
        return Err(TextWhy::Twice);
    }
    Ok(Entry::Mode(exclude))
}

// Both are numbers before a range is tested.
fn bias(draft: &Draft, words: &[u8]) -> Result<Entry, TextWhy>
    ensures value { result ≡ limits.bias_entry_of (said_by draft.now) (words_of words.now) }
    ensures fits { IfOk result (Fits (said_by draft.now)) }
{
    let Some((satellites, mm)) = two_words(words) else {
        return Err(TextWhy::Word);
    };
    let satellites = read_whole(satellites)?;
    let mm = read_whole(mm)?;
    let satellites = check_in(satellites, 5, 32)?;
    let mm = check_in(mm, 1, LONGEST)?;
    if satellites as usize - 5 != draft.biases.len() {
        return Err(TextWhy::BiasGap);
    }
    Ok(Entry::Bias(mm as u32))
}

// A decimal above 0 and at most 1.
fn share(k: Dec) -> Result<Dec, TextWhy>
    requires { IsCanonical k }
    ensures value { result ≡ limits.share_of k }
    ensures range { IfOk result IsShare }
{
    if is_at_most(k, Dec::ZERO) {
        return Err(TextWhy::Range);
    }
    if !is_at_most(k, Dec::whole(false, 1)) {
        return Err(TextWhy::Range);
    }
    Ok(k)
}

fn has_prn(weights: &[Weight], prn: u8) -> bool
    ensures { result ≡ list_any (λ w. w.prn == prn) weights.now }
{
    weights.iter().any(|w| w.prn == prn)
}

// A weight of a satellite that has none yet.
fn new_weight(weights: &[Weight], prn: u8, k: Dec) -> Result<Entry, TextWhy>
    requires prn { (1 ≤ prn) × (prn ≤ 32) }
    requires share { IsShare k }
    ensures value { result ≡ limits.new_weight_entry_of weights.now prn k }
    ensures fits { IfOk result (WeighsNew weights.now) }
{
    if has_prn(weights, prn) {
        return Err(TextWhy::PrnTwice);
    }
    if weights.len() >= 32 {
        return Err(TextWhy::PrnTwice);
    }
    Ok(Entry::Weight(Weight { prn, k }))
}

// Both are numbers before a range is tested.
fn weight(draft: &Draft, words: &[u8]) -> Result<Entry, TextWhy>
    ensures value { result ≡ limits.weight_entry_of (said_by draft.now) (words_of words.now) }
    ensures fits { IfOk result (Fits (said_by draft.now)) }
{
    let Some((prn, k)) = two_words(words) else {
        return Err(TextWhy::Word);
    };
    let prn = read_whole(prn)?;
    let k = read_dec_value(k)?;
    let prn = check_in(prn, 1, 32)?;
    let k = share(k)?;
    new_weight(draft.weights.as_slice(), prn as u8, k)
}

// What a line says after those before it, or the first test that refuses it.
pub(crate) fn read_entry(draft: &Draft, line: &[u8]) -> Result<Entry, TextWhy>
    ensures value { result ≡ limits.entry_of (said_by draft.now) line.now }
    ensures fits { IfOk result (Fits (said_by draft.now)) }
{
    let Some((key, words)) = next_word(line) else {
        return Ok(Entry::Blank);
    };
    if key == b"leap".as_slice() {
        return leap(draft, words);
    }
    if key == b"mask".as_slice() {
        return mask(draft, words);
    }
    if key == b"alert".as_slice() {
        return alert(draft, words);
    }
    if key == b"mode".as_slice() {
        return mode(draft, words);
    }
    if key == b"bias".as_slice() {
        return bias(draft, words);
    }
    if key == b"weight".as_slice() {
        return weight(draft, words);
    }
    Err(TextWhy::Word)
}

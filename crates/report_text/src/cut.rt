// A text is cut at a mark.
ghost use Rattle.std.specs.Prelude.{◌≡◌, option_map};
ghost use Rattle.std.specs.List.{prefix_len};
ghost use Rattle.report_text.specs.ReportLines.{cut_at, word_at};
ghost use Rattle.report_text.specs.Marks.{is_other};

// How many bytes stand before the first `mark`.
fn len_before(text: &[u8], mark: u8) -> usize
    ensures { result ≡ prefix_len (is_other mark) text.now }
{
    text.iter().take_while(|b| **b != mark).count()
}

// What stands before the first byte `mark`, and what stands behind it.
pub(crate) fn cut(text: &[u8], mark: u8) -> Option<(&[u8], &[u8])>
    ensures { option_map (λ p. (p.0.now, p.1.now)) result ≡ cut_at mark text.now }
{
    let len = len_before(text, mark);
    let (front, back) = text.split_at(len);
    match back {
        [] => None,
        [_, rest @ ..] => Some((front, rest)),
    }
}

// A word that one space ends, and what stands behind that space.
pub(crate) fn word(text: &[u8]) -> Option<(&[u8], &[u8])>
    ensures { option_map (λ p. (p.0.now, p.1.now)) result ≡ word_at text.now }
{
    let (word, rest) = cut(text, b' ')?;
    if word.is_empty() {
        return None;
    }
    Some((word, rest))
}

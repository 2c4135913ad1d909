// A file of several routes.
ghost use Rattle.std.specs.Prelude.{◌≡◌, ◌≤◌, ◌<◌, [], ◌∷◌, ◌↔◌, take, drop, length, IfSome, IfNone, IsNone};
ghost use Rattle.report_text.specs.ReportLines.{pieces_of};
ghost use Rattle.alm_reader.specs.Almanacs.{is_separator};
ghost use Rattle.fleet_text.specs.Routes.{is_parting, routes_of, excess_line, most_routes};

use text_lines::{only_word, split_at_feed, without_carriage_return};

// The most `---` lines of a file.
const MOST_PARTINGS: u32 = 63;

fn separates(line: &[u8]) -> bool
    ensures { result ≡ is_separator line.now }
{
    only_word(line) == Some(b"---".as_slice())
}

// The first line of a text, with the line feed that ends it: how many bytes it has, and whether it is a `---` line.
fn first_piece(text: &[u8]) -> Option<(usize, bool)>
    ensures none { IsNone result ↔ (text.now ≡ []) }
    ensures some { IfSome result (λ found. (0 < found.0) × (found.0 ≤ length text.now)) }
    ensures piece { IfSome result (λ found. pieces_of text.now ≡ take found.0 text.now ∷ pieces_of (drop found.0 text.now)) }
    ensures parts { IfSome result (λ found. found.1 ≡ is_parting (take found.0 text.now)) }
{
    if text.is_empty() {
        return None;
    }
    match split_at_feed(text) {
        Some((line, rest)) => Some((
            text.len() - rest.len(),
            separates(without_carriage_return(line)),
        )),
        None => Some((text.len(), separates(text))),
    }
}

/// The first route of a file, and what stands behind the `---` line that ends it; nothing where none does.
pub fn split_route(text: &[u8]) -> (&[u8], Option<&[u8]>)
    ensures last { IfNone result.1 (routes_of text.now ≡ result.0.now ∷ []) }
    ensures first { IfSome result.1 (λ rest. routes_of text.now ≡ result.0.now ∷ routes_of rest.now) }
    ensures shorter { IfSome result.1 (λ rest. length rest.now < length text.now) }
{
    let mut end = 0;
    while let Some((len, parts)) = first_piece(&text[end..]) {
        if parts {
            return (&text[..end], Some(&text[end + len..]));
        }
        end += len;
    }
    (text, None)
}

/// The number of the line of a file that begins one route too many, its 64th `---` line; lines count from 1. Nothing
/// where the file has 64 routes at most.
pub fn excess_separator(text: &[u8]) -> Option<u32>
    ensures line { result ≡ excess_line text.now }
    ensures few { IfNone result (length (routes_of text.now) ≤ most_routes) }
{
    let mut rest = text;
    let mut number = 0u32;
    let mut partings = 0u32;
    while let Some((len, parts)) = first_piece(rest) {
        number = number.saturating_add(1);
        if parts {
            if partings == MOST_PARTINGS {
                return Some(number);
            }
            partings += 1;
        }
        rest = &rest[len..];
    }
    None
}

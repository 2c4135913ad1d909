// How texts begin.
ghost use Rattle.std.specs.Prelude.{◌≡◌, ◌≢◌, ◌++◌, ℕ, List, MatchOption};
ghost use Rattle.fleet_text.specs.Fleet.{head_of};
ghost use Rattle.chart_text.specs.Blocks.{is_head, is_reason};

use itoa::Buffer;

// Whether a line begins a block.
pub(crate) fn is_head(line: &[u8]) -> bool
    ensures { result ≡ is_head line.now }
{
    line.starts_with(b"route ")
}

// Whether a line says why there is no report.
pub(crate) fn is_reason(line: &[u8]) -> bool
    ensures { result ≡ is_reason line.now }
{
    line.starts_with(b"refused ")
        || line.starts_with(b"overflow at ")
        || line.starts_with(b"more than ")
}

// What stands behind these bytes, where a text begins with them.
fn behind<'a>(text: &'a [u8], front: &[u8]) -> Option<&'a [u8]>
    ensures { MatchOption result ((rest : List ℕ) → text.now ≢ front.now ++ rest) (λ rest. text.now ≡ front.now ++ rest.now) }
{
    text.strip_prefix(front)
}

// What stands behind the head of the block of that number, where a text begins with it.
pub(crate) fn behind_head(text: &[u8], number: usize) -> Option<&[u8]>
    ensures cases { MatchOption result ((tail : List ℕ) → text.now ≢ head_of number ++ tail) (λ tail. text.now ≡ head_of number ++ tail.now) }
{
    let mut buffer = Buffer::new();
    let Some(numbered) = behind(text, b"route ") else {
        return None;
    };
    let Some(feed) = behind(numbered, buffer.format(number).as_bytes()) else {
        return None;
    };
    let Some(tail) = behind(feed, b"\n") else {
        return None;
    };
    Some(tail)
}

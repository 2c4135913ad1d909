// A line of any bytes, as text of a page.
ghost use Rattle.std.specs.Prelude.{◌≡◌, ◌++◌, OnOk};
ghost use Rattle.report_chart.specs.Refused.{escaped_byte, reason_text};

use crate::push::push;
use std::alloc::AllocError;

fn push_escaped(text: &mut Vec<u8>, byte: u8) -> Result<(), AllocError>
    ensures { OnOk result (text.new.items ≡ text.old.items ++ escaped_byte byte) }
{
    match byte {
        b'&' => push(text, b"&amp;"),
        b'<' => push(text, b"&lt;"),
        b'>' => push(text, b"&gt;"),
        b'"' => push(text, b"&quot;"),
        b' '..=b'~' => push(text, &[byte]),
        _ => push(text, b"?"),
    }
}

// The paragraph of a line.
pub(crate) fn push_reason_line(text: &mut Vec<u8>, line: &[u8]) -> Result<(), AllocError>
    ensures { OnOk result (text.new.items ≡ text.old.items ++ reason_text line.now) }
{
    push(text, b"<p>")?;
    for byte in line {
        push_escaped(text, *byte)?;
    }
    push(text, b"\n")
}

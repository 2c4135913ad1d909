// Parts of a text, pushed at its end.
ghost use Rattle.std.specs.Prelude.{◌≡◌, ◌++◌, decimal, OnOk};

use itoa::Buffer;
use std::alloc::AllocError;

pub(crate) fn push(text: &mut Vec<u8>, part: &[u8]) -> Result<(), AllocError>
    ensures { OnOk result (text.new.items ≡ text.old.items ++ part.now) }
{
    text.extend_from_slice(part)
}

pub(crate) fn push_number(text: &mut Vec<u8>, number: u64) -> Result<(), AllocError>
    ensures { OnOk result (text.new.items ≡ text.old.items ++ decimal number) }
{
    text.extend_from_slice(Buffer::new().format(number).as_bytes())
}

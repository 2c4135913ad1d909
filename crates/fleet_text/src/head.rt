// The first line of a block.
ghost use Rattle.std.specs.Prelude.{◌≡◌, ◌++◌, OnOk};
ghost use Rattle.fleet_text.specs.Fleet.{head_of};

use itoa::Buffer;
use std::alloc::AllocError;

/// Writes the first line of the block of that number behind a text.
pub fn push_head(text: &mut Vec<u8>, number: u32) -> Result<(), AllocError>
    ensures { OnOk result (text.new.items ≡ text.old.items ++ head_of number) }
{
    let mut buffer = Buffer::new();
    text.extend_from_slice(b"route ")?;
    text.extend_from_slice(buffer.format(number).as_bytes())?;
    text.extend_from_slice(b"\n")?;
    Ok(())
}

//! Bytes put at a place of others.

ghost use Rattle.std.specs.Prelude.{◌≡◌, ◌≤◌, ◌<◌, ◌+◌, ◌-◌, ◌^◌, ◌++◌};
ghost use Rattle.std.specs.Prelude.{length, take, drop, replicate, OnOk, OnErr};
ghost use Rattle.world_traits.specs.Files.{put};

use std::alloc::AllocError;

/// Puts bytes at a place, in place. A gap before it reads as zeros. After an error all is as it was.
pub fn put_in(content: &mut Vec<u8>, at: usize, bytes: &[u8]) -> Result<(), AllocError>
    requires { at + length bytes.now < 2 ^ 64 }
    ensures done { OnOk result (content.new.items ≡ put at bytes.now content.old.items) }
    ensures failed { OnErr result (content.new.items ≡ content.old.items) }
{
    reach(content, at + bytes.len())?;
    write_over(content, at, bytes);
    Ok(())
}

// Makes a vector at least so long, with zeros behind what it held.
fn reach(content: &mut Vec<u8>, end: usize) -> Result<(), AllocError>
    ensures done { OnOk result (content.new.items
        ≡ content.old.items ++ replicate (end - length content.old.items) 0) }
    ensures failed { OnErr result (content.new.items ≡ content.old.items) }
{
    if content.len() < end {
        content.resize(end, 0)?;
    }
    Ok(())
}

// Writes bytes over those from a place on.
fn write_over(content: &mut [u8], at: usize, bytes: &[u8])
    requires { at + length bytes.now ≤ length content.old }
    ensures { content.new
        ≡ take at content.old ++ bytes.now ++ drop (at + length bytes.now) content.old }
{
    content[at..at + bytes.len()].copy_from_slice(bytes);
}

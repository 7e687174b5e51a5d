//! What of a script is still to come.

ghost use Rattle.std.specs.Prelude.{◌≡◌, ◌≤◌, ◌%◌, length, drop};
ghost use Rattle.world_mem.specs.Scripts.{rest_at};

use crate::Script;

/// What the piece at a place of a script still gives. At the script's end it is nothing.
pub(crate) fn rest_at(script: &[Script], place: u64) -> &[u8]
    ensures { result.now ≡ rest_at place script.now }
{
    let mut at = place;
    for piece in script {
        match piece {
            Script::Piece(bytes) => {
                if at < bytes.len() as u64 {
                    return behind(bytes, at);
                }
                at -= bytes.len() as u64;
            }
            Script::Endless(bytes) => return behind_rounds(bytes, at),
        }
    }
    &[]
}

// The bytes from a place on, where they come again and again.
fn behind_rounds(bytes: &[u8], at: u64) -> &[u8]
    ensures { result.now ≡ drop (at % length bytes.now) bytes.now }
{
    if bytes.is_empty() {
        return bytes;
    }
    behind(bytes, at % bytes.len() as u64)
}

// The bytes from a place on.
fn behind(bytes: &[u8], at: u64) -> &[u8]
    requires { at ≤ length bytes.now }
    ensures { result.now ≡ drop at bytes.now }
{
    &bytes[at as usize..]
}

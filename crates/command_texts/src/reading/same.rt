//! Parts that are compared.

ghost use Rattle.std.specs.Prelude.{◌≡◌, ◌↔◌, IsTrue};

use mail_base::Bytes;

/// Whether the parts are the same.
pub fn are_same(left: &[Bytes], right: &[Bytes]) -> bool
    ensures { IsTrue result ↔ (left.now ≡ right.now) }
{
    let mut lefts = left;
    let mut rights = right;
    while let Some((part, left_behind)) = lefts.split_first() {
        let Some((other, right_behind)) = rights.split_first() else {
            return false;
        };
        if part.as_slice() != other.as_slice() {
            return false;
        }
        lefts = left_behind;
        rights = right_behind;
    }
    rights.is_empty()
}

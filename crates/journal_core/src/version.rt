//! The versions of the journal's format.

ghost use Rattle.std.specs.Prelude.{◌≡◌, IfSome, IsNone};
ghost use Rattle.journal_core.specs.Sides.{magic_of};
ghost use Rattle.journal_core.specs.declared.version.Version.{Version as AnyVersion};

/// A version of the journal's format, told by the magic word in a side's header.
#[derive(Clone, Copy, Debug, PartialEq, Eq)]
pub enum Version {
    /// The first one, `ODMAILJ1`.
    First,
    /// The second one, `ODMAILJ2`.
    Second,
}

/// The version that is written. A side of another one is only read.
pub const WRITTEN: Version = Version::Second;

/// The magic word of the version that is written.
pub const MAGIC: [u8; 8] = MAGIC_2;

// The magic words of the two versions.
const MAGIC_1: [u8; 8] = *b"ODMAILJ1";

const MAGIC_2: [u8; 8] = *b"ODMAILJ2";

/// The version that these 8 bytes are the magic word of.
pub fn version_in(word: &[u8]) -> Option<Version>
    ensures some { IfSome result (λ version. word.now ≡ magic_of version) }
    ensures none { IsNone result → (version : AnyVersion) → word.now ≡ magic_of version → ⊥ }
{
    if word == MAGIC_1.as_slice() {
        return Some(Version::First);
    }
    if word == MAGIC_2.as_slice() {
        return Some(Version::Second);
    }
    None
}

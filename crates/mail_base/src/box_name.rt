//! Names of mailboxes (RFC 9051, section 5.1), as far as this client takes them.

ghost use Rattle.std.specs.Prelude.{◌≡◌, ◌<◌, ◌≤◌, ◌↔◌, ℕ, [], length, IsTrue, IsNone, IfSome, All, IsOk, IfOk, IsErrOf};
ghost use Rattle.std.specs.Cmp.{partial_equiv_from_equiv};
ghost use Rattle.std.specs.Cmp.Lexicographic.{nat_list_eq_equiv};
ghost use Rattle.std.specs.Str.{bytes_eq};
ghost use Rattle.mail_base.specs.BoxName.{IsNameByte, IsBoxText, IsBoxName, KeptAs, IsFirstBad};

use arrayvec::ArrayVec;
use std::marker::Model;
use thiserror::Error;

/// The bytes of the longest name.
pub const MAX_NAME: usize = 128;

/// Why a text is no name of a mailbox. A place is counted in bytes of the text, from 0.
#[derive(Clone, Copy, Debug, PartialEq, Eq, Drop, Error)]
pub enum NameFault {
    /// There are no bytes.
    #[error("a mailbox name is missing")]
    Empty,
    /// The name has more than 128 bytes.
    #[error("the mailbox name is too long")]
    TooLong { length: usize },
    /// The byte there isn't allowed in a name.
    #[error("a byte that no mailbox name may hold")]
    BadByte { at: usize },
}

/// The name of a mailbox: 1 to 128 bytes from 32 to 126 without `"`, `\`, `&`, `*` and `%` (this client's profile).
/// INBOX is kept in capitals, since its case doesn't count (RFC 9051, section 5.1). It holds no heap memory.
#[derive(Debug, Drop)]
pub struct BoxName {
    text: ArrayVec<u8, MAX_NAME>,
}

impl Model for BoxName {
    ghost use Rattle.std.specs.Prelude.{List, ℕ};
    ghost use Rattle.mail_base.specs.BoxName.{IsBoxName};

    ghost Value = { List ℕ };

    ghost view = { λ name. name.text.items };

    ghost invariant = { λ name. IsBoxName name.text.items };
}

// Whether a name may hold this byte.
fn is_name_byte(byte: u8) -> bool
    ensures { IsTrue result ↔ IsNameByte byte }
{
    matches!(byte, 32..=126) && !matches!(byte, b'"' | b'%' | b'&' | b'*' | b'\\')
}

// The place of the first byte that no name may hold.
fn first_bad(text: &[u8]) -> Option<usize>
    ensures none { IsNone result ↔ All IsNameByte text.now }
    ensures first { IfSome result (IsFirstBad text.now) }
{
    text.iter().position(|byte| !is_name_byte(*byte))
}

impl BoxName {
    /// The name that a text writes.
    ///
    /// Refuses, in this order: no bytes, more than 128 bytes, and the first byte that isn't allowed.
    pub fn new(text: &[u8]) -> Result<BoxName, NameFault>
        ensures value { IfOk result (KeptAs text.now) }
        ensures name { IsOk result ↔ IsBoxText text.now }
        ensures empty { IsErrOf result NameFault.Empty ↔ (text.now ≡ []) }
        ensures too_long { (n : ℕ) → IsErrOf result (NameFault.TooLong n) ↔ ((n ≡ length text.now) × (128 < n)) }
        ensures bad_byte { (at : ℕ) → IsErrOf result (NameFault.BadByte at) ↔ ((length text.now ≤ 128) × IsFirstBad text.now at) }
    {
        if text.is_empty() {
            return Err(NameFault::Empty);
        }
        if text.len() > MAX_NAME {
            return Err(NameFault::TooLong { length: text.len() });
        }
        if let Some(at) = first_bad(text) {
            return Err(NameFault::BadByte { at });
        }
        Ok(BoxName::kept(text))
    }

    // The name for a text that is one.
    fn kept(text: &[u8]) -> BoxName
        requires { IsBoxText text.now }
        ensures { KeptAs text.now result }
    {
        if text.eq_ignore_ascii_case(b"inbox") {
            BoxName::hold(b"INBOX")
        } else {
            BoxName::hold(text)
        }
    }

    // A name's bytes as a value.
    fn hold(name: &[u8]) -> BoxName
        requires { IsBoxName name.now }
        ensures { result ≡ name.now }
    {
        let mut text = ArrayVec::new();
        let _ = text.try_extend_from_slice(name);
        BoxName { text }
    }

    /// The name's bytes.
    pub fn as_bytes(&self) -> &[u8]
        ensures value { result.now ≡ self.now }
        ensures is_name { IsBoxName result.now }
    {
        &self.text
    }

    /// The same name once more. It takes no memory.
    pub fn copy(&self) -> BoxName
        ensures { result ≡ self.now }
    {
        BoxName::hold(self.as_bytes())
    }
}

/// Names are one where their bytes are; INBOX is kept in capitals, so its case doesn't count.
impl PartialEq for BoxName {
    ghost eq = { bytes_eq };

    ghost laws = { partial_equiv_from_equiv nat_list_eq_equiv };

    fn eq(&self, other: &BoxName) -> bool
        ensures value { result ≡ bytes_eq self.now other.now }
        ensures same { IsTrue result ↔ (self.now ≡ other.now) }
    {
        self.as_bytes() == other.as_bytes()
    }
}

impl Eq for BoxName {
    ghost laws = { nat_list_eq_equiv };
}

//! The key of a flag, by which flags are compared without ASCII case (RFC 9051, section 2.3.2).

ghost use Rattle.std.specs.Prelude.{◌≡◌, ◌↔◌, ◌<◌, ℕ, List, length, not, None, Some, OnOk, IfOk, IfErr, IfSome, IsTrue, unwrap_or};
ghost use Rattle.std.proofs.Common.{refl};
ghost use Rattle.std.specs.Cmp.{partial_equiv_from_equiv};
ghost use Rattle.std.specs.Cmp.Lexicographic.{slice_cmp, nat_list_cmp_total, nat_list_eq_equiv, texts_po, texts_ties};
ghost use Rattle.std.specs.List.{list_all, position};
ghost use Rattle.std.specs.Option.{option_copied};
ghost use Rattle.std.specs.Ordering.{nat_cmp, as_partial_cmp};
ghost use Rattle.std.specs.Str.{bytes_eq, str_eq_ignore_ascii_case};
ghost use Rattle.flag_set.specs.Flag.{is_atom_byte, is_flag, is_keyword, misfit, name_of, refusal, spelling, system_flag, asked_refusal};
ghost use Rattle.flag_set.specs.FlagKey.{IsKey, key_of, recent};

use crate::flag_fault::{FlagFault, MAX_FLAG};
use smallvec::SmallVec;
use std::alloc::{AllocError, Global};
use std::cmp::Ordering;
use std::marker::Model;

// The bytes of the longest key that takes no memory of its own: all system flags and nearly all keywords in use are shorter.
const SHORT: usize = 24;

/// The key of a flag: its text in lower case, at most `MAX_FLAG` bytes. One of up to 24 bytes lies in the value itself.
#[derive(Debug, Drop)]
pub struct FlagKey {
    bytes: SmallVec<u8, SHORT>,
}

impl Model for FlagKey {
    ghost Value = { List ℕ };

    ghost view = { λ key. key.bytes.items };

    ghost invariant = { λ key. IsKey key.bytes.items };
}

impl FlagKey {
    /// Reads one flag (RFC 9051, section 9, flag), with or without a backslash, and takes its key. Refuses a text of
    /// more than `MAX_FLAG` bytes by `TooLong`, and any other that isn't a flag by `BadFlag`, before it takes memory.
    pub fn new(alloc: Global, text: &[u8]) -> Result<FlagKey, FlagFault>
        ensures value { IfOk result (λ key. key ≡ key_of text.now) }
        ensures accepted { OnOk result (refusal text.now ≡ None) }

        // Want of memory is told only of a text that isn't refused.
        ensures refused { IfErr result (λ fault. fault ≡ unwrap_or (refusal text.now) FlagFault.Memory) }
    {
        accept(text)?;
        Ok(lowered(alloc, text)?)
    }

    /// Reads a flag as a user names it: a keyword, or one of the five system flags that a client may set
    /// (RFC 9051, section 2.3.2). Refuses what `new` refuses, and then any other name with a backslash by `BadFlag` 0.
    pub fn asked(alloc: Global, text: &[u8]) -> Result<FlagKey, FlagFault>
        ensures value { IfOk result (λ key. key ≡ key_of text.now) }
        ensures accepted { OnOk result (asked_refusal text.now ≡ None) }

        // Want of memory is told only of a text that isn't refused.
        ensures refused { IfErr result (λ fault. fault ≡ unwrap_or (asked_refusal text.now) FlagFault.Memory) }
    {
        accept(text)?;
        if !is_keyword(text) && system_flag(text).is_none() {
            return Err(FlagFault::BadFlag { at: 0 });
        }
        Ok(lowered(alloc, text)?)
    }

    /// A key with the same bytes. Fails for want of memory alone.
    pub fn copy(&self) -> Result<FlagKey, AllocError>
        ensures { IfOk result (λ key. key ≡ self.now) }
    {
        Ok(FlagKey {
            bytes: SmallVec::from_slice(self.allocator(), self.bytes.as_slice())?,
        })
    }

    // The allocator of the bytes.
    pub(crate) fn allocator(&self) -> Global {
        *self.bytes.allocator()
    }

    /// The key's bytes: a flag in lower case.
    pub fn as_bytes(&self) -> &[u8]
        ensures value { result.now ≡ self.now }
        ensures key { IsKey self.now }
    {
        self.bytes.as_slice()
    }

    /// Whether the flag is a keyword: it has no backslash.
    pub fn is_keyword(&self) -> bool
        ensures { result ≡ is_keyword self.now }
    {
        is_keyword(self.bytes.as_slice())
    }

    /// The flag as it is written: one of the five system flags that a client may set as the standard spells it, any
    /// other flag as its key (RFC 9051, section 2.3.2).
    pub fn spelling(&self) -> &[u8]
        ensures { result.now ≡ spelling self.now }
    {
        system_flag(self.bytes.as_slice()).unwrap_or(self.bytes.as_slice())
    }

    /// Whether the flag is `\Recent`, which servers of IMAP4rev1 set (RFC 9051, section 2.3.2).
    pub(crate) fn is_recent(&self) -> bool
        ensures { result ≡ bytes_eq self.now recent }
    {
        self.bytes.as_slice() == b"\\recent".as_slice()
    }
}

/// Keys are equal where their bytes are.
impl PartialEq for FlagKey {
    ghost eq = { bytes_eq };

    ghost laws = { partial_equiv_from_equiv nat_list_eq_equiv };

    fn eq(&self, other: &FlagKey) -> bool
        ensures value { result ≡ bytes_eq self.now other.now }
        ensures same { IsTrue result ↔ (self.now ≡ other.now) }
    {
        self.bytes.as_slice() == other.bytes.as_slice()
    }
}

impl Eq for FlagKey {
    ghost laws = { nat_list_eq_equiv };
}

/// Keys are ordered by their bytes.
impl Ord for FlagKey {
    ghost cmp = { slice_cmp nat_cmp };

    ghost total = { nat_list_cmp_total };

    ghost matches_partial_cmp = { λ x y. refl };

    ghost matches_eq = { texts_ties };

    fn cmp(&self, other: &FlagKey) -> Ordering {
        self.bytes.as_slice().cmp(other.bytes.as_slice())
    }
}

impl PartialOrd for FlagKey {
    ghost partial_cmp = { as_partial_cmp (slice_cmp nat_cmp) };

    ghost laws = { texts_po };

    fn partial_cmp(&self, other: &FlagKey) -> Option<Ordering> {
        Some(self.cmp(other))
    }
}

fn accept(text: &[u8]) -> Result<(), FlagFault>
    ensures accepted { OnOk result (refusal text.now ≡ None) }
    ensures refused { IfErr result (λ fault. refusal text.now ≡ Some fault) }
{
    if text.len() > MAX_FLAG {
        return Err(FlagFault::TooLong { length: text.len() });
    }
    if !is_flag(text) {
        return Err(FlagFault::BadFlag { at: misfit(text) });
    }
    Ok(())
}

fn lowered(alloc: Global, text: &[u8]) -> Result<FlagKey, AllocError>
    requires { refusal text.now ≡ None }
    ensures { IfOk result (λ key. key ≡ key_of text.now) }
{
    let bytes = lower_case(alloc, text)?;
    Ok(FlagKey { bytes })
}

fn lower_case(alloc: Global, text: &[u8]) -> Result<SmallVec<u8, SHORT>, AllocError>
    ensures { IfOk result (λ key. key.items ≡ key_of text.now) }
{
    text.iter()
        .map(|byte| byte.to_ascii_lowercase())
        .collect(alloc)
}

pub(crate) fn is_flag(text: &[u8]) -> bool
    ensures { result ≡ is_flag text.now }
{
    let name = name_of(text);
    !name.is_empty() && holds_atom_bytes_alone(name)
}

fn holds_atom_bytes_alone(name: &[u8]) -> bool
    ensures { result ≡ list_all is_atom_byte name.now }
{
    name.iter().all(|byte| is_atom_byte(*byte))
}

fn misfit(text: &[u8]) -> usize
    ensures { result ≡ misfit text.now }
{
    let name = name_of(text);
    let before = text.len() - name.len();
    before + first_other_byte(name).unwrap_or(name.len())
}

fn first_other_byte(name: &[u8]) -> Option<usize>
    ensures place { result ≡ position (λ byte. not (is_atom_byte byte)) name.now }
    ensures within { IfSome result (λ at. at < length name.now) }
{
    name.iter().position(|byte| !is_atom_byte(*byte))
}

fn name_of(text: &[u8]) -> &[u8]
    ensures { result.now ≡ name_of text.now }
{
    match text {
        [b'\\', name @ ..] => name,
        _ => text,
    }
}

fn is_atom_byte(byte: u8) -> bool
    ensures { result ≡ is_atom_byte byte }
{
    matches!(byte, 33..=126)
        && !matches!(byte, b'(' | b')' | b'{' | b'%' | b'*' | b'"' | b'\\' | b']')
}

fn is_keyword(text: &[u8]) -> bool
    ensures { result ≡ is_keyword text.now }
{
    text.first() != Some(&b'\\')
}

fn system_flag(text: &[u8]) -> Option<&'static [u8]>
    ensures { option_copied result ≡ system_flag text.now }
{
    if is_same_flag(b"\\Answered", text) {
        Some(b"\\Answered".as_slice())
    } else if is_same_flag(b"\\Flagged", text) {
        Some(b"\\Flagged".as_slice())
    } else if is_same_flag(b"\\Deleted", text) {
        Some(b"\\Deleted".as_slice())
    } else if is_same_flag(b"\\Seen", text) {
        Some(b"\\Seen".as_slice())
    } else if is_same_flag(b"\\Draft", text) {
        Some(b"\\Draft".as_slice())
    } else {
        None
    }
}

fn is_same_flag(flag: &[u8], text: &[u8]) -> bool
    ensures { result ≡ str_eq_ignore_ascii_case flag.now text.now }
{
    flag.eq_ignore_ascii_case(text)
}

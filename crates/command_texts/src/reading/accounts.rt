//! Who logs in: two texts of UTF-8 (RFC 9051, section 6.2.3), or one base64 text of both (RFC 4616, section 2).

ghost use Rattle.std.specs.Prelude.{◌≡◌, ◌++◌, ◌∷◌, [], ℕ, List, Some, IfOk, MatchOption};
ghost use Rattle.base64.specs.Engines.{standard};
ghost use Rattle.base64.specs.GeneralPurpose.{IsBytes, encode_of};
ghost use Rattle.mail_base.specs.Account.{Credentials};
ghost use Rattle.imap_model.specs.Astring.{astring_parts};
ghost use Rattle.imap_model.specs.CommandParts.{line, words, crlf, ◌⌢◌};
ghost use Rattle.imap_model.specs.CommandText.{response_of};
ghost use Rattle.imap_model.specs.Held.{IsHeldAccount};

use crate::reading::arguments::argument_at;
use crate::reading::cuts::until;
use base64::DecodeAllocError;
use base64::engine::general_purpose::STANDARD;
use mail_base::{Account, AccountFault, Bytes};
use std::alloc::{AllocError, Global};
use std::str::from_utf8;

/// The account of this user and this password.
pub fn account_of(
    alloc: Global,
    user: &[u8],
    password: &[u8],
) -> Result<Option<Account>, AllocError>
    ensures { (account : Credentials) → IsHeldAccount account → user.now ≡ account.user → password.now ≡ account.password → IfOk result (λ found. found ≡ Some account) }
{
    let (Ok(user), Ok(password)) = (from_utf8(user), from_utf8(password)) else {
        return Ok(None);
    };
    match Account::new(alloc, user, password) {
        Ok(account) => Ok(Some(account)),
        Err(AccountFault::Memory) => Err(AllocError),
        Err(AccountFault::HasNul) => Ok(None),
    }
}

/// The account that two arguments name: the user, and behind a space the password.
pub fn login(alloc: Global, text: &[u8], later: &[Bytes]) -> Result<Option<Account>, AllocError>
    ensures { (account : Credentials) → IsHeldAccount account
        → text.now ∷ later.now ≡ astring_parts account.user ⌢ (words " " ⌢ (astring_parts account.password ⌢ line crlf)) → IfOk result (λ found. found ≡ Some account) }
{
    let Some(user) = argument_at(alloc, text, later)? else {
        return Ok(None);
    };
    let (_, rest) = until(user.rest, b' ');
    let Some(password) = argument_at(alloc, rest, user.later)? else {
        return Ok(None);
    };
    account_of(alloc, &user.text, &password.text)
}

// The bytes that a base64 text stands for.
fn decoded(alloc: Global, text: &[u8]) -> Result<Option<Vec<u8>>, AllocError>
    ensures { (bytes : List ℕ) → IsBytes bytes → text.now ≡ encode_of standard bytes → IfOk result (λ found. MatchOption found ⊥ (λ v. v.items ≡ bytes)) }
{
    match STANDARD.decode(alloc, text) {
        Ok(bytes) => Ok(Some(bytes)),
        Err(DecodeAllocError::OutOfMemory) => Err(AllocError),
        Err(DecodeAllocError::DecodeError(_)) => Ok(None),
    }
}

/// The account of a response: NUL, the user, NUL and the password.
pub fn responded(alloc: Global, later: &[Bytes]) -> Result<Option<Account>, AllocError>
    ensures { (account : Credentials) → IsHeldAccount account → later.now ≡ (response_of account ++ crlf) ∷ [] → IfOk result (λ found. found ≡ Some account) }
{
    let Some((part, _)) = later.split_first() else {
        return Ok(None);
    };
    let Some(bytes) = decoded(alloc, without_end(part.as_slice()))? else {
        return Ok(None);
    };
    named(alloc, &bytes)
}

// The account of NUL, a user, NUL and a password.
fn named(alloc: Global, bytes: &[u8]) -> Result<Option<Account>, AllocError>
    ensures { (account : Credentials) → IsHeldAccount account → bytes.now ≡ 0 ∷ (account.user ++ 0 ∷ account.password) → IfOk result (λ found. found ≡ Some account) }
{
    let (_, rest) = until(bytes, 0);
    let (user, password) = until(rest, 0);
    account_of(alloc, user, password)
}

// A line without its CRLF.
fn without_end(line: &[u8]) -> &[u8]
    ensures { (text : List ℕ) → line.now ≡ text ++ crlf → result.now ≡ text }
{
    &line[..line.len().saturating_sub(2)]
}

//! The keys of a mailbox's messages, as the book has them.

ghost use Rattle.std.specs.Prelude.{◌≡◌, IfOk};
ghost use Rattle.action_queue.specs.Book.{meaning};
ghost use Rattle.body_cache.specs.Keys.{cached_in, key_in, uids_of};

use crate::{Key, ReadReason};
use action_queue::Book;
use mail_base::{BoxName, List, Validity};
use mail_top::Show;
use mailbox_cache::Cache;
use std::alloc::{AllocError, Global};
use uid_sets::Uid;

/// A message of a mailbox, whose key is looked for.
#[derive(Clone, Copy)]
pub struct KeyOf<'a> {
    pub name: &'a BoxName,
    pub uid: Uid,
}

impl Show for KeyOf<'_> {
    ghost use Rattle.std.specs.Prelude.{◌≡◌};
    ghost use Rattle.body_cache.specs.Keys.{key_in};

    type Shown = Result<Key, ReadReason>;

    ghost fits = { λ asked book key. key ≡ key_in book asked.name.now asked.uid };

    fn shown(&self, _alloc: Global, book: &Book) -> Result<Result<Key, ReadReason>, AllocError> {
        Ok(key_in(book, self.name, self.uid))
    }
}

/// The messages of a mailbox that its cache has.
#[derive(Drop)]
pub struct Cached {
    /// The cache's UIDVALIDITY, if there is a cache.
    pub validity: Option<Validity>,
    /// Their UIDs, rising.
    pub uids: List<Uid>,
}

/// A mailbox, whose messages are looked for.
#[derive(Clone, Copy)]
pub struct CachedIn<'a> {
    pub name: &'a BoxName,
}

impl Show for CachedIn<'_> {
    ghost use Rattle.std.specs.Prelude.{◌≡◌};
    ghost use Rattle.body_cache.specs.Keys.{cached_in};

    type Shown = Option<Cached>;

    ghost fits = { λ asked book cached. cached ≡ cached_in book asked.name.now };

    fn shown(&self, alloc: Global, book: &Book) -> Result<Option<Cached>, AllocError> {
        cached_in(alloc, book, self.name)
    }
}

// The key of a message, or why it has none.
fn key_in(book: &Book, name: &BoxName, uid: Uid) -> Result<Key, ReadReason>
    ensures { result ≡ key_in (meaning book.now) name.now uid }
{
    let Some(known) = book.known(name) else {
        return Err(ReadReason::NoMailbox);
    };
    let Some(cache) = known.cache.as_ref() else {
        return Err(ReadReason::NoMessage);
    };
    if cache.rows.get(uid).is_none() {
        return Err(ReadReason::NoMessage);
    }
    Ok(Key {
        name: name.copy(),
        validity: cache.validity,
        uid,
    })
}

// The messages of a mailbox, where it is one of the book's.
fn cached_in(alloc: Global, book: &Book, name: &BoxName) -> Result<Option<Cached>, AllocError>
    ensures { IfOk result (λ cached. cached ≡ cached_in (meaning book.now) name.now) }
{
    let Some(known) = book.known(name) else {
        return Ok(None);
    };
    let Some(cache) = known.cache.as_ref() else {
        return Ok(Some(Cached {
            validity: None,
            uids: List::new(alloc),
        }));
    };
    let uids = uids_of(alloc, cache)?;
    Ok(Some(Cached {
        validity: Some(cache.validity),
        uids,
    }))
}

// The UIDs of a cache's rows.
fn uids_of(alloc: Global, cache: &Cache) -> Result<List<Uid>, AllocError>
    ensures { IfOk result (λ uids. uids ≡ uids_of cache.now.rows) }
{
    let rows = cache.rows.as_slice();
    let mut uids = Vec::with_capacity(alloc, rows.len())?;
    for (uid, _row) in rows {
        uids.push(*uid)?;
    }
    Ok(List::of(uids))
}

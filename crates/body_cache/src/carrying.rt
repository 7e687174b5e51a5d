//! The three readings.

ghost use Rattle.std.specs.Prelude.{◌≡◌, ◌++◌, Some, OnOk, IsErrOf};
ghost use Rattle.play_driver.specs.Granting.{IsBox};
ghost use Rattle.play_driver.specs.Serving.{AllServing};
ghost use Rattle.mail_top.specs.Causing.{HasCauses};
ghost use Rattle.mail_top.specs.Course.{course_of};
ghost use Rattle.mail_top.specs.Showing.{OnlyReads};
ghost use Rattle.body_cache.specs.Carrying.{Dates, IsOfShelf, IsUnfetched, Puts, TellsRenewed, status_of_put};
ghost use Rattle.body_cache.specs.Causing.{HasShelfCause, shelving_of};
ghost use Rattle.body_cache.specs.Completing.{IsServed};
ghost use Rattle.body_cache.specs.Ending.{EndsDates, EndsFetch, EndsShow};
ghost use Rattle.body_cache.specs.Fetched.{PutsTold};
ghost use Rattle.body_cache.specs.Finding.{OnlyLooks};
ghost use Rattle.body_cache.specs.Lines.{date_line};
ghost use Rattle.body_cache.specs.Shelf.{text_at};
ghost use Rattle.body_cache.specs.Telling.{status_of_read, text_of_read};
ghost use Rattle.body_cache.specs.declared.refused.ReadFault.{ReadFault as AnyFault};

use crate::finding::find;
use crate::lines::{error_validity, kept_line, put_date_line};
use crate::{
    Cached, CachedIn, Key, ReadFault, ReadReason, Shelf, ShelfFailed, TextFault, fetch_text,
};
use mail_base::{Account, BoxName, Bytes, Validity};
use mail_top::{Refusal, show_book};
use std::alloc::{AllocError, Global};
use uid_sets::Uid;
use world_traits::{Clocked, Disk, Link, World};

/// Fetches the text of a message, and puts it on the shelf. The line of what was kept is made before the text is put. LOGOUT comes before the shelf is
/// touched, so that a fault of the link leaves the shelf as it was.
pub(crate) fn fetch<W: World, K: Shelf>(
    alloc: Global,
    account: &Account,
    world: &mut W,
    shelf: &mut K,
    name: &BoxName,
    uid: Uid,
) -> Result<Bytes, ReadFault>
    ensures ends { W.tells_files → EndsFetch account.now name.now uid
        (course_of W.Clocked W.seen world.old world.new) (shelving_of K.Shelf shelf.old shelf.new)
        (status_of_read result) (text_of_read result) }
    ensures looks { W.tells_files → OnlyLooks W.Clocked world.old world.new }
    ensures told { W.tells_server → OnOk result (PutsTold name.now uid
        (W.clock world.old) (W.clock world.new) (shelving_of K.Shelf shelf.old shelf.new)) }
    ensures serves { W.tells_server → AllServing (W.clock world.old) (W.clock world.new)
        → IsBox name.now (W.clock world.old).now.outside.server → IsServed (status_of_read result) }
    ensures causes { HasCauses W.Clocked world.old world.new (status_of_read result) }
    ensures shelf { HasShelfCause K.Shelf shelf.old shelf.new (status_of_read result) }
{
    let key = find(alloc, world, name, uid)?;
    match fetch_text(alloc, account, world, &key) {
        Ok(text) => kept(alloc, shelf, &key, text.as_slice()),
        Err(fault) => Err(not_fetched(alloc, &key, fault)),
    }
}

// Puts a text on the shelf.
fn kept<K: Shelf>(alloc: Global, shelf: &mut K, key: &Key, text: &[u8]) -> Result<Bytes, ReadFault>
    ensures puts { Puts (shelving_of K.Shelf shelf.old shelf.new) key.now text.now result }
    ensures shelf { HasShelfCause K.Shelf shelf.old shelf.new (status_of_read result) }
{
    let line = kept_line(alloc, text)?;
    match shelf.put(key, text) {
        Ok(()) => Ok(line),
        Err(ShelfFailed) => Err(ReadFault::Shelf),
    }
}

// Why a text isn't fetched, with the line that tells another UIDVALIDITY.
fn not_fetched(alloc: Global, key: &Key, fault: TextFault) -> ReadFault
    ensures { IsUnfetched key.now fault result }
{
    match fault {
        TextFault::Stopped(fault) => ReadFault::Stopped(fault),
        TextFault::Gone => ReadFault::Reason(ReadReason::Gone),
        TextFault::Renewed(told) => renewed(alloc, key, told),
    }
}

// The line that tells another UIDVALIDITY, or memory is wanting.
fn renewed(alloc: Global, key: &Key, told: Validity) -> ReadFault
    ensures { TellsRenewed key.now told result }
{
    match error_validity(alloc, key, told) {
        Ok(line) => ReadFault::Renewed(line),
        Err(AllocError) => ReadFault::Refused(Refusal::Memory),
    }
}

/// The text of a message that the shelf keeps.
pub(crate) fn show<D: Disk, K: Shelf>(
    alloc: Global,
    disk: &mut D,
    shelf: &mut K,
    name: &BoxName,
    uid: Uid,
) -> Result<Bytes, ReadFault>
    ensures ends { D.tells_files → EndsShow name.now uid
        (course_of D.Clocked D.seen disk.old disk.new) (shelving_of K.Shelf shelf.old shelf.new)
        (status_of_read result) (text_of_read result) }
    ensures reads { D.tells_files → OnlyReads (D.clock disk.old) (D.clock disk.new) }
    ensures causes { HasCauses D.Clocked disk.old disk.new (status_of_read result) }
    ensures shelf { HasShelfCause K.Shelf shelf.old shelf.new (status_of_read result) }
    ensures link { D.link disk.new ≡ D.link disk.old }
{
    let key = find(alloc, disk, name, uid)?;
    let found = shelf.get(&key)?;
    match found {
        Some(text) => Ok(Bytes::of(text)),
        None => Err(ReadFault::Reason(ReadReason::NotKept)),
    }
}

/// The dates of the texts of a mailbox's messages that the shelf keeps, a line for each text.
pub(crate) fn dates<D: Disk, K: Shelf>(
    alloc: Global,
    disk: &mut D,
    shelf: &mut K,
    name: &BoxName,
) -> Result<Bytes, ReadFault>
    ensures ends { D.tells_files → EndsDates name.now
        (course_of D.Clocked D.seen disk.old disk.new) (shelving_of K.Shelf shelf.old shelf.new)
        (status_of_read result) (text_of_read result) }
    ensures reads { D.tells_files → OnlyReads (D.clock disk.old) (D.clock disk.new) }
    ensures causes { HasCauses D.Clocked disk.old disk.new (status_of_read result) }
    ensures shelf { HasShelfCause K.Shelf shelf.old shelf.new (status_of_read result) }
    ensures link { D.link disk.new ≡ D.link disk.old }
{
    let shown = show_book(alloc, disk, &CachedIn { name })?;
    match shown {
        Some(cached) => dates_text(alloc, shelf, name, &cached),
        None => Err(ReadFault::Reason(ReadReason::NoMailbox)),
    }
}

// The lines of a mailbox's messages. Where it has no cache there are none.
fn dates_text<K: Shelf>(
    alloc: Global,
    shelf: &mut K,
    name: &BoxName,
    cached: &Cached,
) -> Result<Bytes, ReadFault>
    ensures dates { Dates (shelving_of K.Shelf shelf.old shelf.new) name.now cached.now result }
    ensures shelf { HasShelfCause K.Shelf shelf.old shelf.new (status_of_read result) }
{
    match cached.validity {
        Some(validity) => lines_of(alloc, shelf, name, validity, cached.uids.as_slice()),
        None => Ok(Bytes::new(alloc)),
    }
}

// The lines of messages under a UIDVALIDITY.
fn lines_of<K: Shelf>(
    alloc: Global,
    shelf: &mut K,
    name: &BoxName,
    validity: Validity,
    uids: &[Uid],
) -> Result<Bytes, ReadFault>
    ensures dates { Dates (shelving_of K.Shelf shelf.old shelf.new) name.now
        (record { validity = Some validity; uids = uids.now }) result }
    ensures shelf { HasShelfCause K.Shelf shelf.old shelf.new (status_of_read result) }
{
    let mut lines = Vec::new(alloc);
    for uid in uids {
        put_date(&mut lines, alloc, shelf, name, validity, *uid)?;
    }
    Ok(Bytes::of(lines))
}

// Adds the line of a message, where its text is kept.
fn put_date<K: Shelf>(
    lines: &mut Vec<u8>,
    alloc: Global,
    shelf: &mut K,
    name: &BoxName,
    validity: Validity,
    uid: Uid,
) -> Result<(), ReadFault>
    ensures line { K.tells → OnOk result (lines.new.items
        ≡ lines.old.items ++ date_line uid (text_at (record { name = name.now; validity = validity; uid = uid })
        (K.texts shelf.old))) }
    ensures untouched { K.tells → K.texts shelf.new ≡ K.texts shelf.old }
    ensures only { (fault : AnyFault) → IsErrOf result fault → IsOfShelf fault }
    ensures shelf { HasShelfCause K.Shelf shelf.old shelf.new (status_of_put result) }
{
    let key = Key {
        name: name.copy(),
        validity,
        uid,
    };
    let found = shelf.get(&key)?;
    match found {
        Some(text) => {
            put_date_line(lines, alloc, uid, &text)?;
            Ok(())
        }
        None => Ok(()),
    }
}

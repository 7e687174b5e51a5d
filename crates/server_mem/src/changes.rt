//! What a change makes of mailboxes (RFC 9051, section 2.3.1.1; RFC 7162, section 3.1). Each change is made on copies, so that
//! nothing has changed where memory is wanting.

ghost use Rattle.std.specs.Prelude.{◌≡◌, ◌+◌, ◌-◌, ◌<◌, ◌^◌, ◌≢◌, ℕ, Some, None, IfOk, OnOk, OnErr, length, slice_set};
ghost use Rattle.imap_model.specs.Lookups.{box_at, put_box, renumbered, without_message};
ghost use Rattle.imap_model.specs.Lawful.{broken_rule};
ghost use Rattle.imap_model.specs.PlainChanges as plain;
ghost use Rattle.imap_model.specs.declared.server.Mailbox.{Mailbox};
ghost use Rattle.imap_model.specs.declared.deed.Change.TheVariants as changes;

use crate::lookups::{box_of, message_of};
use flag_set::FlagSet;
use imap_model::{Change, Gone, Mailbox, Message};
use mail_base::{BoxName, Bytes, List, ModSeq, Validity};
use std::alloc::{AllocError, Global};
use uid_sets::Uid;

// The mod-sequence behind the highest.
fn modseq_after(highest: ModSeq) -> ModSeq
    requires { highest < 2 ^ 63 - 1 }
    ensures { result ≡ highest + 1 }
{
    match ModSeq::new(highest.number() + 1) {
        Some(modseq) => modseq,
        None => unreachable!(),
    }
}

// The UID behind one.
fn uid_after(uid: Uid) -> Uid
    requires { uid < 2 ^ 32 - 1 }
    ensures { result ≡ uid + 1 }
{
    match Uid::new(uid.number() + 1) {
        Some(next) => next,
        None => unreachable!(),
    }
}

// A mailbox with a message more.
fn added(
    alloc: Global,
    mailbox: &Mailbox,
    flags: &FlagSet,
    text: &Bytes,
    uid: Uid,
) -> Result<Mailbox, AllocError>
    requires next { mailbox.now.highest < 2 ^ 63 - 1 }
    requires fits { uid < 2 ^ 32 - 1 }
    ensures { IfOk result (λ new. new ≡ plain.added flags.now text.now uid mailbox.now) }
{
    let modseq = modseq_after(mailbox.highest);
    let mut new = mailbox.copy(alloc)?;
    let message = Message {
        uid,
        flags: flags.copy()?,
        modseq,
        text: text.copy()?,
    };
    new.messages.push(message)?;
    new.uidnext = uid_after(uid);
    new.highest = modseq;
    Ok(new)
}

// A mailbox in which a message, if it is there, has these flags.
fn reflagged(
    alloc: Global,
    mailbox: &Mailbox,
    uid: Uid,
    flags: &FlagSet,
) -> Result<Mailbox, AllocError>
    requires next { mailbox.now.highest < 2 ^ 63 - 1 }
    ensures { IfOk result (λ new. new ≡ plain.reflagged uid flags.now mailbox.now) }
{
    let mut new = mailbox.copy(alloc)?;
    let Some((at, old)) = message_of(mailbox.messages.as_slice(), uid) else {
        return Ok(new);
    };
    let modseq = modseq_after(mailbox.highest);
    let message = Message {
        uid: old.uid,
        flags: flags.copy()?,
        modseq,
        text: old.text.copy()?,
    };
    new.messages.put(at, message);
    new.highest = modseq;
    Ok(new)
}

// The messages but that of a UID.
fn without(alloc: Global, messages: &[Message], uid: Uid) -> Result<List<Message>, AllocError>
    ensures { IfOk result (λ left. left ≡ without_message uid messages.now) }
{
    let mut left = List::new(alloc);
    for message in messages {
        if message.uid != uid {
            left.push(message.copy()?)?;
        }
    }
    Ok(left)
}

// A mailbox without a message.
fn dropped(alloc: Global, mailbox: &Mailbox, uid: Uid) -> Result<Mailbox, AllocError>
    requires next { mailbox.now.highest < 2 ^ 63 - 1 }
    ensures { IfOk result (λ new. new ≡ plain.dropped uid mailbox.now) }
{
    let modseq = modseq_after(mailbox.highest);
    let mut new = mailbox.copy(alloc)?;
    new.messages = without(alloc, mailbox.messages.as_slice(), uid)?;
    new.gone.push(Gone { uid, modseq })?;
    new.highest = modseq;
    Ok(new)
}

// A message under another UID, with another mod-sequence.
fn under(message: &Message, uid: Uid, modseq: ModSeq) -> Result<Message, AllocError>
    ensures { IfOk result (λ new. new ≡ record message.now { uid = uid; modseq = modseq }) }
{
    Ok(Message {
        uid,
        flags: message.flags.copy()?,
        modseq,
        text: message.text.copy()?,
    })
}

// The messages under new UIDs, in their order, all with one mod-sequence.
fn renumbered(
    alloc: Global,
    uids: &[Uid],
    highest: ModSeq,
    messages: &[Message],
) -> Result<List<Message>, AllocError>
    ensures { IfOk result (λ new. new ≡ renumbered uids.now highest messages.now) }
{
    let mut new = List::new(alloc);
    let mut left = uids;
    for message in messages {
        let Some((uid, later)) = left.split_first() else {
            return Ok(new);
        };
        new.push(under(message, *uid, highest)?)?;
        left = later;
    }
    Ok(new)
}

// A mailbox that is renewed.
fn renewed(
    alloc: Global,
    mailbox: &Mailbox,
    validity: Validity,
    uids: &[Uid],
    uidnext: Uid,
    highest: ModSeq,
) -> Result<Mailbox, AllocError>
    ensures { IfOk result (λ new. new ≡ plain.renewed validity uids.now uidnext highest mailbox.now) }
{
    Ok(Mailbox {
        name: mailbox.name.copy(),
        validity,
        uidnext,
        highest,
        messages: renumbered(alloc, uids, highest, mailbox.messages.as_slice())?,
        gone: List::new(alloc),
    })
}

// The same mailboxes once more.
fn copied(alloc: Global, boxes: &[Mailbox]) -> Result<List<Mailbox>, AllocError>
    ensures { IfOk result (λ copies. copies ≡ boxes.now) }
{
    let mut copies = List::new(alloc);
    for mailbox in boxes {
        copies.push(mailbox.copy(alloc)?)?;
    }
    Ok(copies)
}

// The mailboxes with another in place of the one that stands there.
fn with_put(
    alloc: Global,
    boxes: &[Mailbox],
    at: usize,
    new: Mailbox,
) -> Result<List<Mailbox>, AllocError>
    requires within { at < length boxes.now }
    requires place { put_box new boxes.now ≡ slice_set boxes.now at new }
    ensures { IfOk result (λ changed. changed ≡ put_box new boxes.now) }
{
    let mut copies = copied(alloc, boxes)?;
    copies.put(at, new);
    Ok(copies)
}

// The mailboxes, of which that of a name has a message more.
fn with_added(
    alloc: Global,
    boxes: &[Mailbox],
    name: &BoxName,
    flags: &FlagSet,
    text: &Bytes,
    uid: Uid,
) -> Result<List<Mailbox>, AllocError>
    requires next { (b : Mailbox) → box_at name.now boxes.now ≡ Some b → b.highest < 2 ^ 63 - 1 }
    requires fits { uid < 2 ^ 32 - 1 }
    ensures { IfOk result (λ new. new ≡ plain.with_box (plain.added flags.now text.now uid) name.now boxes.now) }
{
    let Some((at, mailbox)) = box_of(boxes, name) else {
        return copied(alloc, boxes);
    };
    let new = added(alloc, mailbox, flags, text, uid)?;
    let changed = with_put(alloc, boxes, at, new)?;
    Ok(changed)
}

// The mailboxes, of which that of a name has other flags at a message.
fn with_flags(
    alloc: Global,
    boxes: &[Mailbox],
    name: &BoxName,
    uid: Uid,
    flags: &FlagSet,
) -> Result<List<Mailbox>, AllocError>
    requires next { (b : Mailbox) → box_at name.now boxes.now ≡ Some b → b.highest < 2 ^ 63 - 1 }
    ensures { IfOk result (λ new. new ≡ plain.with_box (plain.reflagged uid flags.now) name.now boxes.now) }
{
    let Some((at, mailbox)) = box_of(boxes, name) else {
        return copied(alloc, boxes);
    };
    let new = reflagged(alloc, mailbox, uid, flags)?;
    let changed = with_put(alloc, boxes, at, new)?;
    Ok(changed)
}

// The mailboxes, of which that of a name has a message less.
fn with_dropped(
    alloc: Global,
    boxes: &[Mailbox],
    name: &BoxName,
    uid: Uid,
) -> Result<List<Mailbox>, AllocError>
    requires next { (b : Mailbox) → box_at name.now boxes.now ≡ Some b → b.highest < 2 ^ 63 - 1 }
    ensures { IfOk result (λ new. new ≡ plain.with_box (plain.dropped uid) name.now boxes.now) }
{
    let Some((at, mailbox)) = box_of(boxes, name) else {
        return copied(alloc, boxes);
    };
    let new = dropped(alloc, mailbox, uid)?;
    let changed = with_put(alloc, boxes, at, new)?;
    Ok(changed)
}

// The mailboxes, of which that of a name is renewed.
fn with_renewed(
    alloc: Global,
    boxes: &[Mailbox],
    name: &BoxName,
    validity: Validity,
    uids: &[Uid],
    uidnext: Uid,
    highest: ModSeq,
) -> Result<List<Mailbox>, AllocError>
    ensures { IfOk result (λ new. new ≡ plain.with_box (plain.renewed validity uids.now uidnext highest) name.now boxes.now) }
{
    let Some((at, mailbox)) = box_of(boxes, name) else {
        return copied(alloc, boxes);
    };
    let new = renewed(alloc, mailbox, validity, uids, uidnext, highest)?;
    let changed = with_put(alloc, boxes, at, new)?;
    Ok(changed)
}

// The mailboxes after a message went from one to another.
fn shifted(
    alloc: Global,
    boxes: &[Mailbox],
    name: &BoxName,
    uid: Uid,
    to: &BoxName,
    new: Uid,
) -> Result<List<Mailbox>, AllocError>
    requires { broken_rule boxes.now name.now (changes.Shift uid to.now new) ≡ None }
    ensures { IfOk result (λ later. later ≡ plain.changed name.now (changes.Shift uid to.now new) boxes.now) }
{
    let Some((_, source)) = box_of(boxes, name) else {
        unreachable!();
    };
    let Some((_, message)) = message_of(source.messages.as_slice(), uid) else {
        unreachable!();
    };
    let left = with_dropped(alloc, boxes, name, uid)?;
    let later = with_added(
        alloc,
        left.as_slice(),
        to,
        &message.flags,
        &message.text,
        new,
    )?;
    Ok(later)
}

/// The mailboxes after a change that breaks no rule. Fails for want of memory alone.
pub fn changed(
    alloc: Global,
    boxes: &[Mailbox],
    name: &BoxName,
    change: &Change,
) -> Result<List<Mailbox>, AllocError>
    requires { broken_rule boxes.now name.now change.now ≡ None }
    ensures { IfOk result (λ later. later ≡ plain.changed name.now change.now boxes.now) }
{
    match change {
        Change::Add { flags, text, uid } => with_added(alloc, boxes, name, flags, text, *uid),
        Change::SetFlags { uid, flags } => with_flags(alloc, boxes, name, *uid, flags),
        Change::Drop { uid } => with_dropped(alloc, boxes, name, *uid),
        Change::Shift { uid, to, new } => shifted(alloc, boxes, name, *uid, to, *new),
        Change::Reset {
            validity,
            uids,
            uidnext,
            highest,
        } => with_renewed(
            alloc,
            boxes,
            name,
            *validity,
            uids.as_slice(),
            *uidnext,
            *highest,
        ),
    }
}

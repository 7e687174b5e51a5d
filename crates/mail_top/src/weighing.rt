//! What a book, and the input, answer to an action that is asked for.

ghost use Rattle.std.specs.Prelude.{◌≡◌, ◌⊎◌, ◌≤◌, ℕ, List, [], Some, IfOk, IfErr, IsErrOf, OnOk, map, string_bytes, length, true, false};
ghost use Rattle.world_traits.specs.Calls.{Rose};
ghost use Rattle.flag_set.specs.FlagKey.{key_of};
ghost use Rattle.flag_set.specs.FlagSet.{put};
ghost use Rattle.action_queue.specs.Book.{meaning};
ghost use Rattle.action_queue.specs.Rules.{is_unknown};
ghost use Rattle.action_queue.specs.Writable.{IsWritableAction};
ghost use Rattle.mail_top.specs.Actions.{target_of};
ghost use Rattle.mail_top.specs.Reading.{Awaits, IsAppendAsked, IsInput, IsReadOut, TakesFront};
ghost use Rattle.mail_top.specs.Reasons.{is_bad_flag, is_full, open_len};
ghost use Rattle.mail_top.specs.Weighing.{Weighed, Found, FlagsAsked, HasNumber, Received};
ghost use Rattle.mail_top.specs.Words.{Append, Flag, HasFewFlags, Move, addition_of, change_of, transfer_of, wanted_of};
ghost use Rattle.mail_top.specs.declared.reason.Reason.TheVariants as reasons;
ghost use Rattle.mail_top.specs.declared.refusal.Refusal.TheVariants as refusals;

use crate::input::message;
use crate::{AskedAction, AskedAppend, AskedFlags, AskedMove, Reason, Refusal};
use action_queue::{Action, Book, Queue, Queued, Target};
use flag_set::{FlagFault, FlagKey, FlagSet};
use local_view::{Ident, is_shown};
use mail_base::{ActionId, BoxName, MAX_ACTIONS, MAX_QUEUE};
use std::alloc::Global;
use world_traits::Source;

/// The most flags of one command (this client's profile).
pub const MAX_ASKED: usize = 32;

/// The action that a book takes for what is asked for; or the first reason against it.
///
/// The input is read for an append alone, and only where no reason speaks against it that the book can tell.
pub fn weighed<I: Source>(
    alloc: Global,
    book: &Book,
    input: &mut I,
    asked: &AskedAction<'_>,
) -> Result<Action, Refusal>
    requires { HasFewFlags (wanted_of asked.now []) }
    ensures value { (given : List ℕ) × IsInput I.tells (I.rest input.old) given × Weighed (wanted_of asked.now given) (meaning book.now) result }
    ensures writable { IfOk result IsWritableAction }
    ensures read { (input.new ≡ input.old) ⊎ Awaits (wanted_of asked.now []) (meaning book.now) }
    ensures taken { I.tells → TakesFront (I.rest input.old) (I.rest input.new) }
    ensures whole { I.tells → IsAppendAsked asked.now → OnOk result (I.rest input.new ≡ []) }
    ensures out { I.tells → (IsErrOf result refusals.Input → ⊥) → (IsErrOf result refusals.Memory → ⊥) → (input.new ≡ input.old) ⊎ IsReadOut (I.rest input.old) (I.rest input.new) }
    ensures count { I.source_faults input.old ≤ I.source_faults input.new }
    ensures cause { IsErrOf result refusals.Input → Rose (I.source_faults input.old) (I.source_faults input.new) }
{
    match asked {
        AskedAction::Flag(flags) => flag_weighed(alloc, book, flags),
        AskedAction::Move(transfer) => move_weighed(alloc, book, transfer),
        AskedAction::Append(addition) => append_weighed(alloc, book, input, addition),
    }
}

// A change of a message's flags.
fn flag_weighed(alloc: Global, book: &Book, asked: &AskedFlags<'_>) -> Result<Action, Refusal>
    requires { HasFewFlags (Flag (change_of asked.now)) }
    ensures value { Weighed (Flag (change_of asked.now)) (meaning book.now) result }
    ensures writable { IfOk result IsWritableAction }
    ensures never { IsErrOf result refusals.Input → ⊥ }
{
    let target = found(alloc, book, &asked.name, asked.id)?;
    let flags = keys_of(alloc, asked.flags)?;
    has_room(&book.queue)?;
    Ok(Action::Flag {
        target,
        add: asked.add,
        flags,
    })
}

// A move of a message.
fn move_weighed(alloc: Global, book: &Book, asked: &AskedMove) -> Result<Action, Refusal>
    ensures value { Weighed (Move (transfer_of asked.now)) (meaning book.now) result }
    ensures writable { IfOk result IsWritableAction }
    ensures never { IsErrOf result refusals.Input → ⊥ }
{
    is_known(book, &asked.name)?;
    is_known(book, &asked.to)?;
    let target = found(alloc, book, &asked.name, asked.id)?;
    if asked.name == asked.to {
        return Err(Refusal::from(Reason::SameMailbox));
    }
    has_room(&book.queue)?;
    let to = asked.to.copy();
    Ok(Action::Move { target, to })
}

// A new message.
fn append_weighed<I: Source>(
    alloc: Global,
    book: &Book,
    input: &mut I,
    asked: &AskedAppend<'_>,
) -> Result<Action, Refusal>
    requires { HasFewFlags (Append (addition_of asked.now) []) }
    ensures value { (given : List ℕ) × IsInput I.tells (I.rest input.old) given
        × Weighed (Append (addition_of asked.now) given) (meaning book.now) result }
    ensures writable { IfOk result IsWritableAction }
    ensures read { (input.new ≡ input.old) ⊎ Awaits (Append (addition_of asked.now) []) (meaning book.now) }
    ensures taken { I.tells → TakesFront (I.rest input.old) (I.rest input.new) }
    ensures whole { I.tells → OnOk result (I.rest input.new ≡ []) }
    ensures out { I.tells → (IsErrOf result refusals.Input → ⊥) → (IsErrOf result refusals.Memory → ⊥) → (input.new ≡ input.old) ⊎ IsReadOut (I.rest input.old) (I.rest input.new) }
    ensures count { I.source_faults input.old ≤ I.source_faults input.new }
    ensures cause { IsErrOf result refusals.Input → Rose (I.source_faults input.old) (I.source_faults input.new) }
{
    let flags = flags_received(alloc, book, asked)?;
    let (text, identifier) = message(alloc, input)?;
    Ok(Action::Append {
        to: asked.to.copy(),
        flags,
        text,
        id: identifier,
    })
}

// The flags of a new message, where no reason speaks against it that the book can tell.
fn flags_received(alloc: Global, book: &Book, asked: &AskedAppend<'_>) -> Result<FlagSet, Refusal>
    requires { HasFewFlags (Append (addition_of asked.now) []) }
    ensures value { (given : List ℕ) → Received (addition_of asked.now) given (meaning book.now) result }
    ensures few { IfOk result (λ keys. length keys ≤ 1024) }
    ensures never { IsErrOf result refusals.Input → ⊥ }
{
    is_known(book, &asked.to)?;
    let flags = keys_of(alloc, asked.flags)?;
    has_room(&book.queue)?;
    Ok(flags)
}

// Whether a mailbox is one of the book's.
fn is_known(book: &Book, name: &BoxName) -> Result<(), Reason>
    ensures known { OnOk result (is_unknown book.now.boxes name.now ≡ false) }
    ensures unknown { IfErr result (λ reason. (reason ≡ reasons.NoMailbox) × (is_unknown book.now.boxes name.now ≡ true)) }
{
    match book.known(name) {
        Some(_) => Ok(()),
        None => Err(Reason::NoMailbox),
    }
}

// The target of a message that is in a mailbox, as the user sees it.
fn found(alloc: Global, book: &Book, name: &BoxName, id: Ident) -> Result<Target, Refusal>
    ensures { Found name.now id (meaning book.now) result }
{
    is_known(book, name)?;
    if !is_shown(alloc, book, name, id)? {
        return Err(Refusal::from(Reason::NoMessage));
    }
    match target_of(book, name, id) {
        Some(target) => Ok(target),
        None => Err(Refusal::from(Reason::NoMessage)),
    }
}

// The target of a message of a mailbox. `None` where it is a UID, and the mailbox has no cache.
fn target_of(book: &Book, name: &BoxName, id: Ident) -> Option<Target>
    ensures { result ≡ target_of (meaning book.now) name.now id }
{
    match id {
        Ident::Dummy(id) => Some(Target::Dummy(id)),
        Ident::Real(uid) => {
            let cache = book.known(name)?.cache.as_ref()?;
            Some(Target::Real {
                name: name.copy(),
                validity: cache.validity,
                uid,
            })
        }
    }
}

// The set of the flags' keys.
fn keys_of(alloc: Global, flags: &[String]) -> Result<FlagSet, FlagFault>
    ensures value { FlagsAsked (map string_bytes flags.now) result }
    ensures most { IfOk result (λ keys. length keys ≤ length flags.now) }
    ensures least { IfOk result (λ keys. 1 ≤ length flags.now → 1 ≤ length keys) }
{
    let mut keys = FlagSet::none(alloc);
    for flag in flags {
        add_flag(alloc, &mut keys, flag.as_str())?;
    }
    Ok(keys)
}

// Adds the key of a flag that a user may ask for.
fn add_flag(alloc: Global, keys: &mut FlagSet, flag: &str) -> Result<(), FlagFault>
    ensures good { OnOk result (is_bad_flag flag.now ≡ false) }
    ensures added { OnOk result (keys.new ≡ put (key_of flag.now) keys.old) }
    ensures bad { IfErr result (λ fault. (fault ≡ FlagFault.Memory → ⊥) → is_bad_flag flag.now ≡ true) }
{
    let key = FlagKey::asked(alloc, flag.as_bytes())?;
    keys.add(key)?;
    Ok(())
}

// Whether fewer actions are unsettled than may be.
fn has_room(queue: &Queue) -> Result<(), Reason>
    ensures room { OnOk result (is_full queue.now.items ≡ false) }
    ensures full { IfErr result (λ reason. (reason ≡ reasons.QueueFull) × (is_full queue.now.items ≡ true)) }
{
    if open_len(queue.as_slice()) >= MAX_QUEUE {
        return Err(Reason::QueueFull);
    }
    Ok(())
}

/// The number of the next action, where the queue takes one more.
pub fn next_id(queue: &Queue) -> Result<ActionId, Refusal>
    ensures { HasNumber queue.now.items result }
{
    if queue.len() >= MAX_ACTIONS {
        return Err(Refusal::Actions);
    }
    match ActionId::new(queue.len() as u32 + 1) {
        Some(id) => Ok(id),
        None => Err(Refusal::Actions),
    }
}

// How many actions are unsettled.
fn open_len(queue: &[Queued]) -> usize
    ensures { result ≡ open_len queue.now }
{
    let mut count = 0;
    for queued in queue {
        if queued.outcome.is_some() {
            continue;
        }
        count += 1;
    }
    count
}

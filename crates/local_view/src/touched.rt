//! What the actions so far changed of the cached messages, and the messages that they made.

ghost use Rattle.std.specs.Prelude.{◌≡◌, ℕ, List, None, Some, IsSome, OnOk, OnSome};
ghost use Rattle.std.specs.Map.{update};
ghost use Rattle.std.specs.Option.{option_copied, option_map};
ghost use Rattle.action_queue.specs.declared.book.Known.{Known as KnownBox};
ghost use Rattle.local_view.specs.Messages.{is_same};
ghost use Rattle.local_view.specs.Sights.{cached, dummy, put, with_flags};
ghost use Rattle.local_view.specs.Touching.{place_of, seen_so_far, left_of, left_as, AreSame, kept_at};
ghost use Rattle.local_view.specs.declared.message.Message.TheVariants as message;

use crate::Message;
use action_queue::Known;
use flag_set::FlagSet;
use mail_base::{ActionId, BoxName};
use mailbox_cache::Row;
use std::alloc::{AllocError, Global};
use std::collections::BTreeMap;
use uid_sets::Uid;

/// Of the cached messages that an action touched, by the mailbox's place in the book and the UID: the flags as they are now, or
/// that the message is gone. And the messages that actions made and that are still there, by number, with their flags.
#[derive(Drop)]
pub(crate) struct Touched {
    pub(crate) cached: BTreeMap<(usize, u32), Option<FlagSet>>,
    pub(crate) made: BTreeMap<u32, FlagSet>,
}

impl Touched {
    /// Nothing is touched, and nothing made. It takes no memory.
    pub(crate) fn new(alloc: Global) -> Touched
        ensures { (boxes : List KnownBox) → AreSame (seen_so_far boxes result) (cached boxes) }
    {
        Touched {
            cached: BTreeMap::new(alloc),
            made: BTreeMap::new(alloc),
        }
    }

    /// The flags of a message that is there.
    pub(crate) fn flags<'a>(&'a self, boxes: &'a [Known], message: &Message) -> Option<&'a FlagSet>
        ensures { option_copied result ≡ option_map (λ sight. sight.flags) (seen_so_far boxes.now self.now message.now) }
    {
        match message {
            Message::Cached { name, uid } => self.flags_in(boxes, name, *uid),
            Message::Made(id) => self.made.get(&id.number()),
        }
    }

    // The flags of a cached message that is there.
    fn flags_in<'a>(&'a self, boxes: &'a [Known], name: &BoxName, uid: Uid) -> Option<&'a FlagSet>
        ensures { option_copied result ≡ option_map (λ sight. sight.flags) (seen_so_far boxes.now self.now (message.Cached name.now uid)) }
    {
        let at = place_of(boxes, name)?;
        let cache = boxes.get(at)?.cache.as_ref()?;
        let row = cache.rows.get(uid)?;
        self.left_of(at, uid, row)
    }

    /// The flags of a cached row, where its message is still there.
    pub(crate) fn left_of<'a>(&'a self, at: usize, uid: Uid, row: &'a Row) -> Option<&'a FlagSet>
        ensures { option_copied result ≡ option_map (λ sight. sight.flags) (left_of (kept_at self.now (Some at) uid) row.now) }
    {
        match self.cached.get(&(at, uid.number())) {
            Some(Some(flags)) => Some(flags),
            Some(None) => None,
            None => Some(&row.flags),
        }
    }

    /// Gives a message that is there these flags. On want of memory nothing is known of what is seen.
    pub(crate) fn turn(
        &mut self,
        boxes: &[Known],
        message: &Message,
        flags: FlagSet,
    ) -> Result<(), AllocError>
        requires { IsSome (seen_so_far boxes.now self.old message.now) }
        ensures { OnOk result (AreSame (seen_so_far boxes.now self.new)
            (put message.now (option_map (with_flags flags) (seen_so_far boxes.now self.old message.now)) (seen_so_far boxes.now self.old))) }
    {
        match message {
            Message::Cached { name, uid } => self.keep(boxes, name, *uid, Some(flags)),
            Message::Made(id) => self.make(*id, flags),
        }
    }

    /// Takes a message away.
    pub(crate) fn take(&mut self, boxes: &[Known], message: &Message) -> Result<(), AllocError>
        ensures { OnOk result (AreSame (seen_so_far boxes.now self.new) (put message.now None (seen_so_far boxes.now self.old))) }
    {
        match message {
            Message::Cached { name, uid } => self.keep(boxes, name, *uid, None),
            Message::Made(id) => {
                self.made.remove(&id.number());
                Ok(())
            }
        }
    }

    /// A message is made.
    pub(crate) fn make(&mut self, id: ActionId, flags: FlagSet) -> Result<(), AllocError>
        ensures { (boxes : List KnownBox) → OnOk result (AreSame (seen_so_far boxes self.new)
            (put (message.Made id) (Some (dummy flags)) (seen_so_far boxes self.old))) }
    {
        self.made.insert(id.number(), flags)?;
        Ok(())
    }

    // Keeps what is left of a cached message.
    fn keep(
        &mut self,
        boxes: &[Known],
        name: &BoxName,
        uid: Uid,
        left: Option<FlagSet>,
    ) -> Result<(), AllocError>
        requires { OnSome left (IsSome (seen_so_far boxes.now self.old (message.Cached name.now uid))) }
        ensures { OnOk result (AreSame (seen_so_far boxes.now self.new)
            (put (message.Cached name.now uid) (left_as left (seen_so_far boxes.now self.old (message.Cached name.now uid)))
            (seen_so_far boxes.now self.old))) }
    {
        if let Some(at) = place_of(boxes, name) {
            self.cached.insert((at, uid.number()), left)?;
        }
        Ok(())
    }
}

/// The place of the first mailbox of a name, counted from 0.
pub(crate) fn place_of(boxes: &[Known], name: &BoxName) -> Option<usize>
    ensures { result ≡ place_of name.now boxes.now }
{
    for (at, known) in boxes.iter().enumerate() {
        if known.name == *name {
            return Some(at);
        }
    }
    None
}

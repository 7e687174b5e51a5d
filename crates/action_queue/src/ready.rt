//! An event is made ready before it is written, and entered without memory once it is on the disk.

ghost use Rattle.std.specs.Prelude.{◌≡◌, ◌<◌, ◌∷◌, ◌++◌, [], length, slice_get, slice_set, IfOk, OnOk, Some, None, bytes_eq};
ghost use Rattle.std.specs.List.{position};
ghost use Rattle.action_queue.specs.Book.{meaning, after, learned, cache_at, cache_of, put_cache};
ghost use Rattle.action_queue.specs.declared.book.Known.{Known};
ghost use Rattle.action_queue.specs.Events.{IsLawful};
ghost use Rattle.action_queue.specs.Queues.{accepted, due_action, ended};
ghost use Rattle.action_queue.specs.Readiness.{IsReady, AtHand, HasRoom};
ghost use Rattle.action_queue.specs.Rules.{delta_of};
ghost use Rattle.action_queue.specs.declared.event.Event.TheVariants as events;

use crate::{Action, Book, Event, Known, Outcome};
use mail_base::{ActionId, BoxName, List, MAX_ACTIONS};
use mailbox_cache::{Cache, Delta, Room};
use std::alloc::{AllocError, Global};
use std::mem;

/// An event with what it needs to be entered: where a mailbox with a cache is told rows, room for these and for its own.
#[derive(Drop)]
pub struct Ready {
    pub event: Event,
    pub room: Room,
}

impl Book {
    /// Makes an event ready to be entered: takes room for one more action, or, where a mailbox with a cache is told rows, for
    /// all its rows and the told ones. No row is copied. The book's meaning stays. Fails for want of memory alone.
    pub fn prepare(&mut self, event: Event) -> Result<Ready, AllocError>
        requires { IsLawful (meaning self.old) event }
        ensures same { meaning self.new ≡ meaning self.old }
        ensures event { IfOk result (λ ready. ready.event ≡ event) }
        ensures ready { IfOk result (λ ready. IsReady self.new ready.event ready.room) }
    {
        let room = self.need(&event)?;
        Ok(Ready { event, room })
    }

    // What an event needs to be entered.
    fn need(&mut self, event: &Event) -> Result<Room, AllocError>
        requires { IsLawful (meaning self.old) event.now }
        ensures same { meaning self.new ≡ meaning self.old }
        ensures at_hand { IfOk result (AtHand self.new event.now) }
    {
        match event {
            Event::Accept { .. } | Event::Old { .. } => {
                self.queue.reserve()?;
                Ok(Room::none(self.queue.allocator()))
            }
            Event::Learn { name, delta } => self.room(name, delta),
            Event::Begin { .. }
            | Event::Intend { .. }
            | Event::Settle { .. }
            | Event::Reset { .. }
            | Event::Withdraw { .. } => Ok(Room::none(self.queue.allocator())),
        }
    }

    // The room that a mailbox's cache needs for a delta.
    fn room(&self, name: &BoxName, delta: &Delta) -> Result<Room, AllocError>
        ensures { IfOk result (HasRoom (cache_at name.now self.now.boxes) delta.now) }
    {
        match self.known(name) {
            Some(known) => room_in(self.queue.allocator(), &known.cache, delta),
            None => Ok(Room::none(self.queue.allocator())),
        }
    }

    /// Enters an event that was prepared on the book as it is. It takes no memory, and never fails.
    pub fn enter(&mut self, ready: Ready)
        requires { IsReady self.old ready.event ready.room }
        ensures { meaning self.new ≡ after (meaning self.old) ready.event }
    {
        self.enter_event(ready.event, ready.room);
    }

    // The same of an event and what it needs.
    fn enter_event(&mut self, event: Event, room: Room)
        requires { IsReady self.old event room }
        ensures { meaning self.new ≡ after (meaning self.old) event }
    {
        match event {
            Event::Begin { names: _names } => {}
            Event::Accept { id: _id, action } => self.queue.accept(action),
            Event::Intend { id: _id, intent } => self.pending = Some(intent),
            Event::Settle { id, outcome } => self.settle(id, outcome),
            Event::Learn { name, delta } => self.learn(&name, delta, room),
            Event::Old {
                id: _id,
                action,
                outcome,
            } => self.queue.add_ended(action, outcome),
            Event::Reset {
                name,
                kept: _kept,
                told: _told,
            } => self.forget(&name),
            Event::Withdraw { id, tries } => self.withdraw(id, tries),
        }
    }

    /// Gives the action that is due its outcome. It takes no memory, and never fails.
    pub fn settle(&mut self, id: ActionId, outcome: Outcome)
        requires { IsLawful (meaning self.old) (events.Settle id outcome) }
        ensures { meaning self.new ≡ after (meaning self.old) (events.Settle id outcome) }
    {
        self.queue.settle(outcome);
        self.pending = None;
    }

    /// Takes the command of the action that is due back, so that it may be tried once more, behind this many that were taken
    /// back. It takes no memory, and never fails.
    pub fn withdraw(&mut self, id: ActionId, tries: u8)
        requires { IsLawful (meaning self.old) (events.Withdraw id tries) }
        ensures { meaning self.new ≡ after (meaning self.old) (events.Withdraw id tries) }
    {
        self.queue.withdraw(tries);
        let _intent = self.pending.take();
    }

    /// Enters an event that stands in the journal already, and moves what it holds. For want of memory, which alone
    /// fails it, the book is no more that of the events, and is to be given up.
    pub fn follow(&mut self, event: Event) -> Result<(), AllocError>
        requires { IsLawful (meaning self.old) event }
        ensures { OnOk result (meaning self.new ≡ after (meaning self.old) event) }
    {
        match event {
            Event::Begin { names: _names } => Ok(()),
            Event::Accept { id: _id, action } => self.follow_action(action),
            Event::Intend { id: _id, intent } => {
                self.pending = Some(intent);
                Ok(())
            }
            Event::Settle { id, outcome } => {
                self.settle(id, outcome);
                Ok(())
            }
            Event::Learn { name, delta } => self.follow_delta(&name, delta),
            Event::Old {
                id: _id,
                action,
                outcome,
            } => self.follow_ended(action, outcome),
            Event::Reset {
                name,
                kept: _kept,
                told: _told,
            } => {
                self.forget(&name);
                Ok(())
            }
            Event::Withdraw { id, tries } => {
                self.withdraw(id, tries);
                Ok(())
            }
        }
    }

    // Puts an action behind the others.
    fn follow_action(&mut self, action: Action) -> Result<(), AllocError>
        requires few { length self.old.queue.items < MAX_ACTIONS }
        ensures queue { OnOk result (self.new.queue.items ≡ self.old.queue.items ++ accepted action ∷ []) }
        ensures boxes { self.new.boxes ≡ self.old.boxes }
        ensures pending { self.new.pending ≡ self.old.pending }
    {
        self.queue.reserve()?;
        self.queue.accept(action);
        Ok(())
    }

    // Puts an action that ended behind the others.
    fn follow_ended(&mut self, action: Action, outcome: Outcome) -> Result<(), AllocError>
        requires few { length self.old.queue.items < MAX_ACTIONS }
        requires all { due_action self.old.queue.items ≡ None }
        ensures queue { OnOk result (self.new.queue.items ≡ self.old.queue.items ++ ended action outcome ∷ []) }
        ensures boxes { self.new.boxes ≡ self.old.boxes }
        ensures pending { self.new.pending ≡ self.old.pending }
    {
        self.queue.reserve()?;
        self.queue.add_ended(action, outcome);
        Ok(())
    }

    // Changes a mailbox's cache by a delta.
    fn follow_delta(&mut self, name: &BoxName, delta: Delta) -> Result<(), AllocError>
        requires { delta_of (cache_at name.now self.old.boxes) delta ≡ None }
        ensures boxes { OnOk result (self.new.boxes ≡ put_cache name.now (Some (learned (cache_at name.now self.old.boxes) delta)) self.old.boxes) }
        ensures queue { self.new.queue ≡ self.old.queue }
        ensures pending { self.new.pending ≡ self.old.pending }
    {
        let room = self.room(name, &delta)?;
        self.learn(name, delta, room);
        Ok(())
    }

    // Takes a mailbox's cache away.
    fn forget(&mut self, name: &BoxName)
        ensures boxes { self.new.boxes ≡ put_cache name.now None self.old.boxes }
        ensures queue { self.new.queue ≡ self.old.queue }
        ensures pending { self.new.pending ≡ self.old.pending }
    {
        let none = List::new(self.queue.allocator());
        let boxes = mem::replace(&mut self.boxes, none);
        self.boxes = without_cache(boxes, name);
    }

    // Changes a mailbox's cache by a delta, with the room that it needs.
    fn learn(&mut self, name: &BoxName, delta: Delta, room: Room)
        requires fits { delta_of (cache_at name.now self.old.boxes) delta ≡ None }
        requires room { HasRoom (cache_at name.now self.old.boxes) delta room }
        ensures boxes { self.new.boxes ≡ put_cache name.now (Some (learned (cache_at name.now self.old.boxes) delta)) self.old.boxes }
        ensures queue { self.new.queue ≡ self.old.queue }
        ensures pending { self.new.pending ≡ self.old.pending }
    {
        let none = List::new(self.queue.allocator());
        let boxes = mem::replace(&mut self.boxes, none);
        self.boxes = with_delta(boxes, name, delta, room);
    }
}

// The room that a cache needs for a delta, where there is one.
fn room_in(alloc: Global, cache: &Option<Cache>, delta: &Delta) -> Result<Room, AllocError>
    ensures { IfOk result (HasRoom cache.now delta.now) }
{
    match cache {
        Some(cache) => cache.room(delta),
        None => Ok(Room::none(alloc)),
    }
}

// The mailboxes with the cache of this name after a delta.
fn with_delta(boxes: List<Known>, name: &BoxName, delta: Delta, room: Room) -> List<Known>
    requires fits { delta_of (cache_at name.now boxes) delta ≡ None }
    requires room { HasRoom (cache_at name.now boxes) delta room }
    ensures { result ≡ put_cache name.now (Some (learned (cache_at name.now boxes) delta)) boxes }
{
    let Some(at) = place_of(boxes.as_slice(), name) else {
        return boxes;
    };
    let mut content = boxes.into_vec();
    let old = take_cache(&mut content, at);
    let cache = Some(moved_by(old, delta, room));
    let name = name.copy();
    let mut boxes = List::of(content);
    boxes.put(at, Known { name, cache });
    boxes
}

// The mailboxes without the cache of this name.
fn without_cache(boxes: List<Known>, name: &BoxName) -> List<Known>
    ensures { result ≡ put_cache name.now None boxes }
{
    let Some(at) = place_of(boxes.as_slice(), name) else {
        return boxes;
    };
    let mut boxes = boxes;
    let name = name.copy();
    boxes.put(at, Known { name, cache: None });
    boxes
}

// Takes the cache of the mailbox at this place.
fn take_cache(boxes: &mut Vec<Known>, at: usize) -> Option<Cache>
    requires { at < length boxes.old.items }
    ensures value { result ≡ cache_of (slice_get boxes.old.items at) }
    ensures others { (known : Known) → slice_set boxes.new.items at known ≡ slice_set boxes.old.items at known }
    ensures len { length boxes.new.items ≡ length boxes.old.items }
{
    boxes[at].cache.take()
}

// The cache after a delta, where there is one or none, which are given up.
fn moved_by(cache: Option<Cache>, delta: Delta, room: Room) -> Cache
    requires fits { delta_of cache delta ≡ None }
    requires room { HasRoom cache delta room }
    ensures { result ≡ learned cache delta }
{
    match cache {
        Some(cache) => cache.within(delta, room),
        None => Cache::of(delta),
    }
}

// The place of the first mailbox of this name.
fn place_of(boxes: &[Known], name: &BoxName) -> Option<usize>
    ensures { result ≡ position (λ known. bytes_eq known.name name.now) boxes.now }
{
    boxes.iter().position(|known| known.name == *name)
}

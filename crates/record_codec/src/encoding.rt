//! Writes the record of an event: the one spelling that it has.

ghost use Rattle.std.specs.Prelude.{◌≡◌, ◌≤◌, ◌++◌, OnOk, IfOk, length};
ghost use Rattle.std.specs.Int.{w32, to_be_bytes};
ghost use Rattle.std.specs.List.{flat_map, AllByRecursion};
ghost use Rattle.mail_base.specs.BoxName.{IsBoxName};
ghost use Rattle.uid_sets.specs.UidSet.{IsCanonical};
ghost use Rattle.mail_base.specs.Bodies.{IsBody, frame_of};
ghost use Rattle.action_queue.specs.Events.{AreNames};
ghost use Rattle.action_queue.specs.Writable.{IsWritable, IsWritableAction, HaveFewFlags};
ghost use Rattle.action_queue.specs.declared.event.Event.TheVariants as events;
ghost use Rattle.record_codec.specs.Fields.{sign, bit};
ghost use Rattle.record_codec.specs.Bodies.{body_of, action_fields, intent_fields, outcome_fields, mark_fields, range_fields, row_fields, delta_fields};
ghost use Rattle.record_codec.specs.Spelling.{IsNumber, IsModSeq, IsKeptAction, IsKeptIntent, IsKeptRow, IsKeptDelta, IsKept, Spelled};

use crate::fields::{
    CLOSED, put_flags, put_name, put_names, put_ranges, put_rows, put_target, put_u32, put_u64,
};
use crate::outcome::outcome_bytes;
use crate::sizes::size;
use action_queue::{Action, Event, Intent};
use mail_base::{BoxName, Bytes, MAX_ROWS};
use mailbox_cache::{Delta, Row};
use std::alloc::{AllocError, Global};
use uid_sets::{Uid, UidSet};

/// The frame of an event's record: the body behind its length, and the next gate, closed. It takes memory once. Fails
/// for want of memory alone.
pub fn encode(alloc: Global, event: &Event) -> Result<Vec<u8>, AllocError>
    requires writable { IsWritable event.now }
    requires fits { length (body_of event.now) ≤ 1073741824 }
    ensures frame { IfOk result (λ frame. frame.items ≡ frame_of (body_of event.now)) }
    ensures body { IsBody (body_of event.now) }
    ensures spelled { OnOk result (Spelled (body_of event.now) event.now) }
{
    let size = size(event);
    let mut frame = Vec::with_capacity(alloc, size as usize + 5)?;
    put_u32(&mut frame, size as u32)?;
    put_body(&mut frame, event)?;
    frame.push(CLOSED)?;
    Ok(frame)
}

// The event's body.
fn put_body(out: &mut Vec<u8>, event: &Event) -> Result<(), AllocError>
    requires writable { IsWritable event.now }
    requires fits { length (body_of event.now) ≤ 1073741824 }
    ensures wrote { OnOk result (out.new.items ≡ out.old.items ++ body_of event.now) }
    ensures kept { OnOk result (IsKept event.now) }
{
    match event {
        Event::Begin { names } => put_begin(out, names.as_slice()),
        Event::Accept { id, action } => {
            out.push(b'A')?;
            put_u32(out, id.number())?;
            put_action(out, action)
        }
        Event::Intend { id, intent } => {
            out.push(b'I')?;
            put_u32(out, id.number())?;
            put_intent(out, intent)
        }
        Event::Settle { id, outcome } => {
            out.push(b'S')?;
            put_u32(out, id.number())?;
            out.extend_from_slice(&outcome_bytes(outcome))
        }
        Event::Learn { name, delta } => {
            out.push(b'L')?;
            put_name(out, name)?;
            put_delta(out, delta)
        }
        Event::Old {
            id,
            action,
            outcome,
        } => {
            out.push(b'O')?;
            put_u32(out, id.number())?;
            put_action(out, action)?;
            out.extend_from_slice(&outcome_bytes(outcome))
        }
        Event::Reset { name, kept, told } => {
            out.push(b'R')?;
            put_name(out, name)?;
            put_u32(out, kept.number())?;
            put_u32(out, told.number())
        }
        Event::Withdraw { id, tries } => {
            out.push(b'W')?;
            put_u32(out, id.number())?;
            out.push(*tries)?;
            Ok(())
        }
    }
}

// The body that a journal begins with.
fn put_begin(out: &mut Vec<u8>, names: &[BoxName]) -> Result<(), AllocError>
    requires { AreNames names.now }
    ensures wrote { OnOk result (out.new.items ≡ out.old.items ++ body_of (events.Begin names.now)) }
    ensures kept { OnOk result (AllByRecursion IsBoxName names.now) }
{
    out.push(b'B')?;
    out.push(names.len() as u8)?;
    put_names(out, names)
}

// What an action asks.
fn put_action(out: &mut Vec<u8>, action: &Action) -> Result<(), AllocError>
    requires writable { IsWritableAction action.now }
    requires fits { length (action_fields action.now) ≤ 1073741824 }
    ensures wrote { OnOk result (out.new.items ≡ out.old.items ++ action_fields action.now) }
    ensures kept { OnOk result (IsKeptAction action.now) }
{
    match action {
        Action::Flag { target, add, flags } => {
            out.push(b'F')?;
            put_target(out, target)?;
            out.push(sign_of(*add))?;
            put_flags(out, flags)
        }
        Action::Move { target, to } => {
            out.push(b'M')?;
            put_target(out, target)?;
            put_name(out, to)
        }
        Action::Append {
            to,
            flags,
            text,
            id: _id,
        } => {
            out.push(b'P')?;
            put_name(out, to)?;
            put_flags(out, flags)?;
            put_text(out, text)
        }
    }
}

// The byte that says whether flags are added.
fn sign_of(add: bool) -> u8
    ensures { result ≡ sign add }
{
    if add { b'+' } else { b'-' }
}

// A text behind its length in four bytes.
fn put_text(out: &mut Vec<u8>, text: &Bytes) -> Result<(), AllocError>
    requires { length text.now ≤ 1073741824 }
    ensures { OnOk result (out.new.items ≡ out.old.items ++ to_be_bytes w32 (length text.now) ++ text.now) }
{
    let text = text.as_slice();
    put_u32(out, text.len() as u32)?;
    out.extend_from_slice(text)
}

// What is about to be sent.
fn put_intent(out: &mut Vec<u8>, intent: &Intent) -> Result<(), AllocError>
    ensures wrote { OnOk result (out.new.items ≡ out.old.items ++ intent_fields intent.now) }
    ensures kept { OnOk result (IsKeptIntent intent.now) }
{
    match intent {
        Intent::Store {
            name,
            validity,
            uid,
            modseq,
        } => {
            out.push(b'S')?;
            put_name(out, name)?;
            put_u32(out, validity.number())?;
            put_u32(out, uid.number())?;
            put_u64(out, modseq.number())
        }
        Intent::Shift {
            from,
            validity,
            uid,
            to,
        } => {
            out.push(b'M')?;
            put_name(out, from)?;
            put_u32(out, validity.number())?;
            put_u32(out, uid.number())?;
            put_name(out, to)
        }
        Intent::Put {
            to,
            validity,
            uidnext,
        } => {
            out.push(b'P')?;
            put_name(out, to)?;
            put_u32(out, validity.number())?;
            put_u32(out, uidnext.number())
        }
    }
}

// What a mailbox became.
#[tactic(auto, unfolding(crate::specs::Bodies::delta_fields))]
fn put_delta(out: &mut Vec<u8>, delta: &Delta) -> Result<(), AllocError>
    requires few { length delta.now.rows ≤ MAX_ROWS }
    requires flags { HaveFewFlags delta.now.rows }
    ensures wrote { OnOk result (out.new.items ≡ out.old.items ++ delta_fields delta.now) }
    ensures kept { OnOk result (IsKeptDelta delta.now) }
{
    out.push(bit_of(delta.whole))?;
    put_mark(out, delta)?;
    put_vanished(out, &delta.vanished)?;
    put_row_list(out, delta.rows.as_slice())
}

// The numbers that a mailbox became.
#[tactic(auto, unfolding(crate::specs::Bodies::mark_fields))]
fn put_mark(out: &mut Vec<u8>, delta: &Delta) -> Result<(), AllocError>
    ensures wrote { OnOk result (out.new.items ≡ out.old.items ++ mark_fields delta.now) }
    ensures kept { OnOk result (IsNumber delta.now.validity × IsModSeq delta.now.highest × IsNumber delta.now.uidnext) }
{
    put_u32(out, delta.validity.number())?;
    put_u64(out, delta.highest.number())?;
    put_u32(out, delta.uidnext.number())
}

// The byte of a truth value.
fn bit_of(value: bool) -> u8
    ensures { result ≡ bit value }
{
    if value { 1 } else { 0 }
}

// The vanished ranges behind their count.
#[tactic(auto, unfolding(crate::specs::Bodies::range_fields))]
fn put_vanished(out: &mut Vec<u8>, vanished: &UidSet) -> Result<(), AllocError>
    ensures wrote { OnOk result (out.new.items ≡ out.old.items ++ range_fields vanished.now) }
    ensures kept { OnOk result (IsCanonical vanished.now) }
{
    put_u32(out, range_count(vanished))?;
    put_ranges(out, vanished.ranges())
}

// How many ranges a set has: fewer than there are UIDs.
#[tactic(auto, using(crate::proofs::Counts::few_ranges))]
fn range_count(set: &UidSet) -> u32
    ensures { result ≡ length set.now }
{
    set.ranges().len() as u32
}

// The rows behind their count.
#[tactic(auto, unfolding(crate::specs::Bodies::row_fields))]
fn put_row_list(out: &mut Vec<u8>, rows: &[(Uid, Row)]) -> Result<(), AllocError>
    requires few { length rows.now ≤ MAX_ROWS }
    requires flags { HaveFewFlags rows.now }
    ensures wrote { OnOk result (out.new.items ≡ out.old.items ++ row_fields rows.now) }
    ensures kept { OnOk result (AllByRecursion IsKeptRow rows.now) }
{
    put_u32(out, rows.len() as u32)?;
    put_rows(out, rows)
}

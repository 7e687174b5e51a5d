//! Reads responses.

ghost use Rattle.std.specs.Prelude.{◌≡◌, ◌≢◌, ◌<◌, ◌++◌, ◌+◌, [], ◌∷◌, ℕ, List, Option, Some, IfOk, OnOk, OnErr, IsErrOf, IsTrue, ◌↔◌, length};
ghost use Rattle.mail_base.specs.Frames.{FirstFault, NoWhole};
ghost use Rattle.mail_base.specs.declared.frame.FeedFault.{FeedFault};
ghost use Rattle.mail_base.specs.declared.frame.FeedFault.TheVariants as feeds;
ghost use Rattle.mail_base.specs.declared.frame.Frame.{Frame};
ghost use Rattle.literal_feed.specs.Stream.{NoFault};
ghost use Rattle.imap_response.specs.Within.{SpellsWithin};
ghost use Rattle.imap_model.specs.Responses.{Spells};
ghost use Rattle.imap_model.specs.Small.{IsSmall};
ghost use Rattle.imap_model.specs.declared.response.Response.{Response};
ghost use Rattle.imap_session.specs.Receiving.{Receives};
ghost use Rattle.imap_session.specs.Causes.{ReadingFails};
ghost use Rattle.imap_session.specs.Hearing.{Reads, ReadsLast};
ghost use Rattle.imap_session.specs.Faults.{Reading, LineBad, of_feed};
ghost use Rattle.imap_session.specs.Knowing.{IsEnd};
ghost use Rattle.imap_session.specs.Taken.{HeardLine, TookSome};
ghost use Rattle.imap_session.specs.Session.{Listening, Asked};
ghost use Rattle.imap_session.specs.declared.fault.SessionFault.{SessionFault};
ghost use Rattle.imap_session.specs.declared.fault.SessionFault.TheVariants as faults;

use crate::SessionFault;
use crate::listener::hear;
use crate::permits::Permits;
use imap_model::{Limit, Listen, Response};
use imap_response::{ResponseFault, read};
use literal_feed::Feed;
use mail_base::{FeedFault, Frame};
use std::alloc::{AllocError, Global};
use world_traits::{Clocked, Link, LinkFailed};

/// A response, and the line that spells it.
#[derive(Drop)]
pub struct Line {
    pub frame: Frame,
    pub response: Response,
}

// Puts a piece into the feed. A fault of the stream is told by `check`, once the lines in front of it were taken.
fn put_in(feed: &mut Feed, piece: &[u8]) -> Result<(), SessionFault>
    requires sound { NoFault feed.old }
    ensures put { OnOk result (feed.new ≡ record { at = feed.old.at; bytes = feed.old.bytes ++ piece.now }) }
    ensures why { (fault : SessionFault) → IsErrOf result fault → fault ≡ faults.Memory }
{
    match feed.push(piece) {
        Ok(()) => Ok(()),
        Err(FeedFault::Memory) => Err(SessionFault::Memory),
        Err(_) => Ok(()),
    }
}

// Tells the fault of what stands in the feed, if there is one.
fn check(feed: &mut Feed) -> Result<(), SessionFault>
    ensures kept { feed.new ≡ feed.old }
    ensures sound { OnOk result (NoFault feed.new) }
    ensures why { (fault : SessionFault) → IsErrOf result fault
        → (told : FeedFault) × (fault ≡ of_feed told)
        × (told ≢ feeds.Memory → ∥ FirstFault feed.new.at feed.new.bytes told ∥₁) }
{
    match feed.push(&[]) {
        Ok(()) => Ok(()),
        Err(fault) => Err(fed_badly(fault)),
    }
}

// Receives a piece of a reply that may have so many bytes.
fn receive<L: Link>(
    feed: &mut Feed,
    most: u32,
    left: &mut u64,
    link: &mut L,
) -> Result<(), SessionFault>
    requires owed { L.tells_server → Listening (L.clock link.old).now.outside (L.link link.old).connection feed.old }
    requires cut { NoWhole feed.old.bytes }
    requires sound { NoFault feed.old }
    ensures receives { Receives L.Clocked link.old link.new result }
    ensures reads { L.tells_files → (heard : List Response) (had : List ℕ) (most : ℕ)
        → Reads heard had most left.old (L.link link.old).connection feed.old
        → OnOk result (Reads heard had most left.new (L.link link.new).connection feed.new) }
    ensures why { L.tells_files → (heard : List Response) (had : List ℕ)
        → Reads heard had most left.old (L.link link.old).connection feed.old
        → (fault : SessionFault) → IsErrOf result fault
        → Reading heard had most (L.link link.new).connection fault }
    ensures unjudged { (at : ℕ) → IsErrOf result (faults.BadReply at) → ⊥ }
    ensures less { OnOk result (left.new < left.old) }
    ensures sum { OnOk result (length feed.new.bytes + left.new ≡ length feed.old.bytes + left.old) }
{
    let mut piece = [0; 4096];
    let count = link.recv(&mut piece)?;
    let size = count as u64;
    if *left < size {
        return Err(SessionFault::TooLarge {
            limit: Limit::Reply,
            number: u64::from(most) + 1,
        });
    }
    *left -= size;
    put_in(feed, &piece[..count])
}

fn fed_badly(fault: FeedFault) -> SessionFault
    ensures value { result ≡ of_feed fault }
{
    match fault {
        FeedFault::Memory => SessionFault::Memory,
        FeedFault::BareLf { at } => SessionFault::BadReply { at },
        FeedFault::LiteralTooLarge { asked, .. } => SessionFault::TooLarge {
            limit: Limit::Literal,
            number: asked,
        },
        FeedFault::LineTooLong { .. } => SessionFault::TooLarge {
            limit: Limit::Line,
            number: 1_048_577,
        },
    }
}

// The response that a frame spells.
fn line_of(alloc: Global, frame: Frame) -> Result<Line, SessionFault>
    ensures frame { IfOk result (λ line. line.frame ≡ frame) }
    ensures spells { IfOk result (λ line. Spells frame line.response × SpellsWithin frame line.response) }
    ensures small { IfOk result (λ line. IsSmall line.response) }
    ensures why { (fault : SessionFault) → IsErrOf result fault → LineBad frame fault }
{
    match read(alloc, &frame) {
        Ok(response) => Ok(Line { frame, response }),
        Err(ResponseFault::Memory) => Err(SessionFault::Memory),
        Err(ResponseFault::BadForm { .. }) => Err(SessionFault::BadReply { at: frame.at }),
        Err(ResponseFault::TooLarge { limit, number }) => Err(SessionFault::TooLarge {
            limit,
            number,
        }),
    }
}

/// Waits for the next response of a reply that may have so many bytes, of which so many are left.
pub fn next<L: Link>(
    alloc: Global,
    feed: &mut Feed,
    most: u32,
    left: &mut u64,
    link: &mut L,
) -> Result<Line, SessionFault>
    requires owed { L.tells_server → Listening (L.clock link.old).now.outside (L.link link.old).connection feed.old }
    ensures receives { Receives L.Clocked link.old link.new result }
    ensures reads { L.tells_files → (heard : List Response) (had : List ℕ) (most : ℕ)
        → Reads heard had most left.old (L.link link.old).connection feed.old
        → IfOk result
        (λ line. ReadsLast (heard ++ line.response ∷ []) line.frame had most left.new (L.link link.new).connection
        feed.new) }
    ensures spells { IfOk result (λ line. Spells line.frame line.response) }
    ensures small { IfOk result (λ line. IsSmall line.response) }
    ensures less { IfOk result (λ _. length feed.new.bytes + left.new < length feed.old.bytes + left.old) }
    ensures why { L.tells_files → (heard : List Response) (had : List ℕ)
        → Reads heard had most left.old (L.link link.old).connection feed.old
        → (fault : SessionFault) → IsErrOf result fault
        → Reading heard had most (L.link link.new).connection fault }
    ensures honest { L.tells_server → (at : ℕ) → IsErrOf result (faults.BadReply at) → ⊥ }
{
    loop {
        if let Some(frame) = feed.take()? {
            return line_of(alloc, frame);
        }
        check(feed)?;
        receive(feed, most, left, link)?;
    }
}

// Whether a response ends a reply. Where a text is arriving, a request to go on does.
fn ends(part: bool, response: &Response) -> bool
    ensures { IsTrue result ↔ IsEnd part response.now }
{
    match response {
        Response::Done { .. } | Response::Bye => true,
        Response::Go => part,
        Response::Untagged { .. }
        | Response::Preauth { .. }
        | Response::Capability(_)
        | Response::Enabled(_)
        | Response::Exists(_)
        | Response::Fetch(_)
        | Response::Vanished { .. }
        | Response::Found(_)
        | Response::Other => false,
    }
}

/// Reads up to a response that ends the reply, and hands each one before it to the listener as it comes.
pub fn listen<L: Link, H: Listen>(
    alloc: Global,
    feed: &mut Feed,
    most: u32,
    left: &mut u64,
    link: &mut L,
    heard: &mut H,
    permits: &mut Option<Permits>,
    part: bool,
) -> Result<Line, SessionFault>
    requires asked { L.tells_server → Asked part (L.clock link.old) (L.link link.old).connection feed.old }
    ensures receives { Receives L.Clocked link.old link.new result }
    ensures heard { IfOk result (HeardLine L.Clocked H.Stands part link.old link.new left.old left.new
        feed.old feed.new heard.old heard.new permits.old permits.new) }
    ensures ends { IfOk result (λ line. IsEnd part line.response) }
    ensures spells { IfOk result (λ line. Spells line.frame line.response) }
    ensures small { IfOk result (λ line. IsSmall line.response) }
    ensures some { OnErr result (TookSome H.Stands heard.old heard.new) }
    ensures why { L.tells_files → (heard : List Response) (had : List ℕ)
        → Reads heard had most left.old (L.link link.old).connection feed.old
        → (fault : SessionFault) → IsErrOf result fault
        → ReadingFails part heard had most (L.link link.new).connection fault }
    ensures honest { L.tells_server → (at : ℕ) → IsErrOf result (faults.BadReply at) → ⊥ }
{
    loop {
        let line = next(alloc, feed, most, left, link)?;
        if ends(part, &line.response) {
            return Ok(line);
        }
        hear(heard, permits, line.response)?;
    }
}

//! One command and its whole reply.

ghost use Rattle.std.specs.Prelude.{◌≡◌, ◌≢◌, ◌<◌, ◌++◌, ◌+◌, ◌-◌, [], ◌∷◌, ℕ, List, Option, Some, None, IfOk, OnOk, OnErr, IsErrOf, IsTrue, length, take, drop, MatchOption, IfSome, IfNone, true, false};
ghost use Rattle.imap_model.specs.CommandText.{IsWritable, parts_of};
ghost use Rattle.imap_model.specs.Held.{IsSent};
ghost use Rattle.imap_model.specs.Small.{IsSmall, IsSmallCode};
ghost use Rattle.imap_model.specs.declared.response.Response.{Response};
ghost use Rattle.imap_model.specs.declared.response.Response.TheVariants as responses;
ghost use Rattle.imap_model.specs.declared.ending.Ending.TheVariants as endings;
ghost use Rattle.world_traits.specs.Moments.{Clock};
ghost use Rattle.imap_session.specs.Sending.{GoesOn, IsEarly, Sends};
ghost use Rattle.imap_session.specs.Exchange.{FailsFor, IsHeard, Talks};
ghost use Rattle.imap_session.specs.Causes.{Fails};
ghost use Rattle.imap_session.specs.Hearing.{Reads};
ghost use Rattle.imap_session.specs.Faults.{HasParts, IsCount, Unfit, more_parts};
ghost use Rattle.imap_session.specs.Knowing.{IsEnd};
ghost use Rattle.imap_session.specs.Permanent.{behind_code, permitted};
ghost use Rattle.imap_session.specs.Replying.{read_as};
ghost use Rattle.imap_session.specs.Taken.{HeardPart, HeardStart, TookSome};
ghost use Rattle.imap_session.specs.Sent.{joined};
ghost use Rattle.imap_session.specs.Session.{Follows, IsReady, KeepsSelection, Stands, waiting_of};
ghost use Rattle.imap_session.specs.declared.fault.SessionFault.{SessionFault};
ghost use Rattle.imap_session.specs.declared.fault.SessionFault.TheVariants as faults;

use crate::SessionFault;
use crate::listening::{Line, listen};
use crate::most::most_of;
use crate::permits::{Permits, behind_code};
use imap_command::write;
use imap_model::{Command, Ending, Last, Listen, Response};
use literal_feed::Feed;
use mail_base::{Bytes, Tag};
use std::alloc::{AllocError, Global};
use world_traits::{Clocked, Link, LinkFailed};

/// What the last line of a reply says: the completion of this command. Where a part of it is awaited, OK is none.
pub fn finish(line: Line, tag: Tag, early: bool) -> Result<Last, SessionFault>
    requires ended { IsEnd false line.response }
    ensures value { IfOk result (λ d. line.response ≡ responses.Done tag d.ending d.code) }
    ensures accepted { IfOk result (λ d. IsCount tag → d.ending ≡ endings.Ok) }
    ensures refused { IsTrue early → IfOk result (λ d. d.ending ≢ endings.Ok) }
    ensures small { IsSmall line.response → IfOk result (λ d. IsSmallCode d.code) }
    ensures why { (fault : SessionFault) → IsErrOf result fault
        → Unfit tag (IsTrue early) line.frame line.response fault }
{
    let Line { frame, response } = line;
    match response {
        Response::Done {
            tag: told,
            ending,
            code,
        } => {
            if told != tag {
                return Err(SessionFault::BadReply { at: frame.at });
            }
            if ending == Ending::Ok {
                if early {
                    return Err(SessionFault::BadReply { at: frame.at });
                }
            } else if let Tag::Count(_) = tag {
                return Err(SessionFault::Refused { line: frame.bytes });
            }
            Ok(Last { ending, code })
        }
        Response::Bye => Err(SessionFault::Refused { line: frame.bytes }),
        _ => unreachable!(),
    }
}

// One of the parts.
fn part_at(parts: &[Bytes], index: usize) -> &[u8]
    requires { index < length parts.now }
    ensures cut { parts.now ≡ take index parts.now ++ result.now ∷ drop (index + 1) parts.now }
    ensures more { take (index + 1) parts.now ≡ take index parts.now ++ result.now ∷ [] }
{
    parts[index].as_slice()
}

// What a line means for which the client waited behind a part: the server asks for the next one, or has answered.
fn turned(line: Line, tag: Tag) -> Result<Option<Last>, SessionFault>
    requires ended { IsEnd true line.response }
    ensures value { IfOk result (λ o. MatchOption o (line.response ≡ responses.Go)
        (λ d. line.response ≡ responses.Done tag d.ending d.code)) }
    ensures early { IfOk result (λ o. IfSome o (λ d. IsEarly tag d.ending)) }
    ensures small { IsSmall line.response → IfOk result (λ o. IfSome o (λ d. IsSmallCode d.code)) }
    ensures why { (fault : SessionFault) → IsErrOf result fault
        → Unfit tag (IsTrue true) line.frame line.response fault }
{
    if let Response::Go = line.response {
        return Ok(None);
    }
    let done = finish(line, tag, true)?;
    Ok(Some(done))
}

// Sends a part that isn't the last, and waits until the server asks for the next one, or answers.
fn send_on<L: Link, H: Listen>(
    alloc: Global,
    feed: &mut Feed,
    most: u32,
    left: &mut u64,
    link: &mut L,
    heard: &mut H,
    permits: &mut Option<Permits>,
    tag: Tag,
    command: &Command,
    part: &[u8],
) -> Result<Option<Last>, SessionFault>
    requires ready { L.tells_server → (selected : Option (List ℕ)) × (before : List (List ℕ)) × (next : List ℕ)
        × (behind : List (List ℕ)) × (old : Clock)
        × IsReady (waiting_of selected tag command.now) before part.now (next ∷ behind) old (L.clock link.old)
        (L.link link.old).connection feed.old }
    requires keeps { KeepsSelection command.now }
    ensures sends { Sends L.Clocked part.now link.old link.new result }
    ensures goes_on { L.tells_server → (selected : Option (List ℕ)) (before : List (List ℕ)) (next : List ℕ)
        (behind : List (List ℕ)) (start : Clock)
        → IsReady (waiting_of selected tag command.now) before part.now (next ∷ behind) start (L.clock link.old)
        (L.link link.old).connection feed.old
        → GoesOn L.Clocked (waiting_of selected tag command.now) start link.old link.new result }
    ensures heard { IfOk result (HeardPart L.Clocked H.Stands tag command.now part.now link.old link.new left.old left.new
        feed.old feed.new heard.old heard.new permits.old permits.new) }
    ensures early { IfOk result (λ o. IfSome o (λ d. IsEarly tag d.ending)) }
    ensures small { IfOk result (λ o. IfSome o (λ d. IsSmallCode d.code)) }
    ensures some { OnErr result (TookSome H.Stands heard.old heard.new) }
    ensures why { L.tells_files → (heard : List Response) (had : List ℕ)
        → Reads heard had most left.old (L.link link.old).connection feed.old → (fault : SessionFault)
        → IsErrOf result fault
        → Fails heard tag 1 had most (L.link link.new).connection fault }
{
    link.send(part)?;
    let line = listen(alloc, feed, most, left, link, heard, permits, true)?;
    turned(line, tag)
}

// Sends the parts of a command. Where the server answers before the last one, that is given.
fn begin<L: Link, H: Listen>(
    alloc: Global,
    feed: &mut Feed,
    most: u32,
    left: &mut u64,
    link: &mut L,
    heard: &mut H,
    permits: &mut Option<Permits>,
    tag: Tag,
    command: &Command,
    parts: &[Bytes],
) -> Result<Option<Last>, SessionFault>
    requires text { parts.now ≡ parts_of tag command.now }
    requires some { 0 < length parts.now }
    requires held { IsSent tag command.now }
    requires keeps { HasParts tag command.now → KeepsSelection command.now }
    requires stands { L.tells_server → (selected : Option (List ℕ)) × Stands selected (L.clock link.old)
        (L.link link.old).connection feed.old }
    ensures talks { Talks L.Clocked tag command.now link.old link.new result }
    ensures heard { IfOk result (HeardStart L.Clocked H.Stands tag command.now parts.now link.old link.new left.old
        left.new feed.old feed.new heard.old heard.new permits.old permits.new) }
    ensures early { IfOk result (λ o. IfSome o (λ d. IsEarly tag d.ending)) }
    ensures small { IfOk result (λ o. IfSome o (λ d. IsSmallCode d.code)) }
    ensures some { OnErr result (TookSome H.Stands heard.old heard.new) }
    ensures why { L.tells_files → (heard : List Response) (had : List ℕ)
        → Reads heard had most left.old (L.link link.old).connection feed.old → (fault : SessionFault)
        → IsErrOf result fault
        → Fails heard tag (more_parts tag command.now) had most (L.link link.new).connection fault }
    ensures whole { L.tells_files
        → IfOk result (λ o. IfNone o ((L.link link.new).sent ≡ (L.link link.old).sent ++ joined parts.now)) }
{
    let last = parts.len() - 1;
    for index in 0..last {
        let part = part_at(parts, index);
        if let Some(done) = send_on(
            alloc, feed, most, left, link, heard, permits, tag, command, part,
        )? {
            return Ok(Some(done));
        }
    }
    let end = part_at(parts, last);
    link.send(end)?;
    Ok(None)
}

/// How a reply ended, and the PERMANENTFLAGS that counts behind it.
#[derive(Drop)]
pub struct Answer {
    pub last: Last,
    pub permits: Option<Permits>,
}

// What counts behind the completion.
fn conclude(permits: Option<Permits>, last: Last) -> Result<Answer, SessionFault>
    ensures last { IfOk result (λ a. a.last ≡ last) }
    ensures permits { IfOk result (λ a. a.permits ≡ behind_code permits last.code) }
    ensures why { (fault : SessionFault) → IsErrOf result fault → fault ≡ faults.Memory }
{
    let permits = behind_code(permits, &last.code)?;
    Ok(Answer { last, permits })
}

/// Sends a command and reads its whole reply, whose untagged responses the listener takes as they come. `permits` is the
/// PERMANENTFLAGS that counts in front of it.
pub fn exchange<L: Link, H: Listen>(
    alloc: Global,
    feed: &mut Feed,
    link: &mut L,
    tag: Tag,
    command: &Command,
    permits: Option<Permits>,
    heard: &mut H,
) -> Result<Answer, SessionFault>
    requires writable { IsWritable tag command.now }
    requires keeps { HasParts tag command.now → KeepsSelection command.now }
    requires follows { L.tells_files → Follows (L.link link.old).connection feed.old }
    requires stands { L.tells_server → (selected : Option (List ℕ)) × Stands selected (L.clock link.old)
        (L.link link.old).connection feed.old }
    ensures talks { Talks L.Clocked tag command.now link.old link.new result }
    ensures heard { IfOk result (λ a. (told : List Response)
        × IsHeard L.Clocked H.Stands tag command.now link.old link.new feed.old feed.new heard.old heard.new told a.last
        × (a.permits ≡ permitted permits (read_as told a.last.ending a.last.code))) }
    ensures some { OnErr result (TookSome H.Stands heard.old heard.new) }
    ensures fails { FailsFor L.Clocked tag command.now link.old link.new feed.old result }
{
    let parts = write(alloc, tag, command)?;
    let most = most_of(command);
    let mut left = u64::from(most);
    let mut counts = permits;
    let early = begin(
        alloc,
        feed,
        most,
        &mut left,
        link,
        heard,
        &mut counts,
        tag,
        command,
        parts.as_slice(),
    )?;
    if let Some(done) = early {
        return conclude(counts, done);
    }
    let line = listen(
        alloc,
        feed,
        most,
        &mut left,
        link,
        heard,
        &mut counts,
        false,
    )?;
    let done = finish(line, tag, false)?;
    conclude(counts, done)
}

/// Sends a command and reads its whole reply, whose untagged responses the listener takes, where no flags can be changed.
pub fn converse<L: Link, H: Listen>(
    alloc: Global,
    feed: &mut Feed,
    link: &mut L,
    tag: Tag,
    command: &Command,
    heard: &mut H,
) -> Result<Last, SessionFault>
    requires writable { IsWritable tag command.now }
    requires keeps { HasParts tag command.now → KeepsSelection command.now }
    requires follows { L.tells_files → Follows (L.link link.old).connection feed.old }
    requires stands { L.tells_server → (selected : Option (List ℕ)) × Stands selected (L.clock link.old)
        (L.link link.old).connection feed.old }
    ensures talks { Talks L.Clocked tag command.now link.old link.new result }
    ensures heard { IfOk result (λ last. (told : List Response)
        × IsHeard L.Clocked H.Stands tag command.now link.old link.new feed.old feed.new heard.old heard.new told last) }
    ensures some { OnErr result (TookSome H.Stands heard.old heard.new) }
    ensures still { L.tells_files → OnOk result (Follows (L.link link.new).connection feed.new) }
    ensures fails { FailsFor L.Clocked tag command.now link.old link.new feed.old result }
{
    let answer = exchange(alloc, feed, link, tag, command, None, heard)?;
    Ok(answer.last)
}

//! A session in any of its states (RFC 9051, section 3), and its calls, over a link that tells
//! nothing.

ghost use Rattle.std.specs.Prelude.{◌<◌, ◌+◌, IsTrue};
ghost use Rattle.imap_model.specs.CommandText.{IsCarried};
ghost use Rattle.imap_model.specs.Mutating.{is_mutating};
ghost use Rattle.imap_session.specs.Counting.{HasTag};
ghost use Rattle.imap_session.specs.Session.{IsAsked};

use crate::calls::Call;
use crate::faults::put_fault;
use crate::few::Few;
use crate::trial::kept;
use cases::{Answer, WordFault, put_code, put_name, put_response, put_tag, word_of_ending};
use imap_model::{Command, Replies};
use imap_session::{Chosen, Fresh, Greeted, Ready, SessionFault};
use mail_base::Tag;
use std::alloc::Global;
use std::mem;
use world_traits::{Clocked, Link};

/// The state of a session.
#[derive(Drop)]
pub enum Session {
    /// There is none, or it ended.
    None,
    Fresh(Fresh),
    Greeted(Greeted),
    Ready(Ready),
    Chosen(Chosen),
}

impl Session {
    /// Makes a call, and writes what it answers.
    ///
    /// # Errors
    /// Where the call is none of this state.
    pub fn make<L: Link>(
        &mut self,
        alloc: Global,
        link: &mut L,
        call: &Call,
        answer: &mut Answer,
    ) -> Result<(), WordFault>
        requires silent { L.tells_files → ⊥ }
        requires mute { L.tells_server → ⊥ }
    {
        let session = mem::replace(self, Session::None);
        let session = behind(alloc, session, link, call, answer)?;
        drop(mem::replace(self, session));
        Ok(())
    }
}

// The state behind a call.
fn behind<L: Link>(
    alloc: Global,
    session: Session,
    link: &mut L,
    call: &Call,
    answer: &mut Answer,
) -> Result<Session, WordFault>
    requires silent { L.tells_files → ⊥ }
    requires mute { L.tells_server → ⊥ }
{
    if let Call::Connect = call {
        drop(session);
        return told(answer, Fresh::connect(alloc, link).map(Session::Fresh));
    }
    match session {
        Session::None => Err(WordFault::Form),
        Session::Fresh(fresh) => greet(fresh, link, call, answer),
        Session::Greeted(greeted) => log_in(greeted, link, call, answer),
        Session::Ready(ready) => begin(ready, link, call, answer),
        Session::Chosen(chosen) => go_on(chosen, link, call, answer),
    }
}

// A call is none of this state.
fn unfit(session: Session) -> Result<Session, WordFault> {
    drop(session);
    Err(WordFault::Form)
}

// The session ended by a fault, which is told.
fn ended(answer: &mut Answer, fault: SessionFault) -> Result<Session, WordFault> {
    let done = put_fault(answer, &fault);
    drop(fault);
    kept(Session::None, done)
}

// What a call without replies answers, and the state behind it.
fn told(answer: &mut Answer, outcome: Result<Session, SessionFault>) -> Result<Session, WordFault> {
    match outcome {
        Ok(session) => kept(session, answer.word("ok")),
        Err(fault) => ended(answer, fault),
    }
}

// What is left behind a logout.
fn left(_: ()) -> Session {
    Session::None
}

// What a call with replies answers, and the state behind it.
fn replied(
    answer: &mut Answer,
    outcome: Result<(Chosen, Replies), SessionFault>,
) -> Result<Session, WordFault> {
    match outcome {
        Ok((chosen, replies)) => {
            let done = put_replies(answer, &replies);
            drop(replies);
            kept(Session::Chosen(chosen), done)
        }
        Err(fault) => ended(answer, fault),
    }
}

// Adds replies: how the completion ended, with its code, and each untagged response.
fn put_replies(answer: &mut Answer, replies: &Replies) -> Result<(), WordFault> {
    answer.word(word_of_ending(replies.ending))?;
    put_code(answer, &replies.code)?;
    for response in replies.untagged.as_slice() {
        answer.word(";")?;
        put_response(answer, response)?;
    }
    Ok(())
}

// A call of a connection that was made.
fn greet<L: Link>(
    fresh: Fresh,
    link: &mut L,
    call: &Call,
    answer: &mut Answer,
) -> Result<Session, WordFault>
    requires silent { L.tells_files → ⊥ }
    requires mute { L.tells_server → ⊥ }
{
    match call {
        Call::Greet => told(answer, fresh.greet(link).map(Session::Greeted)),
        _ => unfit(Session::Fresh(fresh)),
    }
}

// A call behind the greeting. A login takes three commands at most.
fn log_in<L: Link>(
    greeted: Greeted,
    link: &mut L,
    call: &Call,
    answer: &mut Answer,
) -> Result<Session, WordFault>
    requires silent { L.tells_files → ⊥ }
    requires mute { L.tells_server → ⊥ }
{
    if !greeted.has_room(3) {
        return unfit(Session::Greeted(greeted));
    }
    match call {
        Call::LogIn(account) => {
            told(
                answer,
                greeted.authenticate(link, account).map(Session::Greeted),
            )
        }
        Call::Enable => told(answer, greeted.enable(link).map(Session::Ready)),
        _ => unfit(Session::Greeted(greeted)),
    }
}

// A call where no mailbox is selected yet.
fn begin<L: Link>(
    ready: Ready,
    link: &mut L,
    call: &Call,
    answer: &mut Answer,
) -> Result<Session, WordFault>
    requires silent { L.tells_files → ⊥ }
    requires mute { L.tells_server → ⊥ }
{
    if !ready.has_room(1) {
        return unfit(Session::Ready(ready));
    }
    match call {
        Call::Select(name, since) => replied(answer, ready.select(link, name, *since)),
        Call::Leave => told(answer, ready.leave(link).map(left)),
        _ => unfit(Session::Ready(ready)),
    }
}

// A call where a mailbox is selected.
fn go_on<L: Link>(
    chosen: Chosen,
    link: &mut L,
    call: &Call,
    answer: &mut Answer,
) -> Result<Session, WordFault>
    requires silent { L.tells_files → ⊥ }
    requires mute { L.tells_server → ⊥ }
{
    if !chosen.has_room(1) {
        return unfit(Session::Chosen(chosen));
    }
    match call {
        Call::Select(name, since) => replied(answer, chosen.select(link, name, *since)),
        Call::Ask(tag, command) => ask(chosen, link, *tag, command, answer),
        Call::Hear(most, tag, command) => hear(chosen, link, *most, *tag, command, answer),
        Call::Leave => told(answer, chosen.leave(link).map(left)),
        _ => {
            let done = look(&chosen, call, answer);
            kept(Session::Chosen(chosen), done)
        }
    }
}

// Tells something of what is selected.
fn look(chosen: &Chosen, call: &Call, answer: &mut Answer) -> Result<(), WordFault> {
    match call {
        Call::Name => put_name(answer, chosen.name()),
        Call::NextTag => put_tag(answer, chosen.next_tag()),
        Call::Permits(flags) => answer.yes(chosen.permits(flags)),
        _ => Err(WordFault::Form),
    }
}

// Runs a command.
fn ask<L: Link>(
    chosen: Chosen,
    link: &mut L,
    tag: Tag,
    command: &Command,
    answer: &mut Answer,
) -> Result<Session, WordFault>
    requires silent { L.tells_files → ⊥ }
    requires mute { L.tells_server → ⊥ }
{
    if !fits(&chosen, tag, command) {
        return unfit(Session::Chosen(chosen));
    }
    replied(answer, chosen.ask(link, tag, command))
}

// Runs a command whose reply goes to a listener that refuses what comes behind so many responses,
// and tells how many it took.
fn hear<L: Link>(
    chosen: Chosen,
    link: &mut L,
    most: u64,
    tag: Tag,
    command: &Command,
    answer: &mut Answer,
) -> Result<Session, WordFault>
    requires silent { L.tells_files → ⊥ }
    requires mute { L.tells_server → ⊥ }
{
    if !fits(&chosen, tag, command) {
        return unfit(Session::Chosen(chosen));
    }
    let mut few = Few::new(most);
    let outcome = chosen.ask_into(link, tag, command, &mut few);
    let outcome = outcome.map(|told| Session::Chosen(told.0));
    let outcome = kept(outcome, put_taken(answer, &few))?;
    told(answer, outcome)
}

fn put_taken(answer: &mut Answer, few: &Few) -> Result<(), WordFault> {
    answer.word("took")?;
    answer.number(few.taken())
}

// Whether a command can be asked under the tag.
fn fits(chosen: &Chosen, tag: Tag, command: &Command) -> bool
    ensures asked { IsTrue result → IsAsked command.now }
    ensures tagged { IsTrue result → HasTag (is_mutating command.now) chosen.now.conversation.count tag }
    ensures carried { IsTrue result → IsCarried command.now }
    ensures room { IsTrue result → chosen.now.conversation.count + 1 < 4294967295 }
{
    if !chosen.has_room(1) || !is_asked(command) || !command.is_writable(tag) {
        return false;
    }
    is_tag(chosen, tag, command.is_mutating())
}

// Whether a command is one that `ask` takes.
fn is_asked(command: &Command) -> bool
    ensures { IsTrue result → IsAsked command.now }
{
    match command {
        Command::FetchAll
        | Command::FetchRow { .. }
        | Command::Search { .. }
        | Command::FetchIds { .. }
        | Command::FetchText { .. }
        | Command::Store { .. }
        | Command::Shift { .. }
        | Command::Copy { .. }
        | Command::Expunge { .. }
        | Command::Append { .. } => true,
        Command::Capability
        | Command::Login { .. }
        | Command::Plain { .. }
        | Command::Enable { .. }
        | Command::Select { .. }
        | Command::Logout => false,
    }
}

// Whether the tag is the one for a command that changes a mailbox, or for one that doesn't.
fn is_tag(chosen: &Chosen, tag: Tag, mutating: bool) -> bool
    ensures { IsTrue result → HasTag mutating chosen.now.conversation.count tag }
{
    if !mutating {
        return tag == chosen.next_tag();
    }
    match tag {
        Tag::Play(id) => id > 0,
        Tag::Again { id, turn } => id > 0 && (turn == 2 || turn == 3),
        Tag::Count(_) | Tag::Strange => false,
    }
}

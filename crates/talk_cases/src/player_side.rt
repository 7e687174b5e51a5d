//! A player beside its book, line by line.

use crate::player_book::{enter, settle, withdraw};
use crate::player_ear::Ear;
use crate::player_faults::put_fault;
use crate::player_needs::{command_of, is_learn, put_need};
use crate::player_telling::{choose, is_outdated, learnt, outdated, wants_rows};
use crate::said::{Who, said, whose};
use crate::trial::{Trial, kept};
use action_queue::{Book, Event};
use cases::{Answer, Fault, WordFault, differs, event, put_event, read_line, same_words};
use imap_model::Replies;
use playback::{Need, Player, Unheard};
use qresync_core::is_told_empty;
use std::alloc::{AllocError, Global};
use std::mem;

// What comes next.
#[derive(Clone, Copy)]
enum Owed {
    // A connection.
    Connection,
    // What the player needs.
    Nothing,
    // The rest of the command that it sends.
    Command,
    // The reply to a SELECT, and that to the FETCH of all rows where it is due.
    Mailbox,
    // What takes a cache away, which is recorded: the reply to the SELECT told a greater
    // UIDVALIDITY.
    Reset,
    // The reply to a question or to an action's command.
    Reply,
}

/// How what was told of a mailbox comes into its event.
#[derive(Clone, Copy)]
pub enum Way {
    /// `next` copies it, and `committed` goes on behind the record.
    Copied,
    /// `learn` moves it out.
    Moved,
}

/// A player, its book, and what the server says to it.
#[derive(Drop)]
pub struct PlayerSide {
    alloc: Global,
    way: Way,
    book: Box<Book>,
    player: Box<Player>,
    ear: Ear,
    owed: Owed,
    // What is still to be sent of a command.
    command: Vec<u8>,
    // The reply to a SELECT behind which the FETCH of all rows is due.
    selected: Option<Replies>,
    barred: bool,
    // Why the last reply wasn't taken, until a line tells it.
    fault: Option<Unheard>,
}

impl Trial for PlayerSide {
    // Takes a line that is given, or a command's line that is sent.
    fn line(&mut self, text: &str) -> Result<(), Fault> {
        match whose(text) {
            Some(Who::Server) => self.hear(&said(self.alloc, text)?),
            Some(Who::Client) => self.send(&said(self.alloc, text)?),
            None => self.act(text),
        }
    }

    // What is needed next is what the words say, and is recorded where it is to be; or they say
    // why the last reply isn't taken.
    fn due(&mut self, wanted: &str) -> Result<(), Fault> {
        if let Some(fault) = wanted.strip_prefix("fault ") {
            return self.tell_fault(fault);
        }
        self.check_fault()?;
        match self.owed {
            Owed::Nothing => self.need_next(wanted),
            Owed::Reset => self.reset(wanted),
            Owed::Connection | Owed::Command | Owed::Mailbox | Owed::Reply => Err(Fault::Form),
        }
    }

    // At a case's end no reply and no command is left open. A case may end with what is needed.
    fn end(&mut self) -> Result<(), Fault> {
        if !self.ear.is_silent() || matches!(self.owed, Owed::Command) {
            return Err(differs(self.alloc, b"a whole line or reply", b"the case's end"));
        }
        self.check_fault()
    }
}

impl PlayerSide {
    /// No connection began.
    pub fn new(alloc: Global, way: Way, book: Box<Book>) -> Result<PlayerSide, AllocError> {
        let player = Box::new(alloc, Player::begin(alloc, &book))?;
        Ok(PlayerSide {
            alloc,
            way,
            book,
            player,
            ear: Ear::new(alloc),
            owed: Owed::Connection,
            command: Vec::new(alloc),
            selected: None,
            barred: false,
            fault: None,
        })
    }

    fn act(&mut self, text: &str) -> Result<(), Fault> {
        match text {
            "trial player" => {}
            "connect" => self.connect()?,
            // The next reply is heard of a mailbox that doesn't keep the flags.
            "barred" => self.barred = true,
            _ => self.give(text)?,
        }
        Ok(())
    }

    // Rows that the server tells, or what was recorded before a connection.
    fn give(&mut self, text: &str) -> Result<(), Fault> {
        if let Some(uids) = text.strip_prefix("rows ") {
            return Ok(self.ear.hear_rows(uids)?);
        }
        let event = read_line(self.alloc, text, event)?;
        self.record(event, text)
    }

    // A reply that wasn't taken is told of.
    fn check_fault(&self) -> Result<(), Fault> {
        let Some(fault) = &self.fault else {
            return Ok(());
        };
        let told = shown_fault(self.alloc, fault)?;
        Err(differs(self.alloc, b"a reply that is taken", told.as_bytes()))
    }

    // A connection begins. The one before is lost, with all that was told in it.
    fn connect(&mut self) -> Result<(), Fault> {
        self.check_fault()?;
        drop(mem::replace(&mut *self.player, Player::begin(self.alloc, &self.book)));
        drop(mem::replace(&mut self.ear, Ear::new(self.alloc)));
        self.owed = Owed::Nothing;
        self.command.clear();
        drop(self.selected.take());
        self.barred = false;
        Ok(())
    }

    fn need_next(&mut self, wanted: &str) -> Result<(), Fault> {
        let need = self.player.next(&self.book)?;
        match self.is_moved(&need, wanted) {
            Ok(false) => self.record_need(need, wanted),
            Ok(true) => {
                drop(need);
                self.move_out(wanted)
            }
            Err(fault) => {
                drop(need);
                Err(fault)
            }
        }
    }

    // Bytes of the command that is needed, or of its rest. With the last one the reply is owed.
    fn send(&mut self, wanted: &[u8]) -> Result<(), Fault> {
        self.check_fault()?;
        match self.owed {
            Owed::Nothing => self.begin_command()?,
            Owed::Command => (),
            Owed::Connection | Owed::Mailbox | Owed::Reset | Owed::Reply => {
                return Err(Fault::Form);
            }
        }
        let Some(rest) = self.command.strip_prefix(wanted) else {
            return Err(differs(self.alloc, wanted, &self.command));
        };
        if rest.is_empty() {
            self.owed = Owed::Reply;
        }
        self.command = rest.to_vec(self.alloc)?;
        Ok(())
    }

    fn begin_command(&mut self) -> Result<(), Fault> {
        let need = self.player.next(&self.book)?;
        let command = sent_by(self.alloc, &need, self.book.tries_due());
        drop(need);
        self.command = command?;
        self.owed = Owed::Command;
        Ok(())
    }

    // Whether the need, which is the wanted one, is moved out. A delta waits exactly where what was
    // told of a mailbox is needed.
    fn is_moved(&self, need: &Need, wanted: &str) -> Result<bool, Fault> {
        let told = shown_need(self.alloc, need)?;
        same_words(self.alloc, wanted, &told)?;
        let waits = self.player.has_delta();
        if waits != is_learn(need) {
            return Err(differs(self.alloc, b"a delta that waits", b"another need"));
        }
        Ok(waits && matches!(self.way, Way::Moved))
    }

    // The delta that waits is moved out into the same event, which is recorded. Then none waits.
    fn move_out(&mut self, wanted: &str) -> Result<(), Fault> {
        let Some(event) = learnt(&mut self.player, &self.book) else {
            return Err(Fault::Form);
        };
        if self.player.has_delta() {
            drop(event);
            return Err(differs(self.alloc, b"no delta that waits", wanted.as_bytes()));
        }
        self.record_shown(event, wanted)
    }

    // Records an event whose words are the wanted ones.
    fn record_shown(&mut self, event: Event, wanted: &str) -> Result<(), Fault> {
        match same_event(self.alloc, &event, wanted) {
            Ok(()) => self.record(event, wanted),
            Err(fault) => {
                drop(event);
                Err(fault)
            }
        }
    }

    // Records an event, which must be lawful.
    fn record(&mut self, event: Event, text: &str) -> Result<(), Fault> {
        let may = enter(self.alloc, &mut self.book, event)?;
        self.check_lawful(may, text)
    }

    fn check_lawful(&self, may: bool, text: &str) -> Result<(), Fault> {
        if may {
            return Ok(());
        }
        Err(differs(self.alloc, b"an event that may come", text.as_bytes()))
    }

    // Records what is needed, or says what the server owes.
    fn record_need(&mut self, need: Need, text: &str) -> Result<(), Fault> {
        match need {
            Need::Commit(event) => {
                self.record(event, text)?;
                self.player.committed(&self.book);
                Ok(())
            }
            need => {
                let done = self.conclude(&need, text);
                drop(need);
                done
            }
        }
    }

    // Records how an action ends or goes on, or says what the server owes. A command stands as it
    // is sent, and not in words.
    fn conclude(&mut self, need: &Need, text: &str) -> Result<(), Fault> {
        let may = match need {
            Need::Settle(id, outcome) => settle(&mut self.book, id, outcome),
            Need::Withdraw(id, tries) => withdraw(&mut self.book, *id, *tries),
            Need::Select(_) => {
                self.owed = Owed::Mailbox;
                return Ok(());
            }
            Need::Ask(_) | Need::Send(_, _) => return Err(Fault::Form),
            Need::Commit(_) | Need::Finished => return Ok(()),
        };
        self.check_lawful(may, text)?;
        self.player.committed(&self.book);
        Ok(())
    }

    // Takes a line of the server, and hands a whole reply over. A command is sent whole first.
    fn hear(&mut self, line: &[u8]) -> Result<(), Fault> {
        if let Owed::Command = self.owed {
            return Err(differs(self.alloc, line, &self.command));
        }
        match self.ear.hear(line)? {
            Some(replies) => self.hand_over(replies),
            None => Ok(()),
        }
    }

    fn hand_over(&mut self, replies: Replies) -> Result<(), Fault> {
        if let Owed::Mailbox = self.owed {
            return self.choose(replies);
        }
        let done = self.hand_reply(&replies);
        drop(replies);
        done
    }

    // The reply to a question or to an action's command.
    fn hand_reply(&mut self, replies: &Replies) -> Result<(), Fault> {
        let Owed::Reply = self.owed else {
            return Err(Fault::Form);
        };
        let permits = !self.barred;
        self.barred = false;
        let done = self.player.heard(&self.book, replies, permits);
        self.answered(done)
    }

    // What takes the mailbox's cache away is what the line says, and is recorded. Then all rows are
    // told, unless there are none.
    fn reset(&mut self, wanted: &str) -> Result<(), Fault> {
        let Some(event) = self.outdated() else {
            return Err(Fault::Form);
        };
        self.record_shown(event, wanted)?;
        self.owed = Owed::Mailbox;
        self.choose_empty()
    }

    fn outdated(&self) -> Option<Event> {
        outdated(&self.player, &self.book, self.selected.as_ref()?)
    }

    // Where the mailbox was told to be empty, no reply is owed any more.
    fn choose_empty(&mut self) -> Result<(), Fault> {
        let Some(selected) = self.selected.take() else {
            return Ok(());
        };
        if is_told_empty(&selected) {
            return self.choose_by(selected);
        }
        drop(self.selected.replace(selected));
        Ok(())
    }

    // The reply to a SELECT, behind which a cache may be taken away, or the FETCH of all rows may
    // be due; or the reply to that.
    fn choose(&mut self, replies: Replies) -> Result<(), Fault> {
        match self.owed_behind(&replies) {
            Ok(Some(owed)) => {
                self.owed = owed;
                drop(self.selected.replace(replies));
                Ok(())
            }
            Ok(None) => self.choose_by(replies),
            Err(fault) => {
                drop(replies);
                Err(fault)
            }
        }
    }

    // What is owed behind the reply to a SELECT, unless the mailbox is known then.
    fn owed_behind(&self, replies: &Replies) -> Result<Option<Owed>, Fault> {
        if self.selected.is_some() {
            return Ok(None);
        }
        if is_outdated(&self.player, &self.book, replies) {
            return Ok(Some(Owed::Reset));
        }
        if wants_rows(&self.player, &self.book, replies)? {
            return Ok(Some(Owed::Mailbox));
        }
        Ok(None)
    }

    // The last reply of a resynchronisation.
    fn choose_by(&mut self, replies: Replies) -> Result<(), Fault> {
        let selected = self.selected.take();
        let done = match &selected {
            Some(first) => choose(
                self.alloc,
                &mut self.player,
                &self.book,
                first,
                Some(&replies),
            ),
            None => choose(self.alloc, &mut self.player, &self.book, &replies, None),
        };
        drop(selected);
        drop(replies);
        self.answered(done)
    }

    // A reply was taken, or it wasn't.
    fn answered(&mut self, done: Result<(), Unheard>) -> Result<(), Fault> {
        self.owed = Owed::Nothing;
        match done {
            Ok(()) => Ok(()),
            Err(Unheard::Memory) => Err(Fault::Memory),
            Err(fault) => {
                self.fault = Some(fault);
                Ok(())
            }
        }
    }

    // The last reply wasn't taken, for what the words say.
    fn tell_fault(&mut self, wanted: &str) -> Result<(), Fault> {
        let Some(fault) = self.fault.take() else {
            return Err(differs(self.alloc, wanted.as_bytes(), b"a reply that is taken"));
        };
        let told = shown_fault(self.alloc, &fault)?;
        same_words(self.alloc, wanted, &told)
    }
}

fn same_event(alloc: Global, event: &Event, wanted: &str) -> Result<(), Fault> {
    let mut told = Answer::new(alloc);
    put_event(&mut told, event)?;
    same_words(alloc, wanted, &told)
}

fn shown_need(alloc: Global, need: &Need) -> Result<Answer, WordFault> {
    let mut told = Answer::new(alloc);
    let done = put_need(&mut told, need);
    kept(told, done)
}

fn shown_fault(alloc: Global, fault: &Unheard) -> Result<Answer, WordFault> {
    let mut told = Answer::new(alloc);
    let done = put_fault(&mut told, fault);
    kept(told, done)
}

// The bytes of the command that is needed.
fn sent_by(alloc: Global, need: &Need, tries: u8) -> Result<Vec<u8>, Fault> {
    if let Some(command) = command_of(alloc, need, tries)? {
        return Ok(command);
    }
    let told = shown_need(alloc, need)?;
    Err(differs(alloc, b"a command", told.as_bytes()))
}

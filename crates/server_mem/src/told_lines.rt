//! The lines of what is told (RFC 9051, sections 2.2.2 and 7.1).

ghost use Rattle.std.specs.Prelude.{◌≡◌, ◌∷◌, [], IfOk, OnOk, OnErr};
ghost use Rattle.std.specs.List.{AllByRecursion};
ghost use Rattle.imap_model.specs.CarriedOut.{told_in};
ghost use Rattle.imap_model.specs.Lines.{AreLines};
ghost use Rattle.imap_model.specs.PlainServer as plain;
ghost use Rattle.imap_model.specs.Remarks.{selected_box};
ghost use Rattle.imap_model.specs.TagText.{IsCommandTag};
ghost use Rattle.imap_model.specs.declared.code.Code.TheVariants as codings;
ghost use Rattle.imap_model.specs.declared.response.Response.TheVariants as responses;
ghost use Rattle.server_mem.specs.Greeting.{greeting};
ghost use Rattle.server_mem.specs.SelectedMessages.{messages_of};
ghost use Rattle.server_mem.specs.States.{disconnected};
ghost use Rattle.server_mem.specs.Texts.{is_older};
ghost use Rattle.mail_base.specs.declared.tag.Tag.TheVariants as tags;
ghost use Rattle.response_lines.specs.Tellable.{AreTellable, IsAtomic};
ghost use Rattle.response_lines.specs.ToldText.{lines_of};

use crate::MemServer;
use crate::lookups::box_of;
use imap_model::{Code, Ending, Mailbox, Message, Response};
use mail_base::{BoxName, Tag};
use response_lines::Spelling;
use std::alloc::AllocError;

/// The messages of the selected mailbox, among these mailboxes.
pub(crate) fn messages_in<'a>(boxes: &'a [Mailbox], selected: &Option<BoxName>) -> &'a [Message]
    ensures { result.now ≡ messages_of (selected_box selected.now boxes.now) }
{
    match selected {
        None => &[],
        Some(name) => match box_of(boxes, name) {
            None => &[],
            Some((_, mailbox)) => mailbox.messages.as_slice(),
        },
    }
}

impl MemServer {
    // How lines are spelled that answer the command of this tag.
    fn spelling(&self, tag: Tag) -> Spelling
        ensures tag { result.tag ≡ tag }
        ensures older { result.older ≡ is_older self.now.choices }
        ensures offers { AllByRecursion IsAtomic self.now.choices.offers }
    {
        Spelling {
            alloc: self.alloc,
            older: !self.has_rev2(),
            tag,
        }
    }

    /// The lines of what is told, behind a command of this tag, where these are the messages that it selected.
    pub(crate) fn lines(
        &self,
        messages: &[Message],
        tag: Tag,
        told: &[Response],
    ) -> Result<Vec<u8>, AllocError>
        requires { AllByRecursion IsAtomic self.now.choices.offers → AreTellable told.now }
        ensures spelled { IfOk result (λ lines. AreLines told.now lines.items) }
        ensures text { IfOk result (λ lines. lines.items ≡ lines_of (is_older self.now.choices) tag messages.now told.now) }
    {
        let mut lines = Vec::new(self.alloc);
        self.spelling(tag).put_lines(messages, told, &mut lines)?;
        Ok(lines)
    }

    /// The line that asks for the next part of a text (RFC 9051, section 7.6).
    pub(crate) fn go_on(&self, tag: Tag) -> Result<Vec<u8>, AllocError>
        ensures spelled { IfOk result (λ line. AreLines (responses.Go ∷ []) line.items) }
        ensures text { IfOk result (λ line. line.items ≡ lines_of (is_older self.now.choices) tag [] (responses.Go ∷ [])) }
    {
        let told = [Response::Go];
        self.lines(&[], tag, &told)
    }

    /// The line of a NO to the command of this tag.
    pub(crate) fn denial(&self, tag: Tag) -> Result<Vec<u8>, AllocError>
        requires { IsCommandTag tag }
        ensures spelled { IfOk result (λ line. AreLines (told_in tag (plain.denied codings.Other)) line.items) }
        ensures text { IfOk result (λ line. line.items ≡ lines_of (is_older self.now.choices) tag [] (told_in tag (plain.denied codings.Other))) }
    {
        let told = [Response::Done {
            tag,
            ending: Ending::No,
            code: Code::Other,
        }];
        self.lines(&[], tag, &told)
    }

    // The line of the greeting.
    fn greeting(&self) -> Result<Vec<u8>, AllocError>
        ensures spelled { IfOk result (λ line. AreLines (greeting self.now.choices.offers ∷ []) line.items) }
        ensures text { IfOk result (λ line. line.items ≡ lines_of (is_older self.now.choices) tags.Strange [] (greeting self.now.choices.offers ∷ [])) }
    {
        let mut line = Vec::new(self.alloc);
        self.spelling(Tag::Strange)
            .put_greeting(&self.offers, &mut line)?;
        Ok(line)
    }

    /// Begins a connection, in which nothing is selected, and gives the greeting's line: an OK with what is offered as its
    /// code, where anything is (RFC 9051, section 7.1).
    ///
    /// Fails for want of memory alone, and then nothing changes.
    pub fn greet(&mut self) -> Result<Vec<u8>, AllocError>
        ensures begun { OnOk result (self.new ≡ disconnected self.old) }
        ensures told { IfOk result (λ line. AreLines (greeting self.old.choices.offers ∷ []) line.items) }
        ensures text { IfOk result (λ line. line.items ≡ lines_of (is_older self.old.choices) tags.Strange [] (greeting self.old.choices.offers ∷ [])) }
        ensures kept { OnErr result (self.new ≡ self.old) }
    {
        let line = self.greeting()?;
        self.lose();
        Ok(line)
    }
}

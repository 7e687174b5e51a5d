//! Answering what comes, part by part (RFC 9051, sections 2.2.1, 4.3 and 5.5).

ghost use Rattle.std.specs.Prelude.{◌≡◌, ◌≢◌, ◌++◌, [], ◌∷◌, ◌<◌, ◌≤◌, ◌↔◌, IsTrue, ℕ, List, Some, length, take, drop, false, IfOk, OnOk, OnErr, IfSome, IfNone};
ghost use Rattle.imap_model.specs.CarriedOut.{told_in};
ghost use Rattle.imap_model.specs.Lines.{AreLines};
ghost use Rattle.imap_model.specs.PlainServer as plain;
ghost use Rattle.imap_model.specs.TagText.{IsCommandTag};
ghost use Rattle.imap_model.specs.declared.code.Code.TheVariants as codings;
ghost use Rattle.imap_model.specs.declared.command.Command.{Command};
ghost use Rattle.imap_model.specs.declared.response.Response.{Response};
ghost use Rattle.server_mem.specs.Answered.{AnswersParts, IsAnswer, bad_of};
ghost use Rattle.command_texts.specs.Cutting.{IsPart, NoPart};
ghost use Rattle.server_mem.specs.Falling.{broken, Falls, Tells};
ghost use Rattle.command_texts.specs.HeardAs.{IsHeardAs};
ghost use Rattle.command_texts.specs.HeardParts.{IsWhole, IsFront, append_of, IsNoText};
ghost use Rattle.server_mem.specs.Hearing.{IsBad, Hears, Breaks, with_bytes};
ghost use Rattle.server_mem.specs.Texts.{bad_text, steps_text};

use crate::MemServer;
use crate::bad::{Bad, bad_of};
use crate::carry::Outcome;
use crate::outcome::{Answer, Answered};
use crate::told_lines::messages_in;
use command_texts::{Heard, heard, part_end};
use imap_model::Command;
use mail_base::{BoxName, Bytes, List, Tag};
use std::alloc::{AllocError, Global};

// The same bytes once more.
fn bytes_of(alloc: Global, bytes: &[u8]) -> Result<Bytes, AllocError>
    ensures { IfOk result (λ same. same ≡ bytes.now) }
{
    let mut same = Bytes::new(alloc);
    same.extend(bytes)?;
    Ok(same)
}

impl MemServer {
    // Behind the first whole part of what came.
    fn first_end(&self) -> Option<usize>
        ensures within { IfSome result (λ end. end ≤ length self.now.begun) }
        ensures part { IfSome result (λ end. IsPart self.now.parts (take end self.now.begun)) }
        ensures none { IfNone result (NoPart self.now.parts self.now.begun) }
    {
        part_end(self.parts.as_slice(), self.begun.as_slice())
    }

    // Cuts a part off the front of what came.
    fn cut(&mut self, end: usize) -> Result<(), AllocError>
        requires { end ≤ length self.old.begun }
        ensures done { OnOk result (self.new ≡ record self.old { parts = self.old.parts ++ take end self.old.begun ∷ []; begun = drop end self.old.begun }) }
        ensures kept { OnErr result (self.new ≡ self.old) }
    {
        let part = self.front(end)?;
        let rest = bytes_of(self.alloc, &self.begun.as_slice()[end..])?;
        self.parts.push(part)?;
        self.begun = rest;
        Ok(())
    }

    // The front of what came, up to an end.
    fn front(&self, end: usize) -> Result<Bytes, AllocError>
        requires { end ≤ length self.now.begun }
        ensures { IfOk result (λ part. part ≡ take end self.now.begun) }
    {
        bytes_of(self.alloc, &self.begun.as_slice()[..end])
    }

    // What the parts are that have come.
    fn heard_now(&self) -> Result<Heard, AllocError>
        requires { 0 < length self.now.parts }
        ensures { IfOk result (λ found. IsHeardAs self.now.parts found) }
    {
        heard(self.alloc, self.parts.as_slice())
    }

    // What BAD is said of the parts that have come.
    fn bad_now(&self) -> Result<Bad, AllocError>
        ensures tag { IfOk result (λ bad. IsBad self.now.parts (bad_of bad.tag)) }
        ensures line { IfOk result (λ bad. AreLines (bad_of bad.tag ∷ []) bad.line.items) }
        ensures text { IfOk result (λ bad. (is : IsBad self.now.parts (bad_of bad.tag)) × (bad.line.items ≡ bad_text self.now.parts (bad_of bad.tag) is)) }
    {
        bad_of(self.alloc, self.parts.as_slice())
    }

    // Drops the parts that have come.
    fn drop_parts(&mut self)
        ensures { self.new ≡ record self.old { parts = [] } }
    {
        self.parts = List::new(self.alloc);
    }

    // Carries out a command whose whole text has come, and drops the text. Its lines are written before anything changes.
    fn answer_command(
        &mut self,
        part: Bytes,
        tag: Tag,
        command: Command,
    ) -> Result<Answer, AllocError>
        requires { IsWhole tag command self.old.parts }
        ensures answered { IfOk result (λ answer. AnswersParts self.old answer self.new) }
        ensures part { IfOk result (λ answer. answer.part ≡ part) }
        ensures kept { OnErr result (self.new ≡ self.old) }
    {
        let Outcome {
            told,
            made,
            selected,
        } = self.outcome(tag, &command)?;
        let messages = messages_in(self.boxes_behind(&made), &selected);
        let lines = self.lines(messages, tag, told.as_slice())?;
        self.enter(made, selected)?;
        self.drop_parts();
        Ok(Answer {
            part,
            answered: Answered::Carried { tag, command },
            lines,
        })
    }

    // Asks for the next part.
    fn ask(&mut self, part: Bytes, tag: Tag) -> Result<Answer, AllocError>
        requires { (command : Command) × IsFront tag command self.old.parts
            × ((name : List ℕ) → append_of command ≡ Some name → self.old.choices.closed ≢ Some name) }
        ensures answered { IfOk result (λ answer. AnswersParts self.old answer self.new) }
        ensures part { IfOk result (λ answer. answer.part ≡ part) }
        ensures kept { OnErr result (self.new ≡ self.old) }
    {
        let lines = self.go_on(tag)?;
        Ok(Answer {
            part,
            answered: Answered::Asked { tag },
            lines,
        })
    }

    // Says NO to an APPEND, and drops what has come of its text.
    fn deny(&mut self, part: Bytes, tag: Tag) -> Result<Answer, AllocError>
        requires { (command : Command) × (name : List ℕ) × IsFront tag command self.old.parts
            × (append_of command ≡ Some name) × (self.old.choices.closed ≡ Some name) }
        ensures answered { IfOk result (λ answer. AnswersParts self.old answer self.new) }
        ensures part { IfOk result (λ answer. answer.part ≡ part) }
        ensures kept { OnErr result (self.new ≡ self.old) }
    {
        let lines = self.denial(tag)?;
        self.drop_parts();
        Ok(Answer {
            part,
            answered: Answered::Refused { tag },
            lines,
        })
    }

    // Whether an APPEND to this mailbox is refused, if the parts are of one.
    fn refuses(&self, append: &Option<BoxName>) -> bool
        ensures { IsTrue result ↔ ((name : List ℕ) × (append.now ≡ Some name) × (self.now.choices.closed ≡ Some name)) }
    {
        let Some(name) = append else {
            return false;
        };
        self.is_closed(name)
    }

    // Asks for the next part, or refuses the APPEND.
    fn answer_front(
        &mut self,
        part: Bytes,
        tag: Tag,
        append: Option<BoxName>,
    ) -> Result<Answer, AllocError>
        requires { (command : Command) × IsFront tag command self.old.parts × (append_of command ≡ append) }
        ensures answered { IfOk result (λ answer. AnswersParts self.old answer self.new) }
        ensures part { IfOk result (λ answer. answer.part ≡ part) }
        ensures kept { OnErr result (self.new ≡ self.old) }
    {
        if self.refuses(&append) {
            return self.deny(part, tag);
        }
        self.ask(part, tag)
    }

    // Says BAD of parts that are no text, and drops them.
    fn answer_bad(&mut self, part: Bytes) -> Result<Answer, AllocError>
        requires { IsNoText self.old.parts }
        ensures answered { IfOk result (λ answer. AnswersParts self.old answer self.new) }
        ensures part { IfOk result (λ answer. answer.part ≡ part) }
        ensures kept { OnErr result (self.new ≡ self.old) }
    {
        let Bad { tag, line } = self.bad_now()?;
        self.drop_parts();
        Ok(Answer {
            part,
            answered: Answered::Bad { tag },
            lines: line,
        })
    }

    // Answers the parts that have come, of which this is the last one.
    fn answer(&mut self, part: Bytes) -> Result<Answer, AllocError>
        requires { 0 < length self.old.parts }
        ensures answered { IfOk result (λ answer. AnswersParts self.old answer self.new) }
        ensures part { IfOk result (λ answer. answer.part ≡ part) }
        ensures kept { OnErr result (self.new ≡ self.old) }
    {
        match self.heard_now()? {
            Heard::Command { tag, command } => self.answer_command(part, tag, command),
            Heard::Front { tag, append } => self.answer_front(part, tag, append),
            Heard::Nothing => self.answer_bad(part),
        }
    }

    // Answers the first whole part of what came. For want of memory nothing is answered.
    fn step(&mut self) -> Result<Option<Answer>, AllocError>
        ensures answered { IfOk result (λ found. IfSome found (λ answer. IsAnswer self.old answer self.new)) }
        ensures rest { IfOk result (λ found. IfNone found (NoPart self.old.parts self.old.begun)) }
        ensures same { IfOk result (λ found. IfNone found (self.new ≡ self.old)) }
        ensures fallen { OnErr result (broken self.new ≡ broken self.old) }
    {
        let Some(end) = self.first_end() else {
            return Ok(None);
        };
        let part = self.front(end)?;
        self.cut(end)?;
        let answer = self.answer(part)?;
        Ok(Some(answer))
    }

    // What came of a text is dropped, and the connection has to be ended.
    fn break_off(&mut self)
        ensures { self.new ≡ broken self.old }
    {
        self.drop_text();
        self.failed = true;
    }

    /// Puts bytes of a client behind what came. Nothing is answered: `answer_next` does that.
    ///
    /// Fails for want of memory alone, and then nothing changes.
    pub fn take_in(&mut self, bytes: &[u8]) -> Result<(), AllocError>
        requires { self.old.failed ≡ false }
        ensures done { OnOk result (self.new ≡ with_bytes bytes.now self.old) }
        ensures kept { OnErr result (self.new ≡ self.old) }
    {
        self.begun.extend(bytes)
    }

    /// Answers the first whole part of what came, if there is one.
    ///
    /// Fails for want of memory alone. Then that part isn't answered and changes nothing, what came of its text is dropped,
    /// and the connection must be ended by `lose` or `greet` before more is taken in.
    pub fn answer_next(&mut self) -> Result<Option<Answer>, AllocError>
        ensures answered { IfOk result (λ found. IfSome found (λ answer. IsAnswer self.old answer self.new)) }
        ensures rest { IfOk result (λ found. IfNone found (NoPart self.old.parts self.old.begun)) }
        ensures same { IfOk result (λ found. IfNone found (self.new ≡ self.old)) }
        ensures broken { OnErr result (self.new ≡ broken self.old) }
    {
        match self.step() {
            Ok(found) => Ok(found),
            Err(fault) => {
                self.break_off();
                Err(fault)
            }
        }
    }

    // Answers each whole part of what came.
    fn steps(&mut self) -> Result<Vec<u8>, AllocError>
        ensures told { IfOk result (λ out. Tells self.old out.items self.new) }
        ensures rest { OnOk result (NoPart self.new.parts self.new.begun) }
        ensures fallen { OnErr result (Falls self.old self.new) }
    {
        let mut out = Vec::new(self.alloc);
        while let Some(answer) = self.step()? {
            out.extend_from_slice(&answer.lines)?;
        }
        Ok(out)
    }

    // Hears the bytes, and says nothing of what is left for want of memory but what was answered.
    fn hear_all(&mut self, bytes: &[u8]) -> Result<Vec<u8>, AllocError>
        requires { self.old.failed ≡ false }
        ensures told { IfOk result (λ out. Tells (with_bytes bytes.now self.old) out.items self.new) }
        ensures rest { OnOk result (NoPart self.new.parts self.new.begun) }
        ensures fallen { OnErr result (Falls (with_bytes bytes.now self.old) self.new) }
    {
        self.take_in(bytes)?;
        self.steps()
    }

    /// Hears bytes of a client, in whatever pieces they come, and gives the lines that it tells.
    ///
    /// Fails for want of memory alone. Then some whole parts may have been carried out, what else came is dropped, and the
    /// connection must be ended by `lose` or `greet` before more is heard.
    pub fn hear(&mut self, bytes: &[u8]) -> Result<Vec<u8>, AllocError>
        requires { self.old.failed ≡ false }
        ensures heard { IfOk result (λ out. (told : List Response) × Hears self.old bytes.now told self.new × AreLines told out.items) }
        ensures text { IfOk result (λ out. (told : List Response) × (heard : Hears self.old bytes.now told self.new)
            × (out.items ≡ steps_text (with_bytes bytes.now self.old) told self.new heard.steps)) }
        ensures ready { OnOk result (self.new.failed ≡ false) }
        ensures broken { OnErr result (Breaks self.old bytes.now self.new) }
    {
        match self.hear_all(bytes) {
            Ok(out) => Ok(out),
            Err(fault) => {
                self.break_off();
                Err(fault)
            }
        }
    }
}

//! What arrives at the server.

ghost use Rattle.std.specs.Prelude.{◌≡◌, ◌≤◌, ◌++◌, ◌+◌, [], ◌∷◌, length, OnOk, OnErr, IfOk, true, false};
ghost use Rattle.std.specs.Prelude.{◌<◌, ◌⊎◌, ℕ, List, Some, None, IfSome, IfNone, take};
ghost use Rattle.imap_model.specs.Talking.{Answering, Connecting, Awaits, IsPartOf};
ghost use Rattle.imap_model.specs.declared.command.Command.{Command};
ghost use Rattle.mail_base.specs.declared.tag.Tag.{Tag};
ghost use Rattle.command_texts.specs.Cutting.{IsPart, NoPart};
ghost use Rattle.command_texts.specs.HeardParts.{IsWhole};
ghost use Rattle.server_mem.specs.Hearing.{with_bytes};
ghost use Rattle.server_mem.specs.States.{State, disconnected};
ghost use Rattle.world_traits.specs.Links.{Linked, AnyStep};
ghost use Rattle.world_traits.specs.Sends.{Sent, Arrives};
ghost use Rattle.world_mem.specs.Arriving.{ArrivesSome, Listens, TakesIn};
ghost use Rattle.world_mem.specs.Memory.{run_of, line_of, had_in, sending, sent_of, earlier_of, SentSome};
ghost use Rattle.world_mem.specs.Heard.{HearsOne, HearsOnly, CarriesOne, CarriesNone, is_carried};
ghost use Rattle.world_mem.specs.Heard.{HearsAll, HearsBytes, HearsParts, left_over};
ghost use Rattle.world_mem.specs.Losing.{CompletesNone, HearsLast, Loses};
ghost use Rattle.world_mem.specs.Planned.{IsShort, arriving};
ghost use Rattle.world_mem.specs.Running.{step};
ghost use Rattle.world_mem.specs.Standing.{kept_as, is_on};
ghost use Rattle.world_mem.specs.declared.course.Phase.TheVariants as phases;
ghost use Rattle.world_mem.specs.declared.did.Did.TheVariants as did;

use crate::course::{Course, Phase};
use crate::{Did, Held, Loss};
use command_texts::{Heard, first_parts_tell_tags, heard, no_text_is_a_front, texts_are_cut};
use mail_base::{Bytes, List};
use server_mem::{Answer, Answered, MemServer};
use std::alloc::{AllocError, Global};

impl Course {
    // Bytes come.
    fn take_in(&mut self, bytes: &[u8]) -> Result<(), AllocError>
        requires { self.old.phase ≡ phases.On }
        ensures run { run_of self.new ≡ run_of self.old }
        ensures taken { OnOk result (TakesIn bytes.now self.old self.new) }
        ensures front { OnErr result (SentSome bytes.now (sent_of self.old) (sent_of self.new)) }
        ensures received { self.new.received ≡ self.old.received }
        ensures lines { self.new.lines.items ≡ self.old.lines.items }
        ensures earlier { earlier_of self.new ≡ earlier_of self.old }
        ensures kept { OnErr result (self.new.phase ≡ phases.On) }
    {
        let Some(unfinished) = self.unfinished.checked_add(bytes.len()) else {
            return Err(AllocError);
        };
        self.sent.extend_from_slice(bytes)?;
        self.server.take_in(bytes)?;
        self.unfinished = unfinished;
        self.phase = Phase::Hearing;
        Ok(())
    }

    // Answers the next whole part, if there is one. For want of memory there is no connection any more.
    fn hear_next(&mut self) -> Result<bool, AllocError>
        requires { self.old.phase ≡ phases.Hearing }
        ensures more { IfOk result (λ more. more ≡ true → HearsOne self.old.server (run_of self.old) self.new.server (run_of self.new)) }
        ensures rest { IfOk result (λ more. more ≡ false → NoPart self.old.server.parts self.old.server.begun) }
        ensures same { IfOk result (λ more. more ≡ false → run_of self.new ≡ run_of self.old) }
        ensures server { IfOk result (λ more. more ≡ false → self.new.server ≡ self.old.server) }
        ensures less { IfOk result (λ more. more ≡ true → self.new.unfinished < self.old.unfinished) }
        ensures listens { Listens self.old self.new result }
        ensures broken { OnErr result ((run_of self.new ≡ run_of self.old) ⊎ HearsOne self.old.server (run_of self.old) self.new.server (run_of self.new)) }
        ensures received { OnOk result (self.new.received ≡ self.old.received) }
    {
        // What is carried out is lawful where the server is well formed.
        let _ = self.server.server();
        self.log.reserve(1)?;
        let found = match self.server.answer_next() {
            Ok(found) => found,
            Err(fault) => {
                self.phase = Phase::Off;
                self.unfinished = 0;
                return Err(fault);
            }
        };
        let Some(answer) = found else {
            return Ok(false);
        };
        let Answer {
            part,
            answered,
            lines,
        } = answer;
        self.unfinished -= part.as_slice().len();
        let kept = keep_part(self.alloc, &mut self.parts, &part, &answered);
        let told = self.lines.extend_from_slice(&lines);
        self.log.push_reserved(Did::Heard { part, answered });
        if kept.is_err() {
            self.phase = Phase::Off;
            self.received = 0;
            return Err(AllocError);
        }
        if told.is_err() {
            self.phase = Phase::Off;
            self.received = 0;
            return Err(AllocError);
        }
        Ok(true)
    }

    // All whole parts were answered.
    fn rest(&mut self) -> Result<(), AllocError>
        requires { self.old.phase ≡ phases.Hearing }
        ensures begun { OnOk result ((self.old.unfinished ≡ 0 → run_of self.new ≡ run_of self.old)
            × (Linked AnyStep (run_of self.old).clock (run_of self.new).clock)) }
        ensures left { OnOk result (run_of self.new ≡ left_over self.old.server.begun (run_of self.old)) }
        ensures server { self.new.server ≡ self.old.server }
        ensures on { OnOk result (self.new.phase ≡ phases.On) }
        ensures failed { OnErr result (run_of self.new ≡ run_of self.old) }
        ensures sent { sent_of self.new ≡ sent_of self.old }
        ensures earlier { earlier_of self.new ≡ earlier_of self.old }
        ensures received { self.new.received ≡ self.old.received }
        ensures lines { self.new.lines.items ≡ self.old.lines.items }
    {
        if self.unfinished == 0 {
            self.phase = Phase::On;
            return Ok(());
        }
        self.log.reserve(1)?;
        self.log.push_reserved(Did::Began);
        self.phase = Phase::On;
        Ok(())
    }

    // Answers all whole parts that are left. Behind none nothing is answered, since no part is empty.
    fn hear_rest(&mut self) -> Result<(), AllocError>
        requires { self.old.phase ≡ phases.Hearing }
        ensures all { OnOk result (HearsAll self.old.server (run_of self.old) self.new.server (run_of self.new)) }
        ensures some { OnErr result ((after : State) × HearsParts self.old.server (run_of self.old) after (run_of self.new)) }
        ensures files { Linked AnyStep (run_of self.old).clock (run_of self.new).clock }
        ensures none { self.old.server.begun ≡ [] → run_of self.new ≡ run_of self.old }
        ensures ended { self.old.server.begun ≡ [] → OnOk result (self.new.server.begun ≡ []) }
        ensures listens { Listens self.old self.new result }
    {
        while self.hear_next()? {}
        Ok(())
    }

    // Answers all whole parts.
    fn hear(&mut self) -> Result<(), AllocError>
        requires { self.old.phase ≡ phases.Hearing }
        ensures all { OnOk result (HearsAll self.old.server (run_of self.old) self.new.server (run_of self.new)) }
        ensures some { OnErr result ((after : State) × HearsParts self.old.server (run_of self.old) after (run_of self.new)) }
        ensures files { Linked AnyStep (run_of self.old).clock (run_of self.new).clock }
        ensures one { (part : List ℕ) → IsPart self.old.server.parts part → self.old.server.begun ≡ part
            → HearsOnly part self.old.server (run_of self.old) (run_of self.new) result }
        ensures ended { IsPart self.old.server.parts self.old.server.begun → OnOk result (self.new.server.begun ≡ []) }
        ensures none { NoPart self.old.server.parts self.old.server.begun → run_of self.new ≡ run_of self.old }
        ensures listens { Listens self.old self.new result }
    {
        if !self.hear_next()? {
            return Ok(());
        }
        self.hear_rest()?;
        Ok(())
    }

    /// Bytes arrive, and the server answers. A part that is awaited arrives, if it is all that they are.
    pub fn arrive(&mut self, bytes: &[u8]) -> Result<(), AllocError>
        requires { self.old.phase ≡ phases.On }
        ensures hears { OnOk result (HearsBytes bytes.now self.old.server (run_of self.old) self.new.server (run_of self.new)) }
        ensures arrives { ArrivesSome bytes.now self.old self.new result }
        ensures told { (tag : Tag) (command : Command) (before behind : List (List ℕ))
            → IsPartOf tag command before bytes.now behind → Awaits tag before (run_of self.old).clock.now.outside
            → Sent tag command before bytes.now behind (run_of self.old).clock (run_of self.new).clock result }
        ensures on { OnOk result (self.new.phase ≡ phases.On) }
        ensures had { OnOk result (had_in (line_of self.new) ≡ sending bytes.now (had_in (line_of self.old))) }
    {
        // Such a part is cut off as one, and is answered as what it is.
        texts_are_cut();
        no_text_is_a_front();
        first_parts_tell_tags();
        self.take_in(bytes)?;
        self.hear()?;
        self.rest()?;
        Ok(())
    }

    // Bytes arrive, and the connection is lost.
    fn arrive_last(&mut self, bytes: &[u8]) -> Result<(), AllocError>
        requires { self.old.phase ≡ phases.On }
        ensures last { OnOk result (HearsLast bytes.now self.old.server (run_of self.old) (run_of self.new)) }
        ensures arrives { ArrivesSome bytes.now self.old self.new result }
        ensures told { (tag : Tag) (command : Command) (before behind : List (List ℕ))
            → IsPartOf tag command before bytes.now behind → Awaits tag before (run_of self.old).clock.now.outside
            → Sent tag command before bytes.now behind (run_of self.old).clock (run_of self.new).clock result }
        ensures none { NoPart self.old.server.parts (self.old.server.begun ++ bytes.now) → run_of self.new ≡ run_of self.old }
        ensures sent { OnOk result (sent_of self.new ≡ sent_of self.old ++ bytes.now) }
    {
        // Such a part is cut off as one, and is answered as what it is.
        texts_are_cut();
        no_text_is_a_front();
        first_parts_tell_tags();
        self.take_in(bytes)?;
        self.hear()?;
        Ok(())
    }

    // So many of the bytes arrive, from the front, and the connection is lost. A part that is awaited doesn't arrive so.
    fn arrive_front(&mut self, bytes: &[u8], count: usize) -> Result<(), AllocError>
        requires on { self.old.phase ≡ phases.On }
        requires less { count < length bytes.now }
        ensures last { OnOk result (HearsLast (take count bytes.now) self.old.server (run_of self.old) (run_of self.new)) }
        ensures arrives { ArrivesSome bytes.now self.old self.new result }
        ensures told { (tag : Tag) (command : Command) (before behind : List (List ℕ))
            → IsPartOf tag command before bytes.now behind → Awaits tag before (run_of self.old).clock.now.outside
            → run_of self.new ≡ run_of self.old }
        ensures sent { OnOk result (sent_of self.new ≡ sent_of self.old ++ take count bytes.now) }
    {
        // Such a part is cut off as one, so that its front is none.
        texts_are_cut();
        self.arrive_last(&bytes[..count])?;
        Ok(())
    }

    // The command whose last part the bytes are.
    fn completed(&self, bytes: &[u8]) -> Result<Option<Held>, AllocError>
        requires { self.now.phase ≡ phases.On }
        ensures none { IfOk result (λ found. IfNone found (CompletesNone bytes.now self.now.server)) }
        ensures ends { IfOk result (λ found. IfSome found (λ held. self.now.unfinished ≡ 0)) }
        ensures part { IfOk result (λ found. IfSome found (λ held. held.part ≡ bytes.now)) }
        ensures whole { IfOk result (λ found. IfSome found (λ held.
            IsWhole held.tag held.command (self.now.parts ++ bytes.now ∷ []))) }
    {
        // A text is no front of another.
        no_text_is_a_front();
        if self.unfinished > 0 {
            return Ok(None);
        }
        let parts = parts_with(self.alloc, self.parts.as_slice(), bytes)?;
        match heard(self.alloc, parts.as_slice())? {
            Heard::Command { tag, command } => Ok(Some(Held {
                part: Bytes::of(bytes.to_vec(self.alloc)?),
                tag,
                command,
                carried: true,
            })),
            Heard::Front { .. } => Ok(None),
            Heard::Nothing => Ok(None),
        }
    }

    // Bytes arrive, and the connection is lost. A command that they complete waits.
    fn arrive_waiting(&mut self, bytes: &[u8], carried: bool) -> Result<(), AllocError>
        requires { self.old.phase ≡ phases.On }
        ensures waits { OnOk result (Loses (Loss.Waits carried) bytes.now self.old.server (run_of self.old) (run_of self.new)) }
        ensures arrives { ArrivesSome bytes.now self.old self.new result }
        ensures told { (tag : Tag) (command : Command) (before behind : List (List ℕ))
            → IsPartOf tag command before bytes.now behind → Awaits tag before (run_of self.old).clock.now.outside
            → Sent tag command before bytes.now behind (run_of self.old).clock (run_of self.new).clock result }
        ensures sent { OnOk result (sent_of self.new ≡ sent_of self.old ++ bytes.now) }
    {
        // Parts that complete a command are no front of another.
        no_text_is_a_front();
        let Some(mut held) = self.completed(bytes)? else {
            self.arrive_last(bytes)?;
            return Ok(());
        };
        held.carried = carried;
        let own = held.copy()?;
        self.log.reserve(1)?;
        self.sent.extend_from_slice(bytes)?;
        self.log.push_reserved(Did::Waited { held: own });
        self.held = Some(held);
        self.phase = Phase::Waiting;
        Ok(())
    }

    /// Bytes are sent as the connection is lost so.
    pub fn arrive_by(&mut self, loss: Loss, bytes: &[u8]) -> Result<(), AllocError>
        requires { self.old.phase ≡ phases.On }
        ensures loses { OnOk result (Loses loss bytes.now self.old.server (run_of self.old) (run_of self.new)) }
        ensures arrives { ArrivesSome bytes.now self.old self.new result }
        ensures told { (tag : Tag) (command : Command) (before behind : List (List ℕ))
            → IsPartOf tag command before bytes.now behind → Awaits tag before (run_of self.old).clock.now.outside
            → Arrives tag command before bytes.now behind (run_of self.old).clock (run_of self.new).clock
            ⊎ Linked Answering (run_of self.old).clock (run_of self.new).clock }
        ensures short { IsShort loss (length bytes.now) → (tag : Tag) (command : Command) (before behind : List (List ℕ))
            → IsPartOf tag command before bytes.now behind → Awaits tag before (run_of self.old).clock.now.outside
            → run_of self.new ≡ run_of self.old }
        ensures whole { (IsShort loss (length bytes.now) → ⊥) → (tag : Tag) (command : Command) (before behind : List (List ℕ))
            → IsPartOf tag command before bytes.now behind → Awaits tag before (run_of self.old).clock.now.outside
            → Sent tag command before bytes.now behind (run_of self.old).clock (run_of self.new).clock result }
        ensures sent { OnOk result (sent_of self.new ≡ sent_of self.old ++ arriving loss bytes.now) }
    {
        match loss {
            Loss::Nothing => Ok(()),
            Loss::Part(count) => {
                if count as usize >= bytes.len() {
                    return self.arrive_last(bytes);
                }
                self.arrive_front(bytes, count as usize)
            }
            Loss::All => self.arrive_last(bytes),
            Loss::Waits { carried } => self.arrive_waiting(bytes, carried),
        }
    }

    /// What waits is carried out, where it is to be. After an error it was dropped, or waits still.
    pub fn settle(&mut self) -> Result<(), AllocError>
        requires { is_on self.old.phase ≡ false }
        ensures told { Linked Connecting (run_of self.old).clock (run_of self.new).clock }
        ensures free { (run_of self.old).held ≡ None → run_of self.new ≡ run_of self.old }
        ensures dropped { (held : Held) → (run_of self.old).held ≡ Some held → held.carried ≡ false → run_of self.new ≡ run_of self.old }
        ensures carried { (held : Held) → (run_of self.old).held ≡ Some held → held.carried ≡ true
            → OnOk result (run_of self.new ≡ step did.Settled (run_of self.old)) }
        ensures off { is_on self.new.phase ≡ false }
        ensures sent { sent_of self.new ≡ sent_of self.old }
        ensures earlier { earlier_of self.new ≡ earlier_of self.old }
    {
        if self.phase != Phase::Waiting {
            return Ok(());
        }
        let Some(held) = &self.held else {
            return Ok(());
        };
        if !held.carried {
            return Ok(());
        }
        self.log.reserve(1)?;
        // What is carried out is lawful where the server is well formed, and its text was cut as it was written, and is no other's front.
        let _ = self.server.server();
        texts_are_cut();
        no_text_is_a_front();
        let done = carry_out(&mut self.server, held.part.as_slice());
        self.phase = Phase::Off;
        match done {
            Ok(true) => {
                self.log.push_reserved(Did::Settled);
                Ok(())
            }
            Ok(false) => {
                self.log.push_reserved(Did::Greeted);
                Ok(())
            }
            Err(fault) => {
                self.log.push_reserved(Did::Greeted);
                Err(fault)
            }
        }
    }
}

// The last part of a text comes. Says whether a command was carried out.
fn carry_out(server: &mut MemServer, part: &[u8]) -> Result<bool, AllocError>
    requires { server.old.failed ≡ false }
    ensures carried { IfOk result (λ done. done ≡ true → CarriesOne (with_bytes part.now server.old) server.new) }
    ensures none { IfOk result (λ done. done ≡ false → disconnected server.new ≡ disconnected server.old) }
    ensures left { IfOk result (λ done. done ≡ false → CarriesNone (with_bytes part.now server.old)) }
    ensures failed { OnErr result (disconnected server.new ≡ disconnected server.old) }
{
    server.take_in(part)?;
    let Some(answer) = server.answer_next()? else {
        return Ok(false);
    };
    Ok(is_carried(&answer.answered))
}

// Whether a command was carried out.
fn is_carried(answered: &Answered) -> bool
    ensures { result ≡ is_carried answered.now }
{
    match answered {
        Answered::Carried { .. } => true,
        Answered::Asked { .. } | Answered::Refused { .. } | Answered::Bad { .. } => false,
    }
}

// A part of a text that isn't complete stays.
fn keep_part(
    alloc: Global,
    parts: &mut List<Bytes>,
    part: &Bytes,
    answered: &Answered,
) -> Result<(), AllocError>
    ensures { OnOk result (parts.new ≡ kept_as answered.now (parts.old ++ part.now ∷ [])) }
{
    match answered {
        Answered::Asked { .. } => parts.push(part.copy()?),
        Answered::Carried { .. } | Answered::Refused { .. } | Answered::Bad { .. } => {
            *parts = List::new(alloc);
            Ok(())
        }
    }
}

// These parts, and one more.
fn parts_with(alloc: Global, parts: &[Bytes], more: &[u8]) -> Result<List<Bytes>, AllocError>
    ensures { IfOk result (λ all. all ≡ parts.now ++ more.now ∷ []) }
{
    let mut all = List::new(alloc);
    for part in parts {
        all.push(part.copy()?)?;
    }
    all.push(Bytes::of(more.to_vec(alloc)?))?;
    Ok(all)
}

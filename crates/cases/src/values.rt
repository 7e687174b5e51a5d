//! Values that many lines have: names, numbers, sets, flags, tags, bytes.

ghost use Rattle.std.specs.Prelude.{◌≡◌, ℕ, IfOk, List, Some, codes, decimal, if◌then◌else◌};
ghost use Rattle.mail_base.specs.BoxName.{KeptAs};
ghost use Rattle.cases.specs.Answers.{Adds, joined};
ghost use Rattle.cases.specs.Taking.{next_text};
ghost use Rattle.cases.specs.Written.{written};

use crate::answer::Answer;
use crate::fault::WordFault;
use crate::input::Input;
use crate::numbers::number_of;
use flag_set::{FlagFault, FlagKey, FlagSet};
use mail_base::{ActionId, BoxName, Bytes, ModSeq, Tag, Validity, Words};
use std::alloc::Global;
use uid_sets::{Uid, UidSet};

/// The next word as the name of a mailbox.
pub fn name(input: &mut Input) -> Result<BoxName, WordFault>
    ensures { IfOk result (λ name. (text : List ℕ) × (next_text input.old.words.now ≡ Some (text, input.new.words.now)) × KeptAs text name) }
{
    named(input.text()?)
}

/// The mailbox of this name.
pub fn named(text: &[u8]) -> Result<BoxName, WordFault>
    ensures { IfOk result (KeptAs text.now) }
{
    match BoxName::new(text) {
        Ok(name) => Ok(name),
        Err(_) => Err(WordFault::Form),
    }
}

/// The next word as a UID.
pub fn uid(input: &mut Input) -> Result<Uid, WordFault>
    ensures { IfOk result (λ uid. next_text input.old.words.now ≡ Some (decimal uid, input.new.words.now)) }
{
    Uid::new(input.short()?).ok_or(WordFault::Form)
}

/// The next word as a UIDVALIDITY.
pub fn validity(input: &mut Input) -> Result<Validity, WordFault>
    ensures { IfOk result (λ validity. next_text input.old.words.now ≡ Some (decimal validity, input.new.words.now)) }
{
    Validity::new(input.short()?).ok_or(WordFault::Form)
}

/// The next word as a mod-sequence.
pub fn modseq(input: &mut Input) -> Result<ModSeq, WordFault>
    ensures { IfOk result (λ modseq. next_text input.old.words.now ≡ Some (decimal modseq, input.new.words.now)) }
{
    ModSeq::new(input.number()?).ok_or(WordFault::Form)
}

/// The next word as the number of an action.
pub fn action_id(input: &mut Input) -> Result<ActionId, WordFault>
    ensures { IfOk result (λ id. next_text input.old.words.now ≡ Some (decimal id, input.new.words.now)) }
{
    ActionId::new(input.short()?).ok_or(WordFault::Form)
}

/// The next word as a set of UIDs: `none`, or its text (RFC 9051, section 9, `sequence-set`).
pub fn set(input: &mut Input) -> Result<UidSet, WordFault> {
    if input.skips("none") {
        return Ok(UidSet::none(input.alloc));
    }
    UidSet::read(input.alloc, input.text()?)
        .ok()
        .ok_or(WordFault::Form)
}

/// The words to the end of the step as a set of flags, whose keys are added one after another, so
/// that `\Recent` is kept too.
pub fn flags(input: &mut Input) -> Result<FlagSet, WordFault> {
    let mut flags = FlagSet::none(input.alloc);
    for _ in 0..input.len() {
        if input.is_step_done() {
            break;
        }
        let text = input.text()?;
        flags.add(key(input.alloc, text)?)?;
    }
    Ok(flags)
}

/// The words to the end of the step as the flags that a server lists: `\Recent` is dropped, and
/// they are at most 1,024.
pub fn listed_flags(input: &mut Input) -> Result<FlagSet, WordFault> {
    let list = listed(input)?;
    match FlagSet::read_list(input.alloc, &list) {
        Ok(flags) => Ok(flags),
        Err(FlagFault::Memory) => Err(WordFault::Memory),
        Err(_) => Err(WordFault::Form),
    }
}

// The words to the end of the step with a space between each two. None of them is empty or holds
// one.
fn listed(input: &mut Input) -> Result<Vec<u8>, WordFault> {
    let mut list = Vec::new(input.alloc);
    for _ in 0..input.len() {
        if input.is_step_done() {
            break;
        }
        put_listed(&mut list, input.text()?)?;
    }
    Ok(list)
}

fn put_listed(list: &mut Vec<u8>, text: &[u8]) -> Result<(), WordFault> {
    if text.is_empty() || text.contains(&b' ') {
        return Err(WordFault::Form);
    }
    if !list.is_empty() {
        list.push(b' ')?;
    }
    list.extend_from_slice(text)?;
    Ok(())
}

/// The key of a flag.
pub fn key(alloc: Global, text: &[u8]) -> Result<FlagKey, WordFault> {
    match FlagKey::new(alloc, text) {
        Ok(key) => Ok(key),
        Err(FlagFault::Memory) => Err(WordFault::Memory),
        Err(_) => Err(WordFault::Form),
    }
}

/// The next word as bytes on the heap.
pub fn bytes(input: &mut Input) -> Result<Bytes, WordFault>
    ensures { IfOk result (λ bytes. next_text input.old.words.now ≡ Some (bytes, input.new.words.now)) }
{
    let text = input.text()?;
    Ok(Bytes::of(text.to_vec(input.alloc)?))
}

/// Adds a set of UIDs.
pub fn put_set(answer: &mut Answer, set: &UidSet) -> Result<(), WordFault> {
    if set.is_empty() {
        return answer.word("none");
    }
    answer.text(&set.text()?)
}

/// Adds the flags of a set, as its text spells them: the system's as RFC 9051 does (section 2.3.2),
/// others in lower case.
pub fn put_flags(answer: &mut Answer, flags: &FlagSet) -> Result<(), WordFault> {
    for flag in flags.keys() {
        answer.text(flag.spelling())?;
    }
    Ok(())
}

/// Adds a UID.
pub fn put_uid(answer: &mut Answer, uid: Uid) -> Result<(), WordFault>
    ensures { Adds result answer.new (joined answer.old (decimal uid)) }
{
    answer.number(u64::from(uid.number()))
}

/// Adds a UIDVALIDITY.
pub fn put_validity(answer: &mut Answer, validity: Validity) -> Result<(), WordFault>
    ensures { Adds result answer.new (joined answer.old (decimal validity)) }
{
    answer.number(u64::from(validity.number()))
}

/// Adds a mod-sequence.
pub fn put_modseq(answer: &mut Answer, modseq: ModSeq) -> Result<(), WordFault>
    ensures { Adds result answer.new (joined answer.old (decimal modseq)) }
{
    answer.number(modseq.number())
}

/// Adds the name of a mailbox.
pub fn put_name(answer: &mut Answer, name: &BoxName) -> Result<(), WordFault>
    ensures { Adds result answer.new (joined answer.old (written name.now)) }
{
    answer.text(name.as_bytes())
}

/// Adds a keyword and the name of a mailbox.
pub fn put_headed(answer: &mut Answer, word: &str, name: &BoxName) -> Result<(), WordFault> {
    answer.word(word)?;
    put_name(answer, name)
}

/// Adds a UIDVALIDITY and a UID under it.
pub fn put_place(answer: &mut Answer, validity: Validity, uid: Uid) -> Result<(), WordFault> {
    put_validity(answer, validity)?;
    put_uid(answer, uid)
}

/// Adds a UID and a mod-sequence.
pub fn put_stamp(answer: &mut Answer, uid: Uid, modseq: ModSeq) -> Result<(), WordFault> {
    put_uid(answer, uid)?;
    put_modseq(answer, modseq)
}

/// Adds a text and the flags behind it.
pub fn put_filed(answer: &mut Answer, text: &Bytes, flags: &FlagSet) -> Result<(), WordFault> {
    answer.text(text.as_slice())?;
    put_flags(answer, flags)
}

/// The next word as a sign: whether flags are added.
pub fn sign(input: &mut Input) -> Result<bool, WordFault> {
    match input.word()? {
        "+" => Ok(true),
        "-" => Ok(false),
        _ => Err(WordFault::Form),
    }
}

/// Adds whether flags are added.
pub fn put_sign(answer: &mut Answer, add: bool) -> Result<(), WordFault>
    ensures { Adds result answer.new (joined answer.old (if add then codes "+" else codes "-")) }
{
    answer.word(if add { "+" } else { "-" })
}

/// The next word as a tag: `P3`, `P3R2`, `C4`, or `strange`.
pub fn tag(input: &mut Input) -> Result<Tag, WordFault> {
    let word = input.letters()?;
    if word == "strange" {
        return Ok(Tag::Strange);
    }
    if let Some(digits) = word.strip_prefix('P') {
        return played(digits);
    }
    match word.strip_prefix('C') {
        Some(digits) => Ok(Tag::Count(short_of(digits)?)),
        None => Err(WordFault::Form),
    }
}

// What stands behind the `P`: a number, or one and the turn of a later try.
fn played(text: &str) -> Result<Tag, WordFault> {
    let Some((id, turn)) = text.split_once('R') else {
        return Ok(Tag::Play(short_of(text)?));
    };
    let id = short_of(id)?;
    match u8::try_from(short_of(turn)?) {
        Ok(turn) => Ok(Tag::Again { id, turn }),
        Err(_) => Err(WordFault::Form),
    }
}

// The number below 2^32 that letters spell.
fn short_of(digits: &str) -> Result<u32, WordFault> {
    let number = number_of(digits.as_bytes()).ok_or(WordFault::Form)?;
    u32::try_from(number).ok().ok_or(WordFault::Form)
}

/// Adds a tag.
pub fn put_tag(answer: &mut Answer, tag: Tag) -> Result<(), WordFault> {
    match tag {
        Tag::Play(number) => answer.marked("P", number),
        Tag::Again { id, turn } => answer.tried(id, turn),
        Tag::Count(number) => answer.marked("C", number),
        Tag::Strange => answer.word("strange"),
    }
}

/// Adds each of the words as a text.
pub fn put_words(answer: &mut Answer, words: &Words) -> Result<(), WordFault> {
    for word in words.as_slice() {
        answer.text(word.as_slice())?;
    }
    Ok(())
}

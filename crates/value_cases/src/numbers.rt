//! Calls of `mail_base`: numbers, names, accounts, printed lines, lists, tags and statuses.

use cases::{Answer, Input, WordFault, bytes, name, tag};
use mail_base::{
    Account, AccountFault, ActionId, BoxName, Frame, Line, List, Map, NameFault, NumberFault, Span,
    Status, Tag, Validity, Words, read_modseq, read_u32,
};
use std::collections::BTreeMap;

/// Whether two texts are one name.
pub fn put_same(input: &mut Input, answer: &mut Answer) -> Result<(), WordFault> {
    let left = name(input)?;
    let right = name(input)?;
    answer.yes(left == right)
}

/// Whether a number is a UIDVALIDITY.
pub fn put_validity(input: &mut Input, answer: &mut Answer) -> Result<(), WordFault> {
    answer.yes(Validity::new(input.short()?).is_some())
}

/// The number of 32 bits that a text is read as.
pub fn put_number(input: &mut Input, answer: &mut Answer) -> Result<(), WordFault> {
    match read_u32(input.text()?) {
        Ok(number) => answer.number(u64::from(number)),
        Err(fault) => put_number_fault(answer, fault),
    }
}

/// The mod-sequence that a text is read as.
pub fn put_modseq_read(input: &mut Input, answer: &mut Answer) -> Result<(), WordFault> {
    match read_modseq(input.text()?) {
        Ok(modseq) => answer.number(modseq.number()),
        Err(fault) => put_number_fault(answer, fault),
    }
}

fn put_number_fault(answer: &mut Answer, fault: NumberFault) -> Result<(), WordFault> {
    match fault {
        NumberFault::Empty => answer.word("empty"),
        NumberFault::NotDigit { at } => answer.at("not a digit at", at),
        NumberFault::TooBig { at } => answer.at("too big at", at),
        NumberFault::Zero => answer.word("zero"),
    }
}

/// The copy of the name that a text writes.
pub fn put_name(input: &mut Input, answer: &mut Answer) -> Result<(), WordFault> {
    match BoxName::new(input.text()?) {
        Ok(name) => answer.text(name.copy().as_bytes()),
        Err(NameFault::Empty) => answer.word("empty"),
        Err(NameFault::TooLong { length }) => answer.at("too long", length),
        Err(NameFault::BadByte { at }) => answer.at("bad byte at", at),
    }
}

/// The copy of the account of a user and a password.
pub fn put_account(input: &mut Input, answer: &mut Answer) -> Result<(), WordFault> {
    let (user, password) = (input.letters()?, input.letters()?);
    match Account::new(input.alloc, user, password) {
        Ok(account) => put_copy(answer, &account),
        Err(AccountFault::HasNul) => answer.word("has a nul"),
        Err(AccountFault::Memory) => Err(WordFault::Memory),
    }
}

fn put_copy(answer: &mut Answer, account: &Account) -> Result<(), WordFault> {
    let copy = account.copy()?;
    put_login(answer, &copy)
}

fn put_login(answer: &mut Answer, account: &Account) -> Result<(), WordFault> {
    answer.text(account.user().as_bytes())?;
    answer.text(account.password().as_bytes())
}

/// A printed line, by its name and its number where it has one.
pub fn put_line(input: &mut Input, answer: &mut Answer) -> Result<(), WordFault> {
    let line = match input.word()? {
        "ready" => Line::ready(),
        "accepted" => Line::accepted(input.number()?),
        "error-words" => Line::error_words(),
        "error-disk" => Line::error_disk(),
        "error-memory" => Line::error_memory(),
        "journal-none" => Line::journal_none(),
        "journal-header" => Line::journal_header(),
        "journal-generations" => Line::journal_generations(),
        "journal-exists" => Line::journal_exists(),
        "journal-record" => Line::journal_record(input.number()?),
        "limit-journal" => Line::limit_journal(input.number()?),
        _ => return Err(WordFault::Form),
    };
    answer.text(line.as_bytes())
}

/// The number of a status.
pub fn put_status(input: &mut Input, answer: &mut Answer) -> Result<(), WordFault> {
    let status = match input.word()? {
        "done" => Status::Done,
        "conflicts" => Status::Conflicts,
        "limit" => Status::Limit,
        "shelf" => Status::Shelf,
        _ => return Err(WordFault::Form),
    };
    answer.number(u64::from(status.code()))
}

/// The action whose first or later try has a tag.
pub fn put_action(input: &mut Input, answer: &mut Answer) -> Result<(), WordFault> {
    put_action_of(answer, tag(input)?)
}

/// The action of the tag of a try, behind so many that were withdrawn.
pub fn put_action_of_try(input: &mut Input, answer: &mut Answer) -> Result<(), WordFault> {
    put_action_of(answer, try_of(input)?)
}

fn put_action_of(answer: &mut Answer, tag: Tag) -> Result<(), WordFault> {
    match tag.action() {
        Some(number) => answer.number(u64::from(number)),
        None => answer.word("none"),
    }
}

// The tag of a try of an action, behind so many that were withdrawn.
fn try_of(input: &mut Input) -> Result<Tag, WordFault> {
    let id = input.short()?;
    match input.short()? {
        0 => Ok(Tag::of_try(id, 0)),
        1 => Ok(Tag::of_try(id, 1)),
        2 => Ok(Tag::of_try(id, 2)),
        _ => Err(WordFault::Form),
    }
}

/// The number of an action.
pub fn put_action_id(input: &mut Input, answer: &mut Answer) -> Result<(), WordFault> {
    match ActionId::new(input.short()?) {
        Some(id) => answer.number(u64::from(id.number())),
        None => answer.word("none"),
    }
}

/// A list of numbers, with another number at a place.
pub fn put_items(input: &mut Input, answer: &mut Answer) -> Result<(), WordFault> {
    let at = input.short()? as usize;
    let item = input.short()?;
    let mut list = List::new(input.alloc);
    for _ in 0..input.len() {
        list.push(input.short()?)?;
    }
    if at >= list.len() {
        return Err(WordFault::Form);
    }
    list.put(at, item);
    for number in list.into_vec() {
        answer.number(u64::from(number))?;
    }
    Ok(())
}

/// A map of keys and values: how many there are, and each pair.
pub fn put_map(input: &mut Input, answer: &mut Answer) -> Result<(), WordFault> {
    let mut content = Map::new(input.alloc).into_map();
    for _ in 0..input.len() / 2 {
        let (key, value) = (input.short()?, input.short()?);
        content.insert(key, value)?;
    }
    put_pairs(answer, Map::of(content).as_map())
}

fn put_pairs(answer: &mut Answer, pairs: &BTreeMap<u32, u32>) -> Result<(), WordFault> {
    answer.place(pairs.len())?;
    for (key, value) in pairs {
        answer.range(u64::from(*key), u64::from(*value))?;
    }
    Ok(())
}

/// Whether a word is among the words of a copy, of which the first is told too.
pub fn put_word(input: &mut Input, answer: &mut Answer) -> Result<(), WordFault> {
    let word = input.text()?;
    let mut words = Words::new(input.alloc);
    for _ in 0..input.len() {
        words.push(bytes(input)?.copy()?)?;
    }
    let copy = words.copy(input.alloc)?;
    answer.yes(copy.has(word))?;
    match copy.as_slice().first() {
        Some(first) => answer.text(first.as_slice()),
        None => answer.word("none"),
    }
}

/// The copy of a frame, which begins at a place, with one literal.
pub fn put_frame(input: &mut Input, answer: &mut Answer) -> Result<(), WordFault> {
    let frame = Frame {
        at: input.number()?,
        bytes: bytes(input)?,
        literals: spans(input)?,
    };
    let copy = frame.copy(input.alloc);
    drop(frame);
    put_frame_of(answer, &copy?)
}

fn put_frame_of(answer: &mut Answer, frame: &Frame) -> Result<(), WordFault> {
    answer.number(frame.at)?;
    answer.text(frame.bytes.as_slice())?;
    put_spans(answer, frame.literals.as_slice())
}

/// The spans of all words that are left, as `5:7`.
pub fn spans(input: &mut Input) -> Result<List<Span>, WordFault> {
    let mut spans = List::new(input.alloc);
    for _ in 0..input.len() {
        let (low, high) = pair(input)?;
        spans.push(Span {
            low: low as usize,
            high: high as usize,
        })?;
    }
    Ok(spans)
}

/// The next word as two numbers, `5:7`.
pub fn pair(input: &mut Input) -> Result<(u32, u32), WordFault> {
    let (low, high) = input.word()?.split_once(':').ok_or(WordFault::Form)?;
    match (low.parse(), high.parse()) {
        (Ok(low), Ok(high)) => Ok((low, high)),
        _ => Err(WordFault::Form),
    }
}

/// Adds spans.
pub fn put_spans(answer: &mut Answer, spans: &[Span]) -> Result<(), WordFault> {
    for span in spans {
        answer.range(span.low as u64, span.high as u64)?;
    }
    Ok(())
}

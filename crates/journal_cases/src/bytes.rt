//! The bytes that words of a case stand for: terms with a `+` between each two, of which some are
//! texts, some are numbers or names as a record has them, and some were given a name before.

use cases::{Input, WordFault, read_line};
use std::alloc::Global;

// The most bytes that a count asks for.
const MOST: u64 = 65_536;

// Bytes with a name.
#[derive(Drop)]
struct Named {
    name: String,
    bytes: Vec<u8>,
}

/// The bytes that have names.
#[derive(Drop)]
pub struct Names {
    pub alloc: Global,
    rows: Vec<Named>,
}

impl Names {
    /// None have.
    pub fn new(alloc: Global) -> Names {
        Names {
            alloc,
            rows: Vec::new(alloc),
        }
    }

    /// `BEGIN "B\x02" + name INBOX`: gives bytes a name.
    pub fn add(&mut self, input: &mut Input<'_>) -> Result<(), WordFault> {
        let name = String::from_str(self.alloc, input.word()?)?;
        let bytes = self.bytes(input)?;
        self.rows.push(Named { name, bytes })?;
        Ok(())
    }

    /// The bytes that have their name since last.
    pub fn last(&self) -> Result<&[u8], WordFault> {
        match self.rows.last() {
            Some(row) => Ok(&row.bytes),
            None => Err(WordFault::Form),
        }
    }

    /// The bytes that the next words stand for.
    pub fn bytes(&self, input: &mut Input<'_>) -> Result<Vec<u8>, WordFault> {
        let mut bytes = self.term(input)?;
        for _ in 0..input.len() {
            if !input.skips("+") {
                break;
            }
            bytes.extend_from_slice(&self.term(input)?)?;
        }
        Ok(bytes)
    }

    /// The bytes that all words of a text stand for.
    pub fn all(&self, text: &str) -> Result<Vec<u8>, WordFault> {
        read_line(self.alloc, text, |input| self.bytes(input))
    }

    // `BEGUN to 34`: the first 34 bytes. `BEGUN but 13 0`: the bytes with 0 at place 13.
    fn term(&self, input: &mut Input<'_>) -> Result<Vec<u8>, WordFault> {
        let mut bytes = self.base(input)?;
        if input.skips("to") {
            bytes.truncate(place(input)?);
        }
        for _ in 0..input.len() {
            if !input.skips("but") {
                break;
            }
            put_change(&mut bytes, input)?;
        }
        Ok(bytes)
    }

    // A term whole and without changes.
    fn base(&self, input: &mut Input<'_>) -> Result<Vec<u8>, WordFault> {
        if !input.is_bare() {
            return self.spelled(input.text()?);
        }
        match input.word()? {
            "number" => self.spelled(&input.short()?.to_be_bytes()),
            "long" => self.spelled(&input.number()?.to_be_bytes()),
            "name" => self.counted(input.text()?),
            "noise" => noise(self.alloc, input.number()?),
            "accepts" => accepts(self.alloc, input.short()?),
            name => self.named(name),
        }
    }

    fn spelled(&self, bytes: &[u8]) -> Result<Vec<u8>, WordFault> {
        Ok(bytes.to_vec(self.alloc)?)
    }

    // A name behind its length.
    fn counted(&self, name: &[u8]) -> Result<Vec<u8>, WordFault> {
        let Ok(length) = u8::try_from(name.len()) else {
            return Err(WordFault::Form);
        };
        let mut bytes = Vec::new(self.alloc);
        bytes.push(length)?;
        bytes.extend_from_slice(name)?;
        Ok(bytes)
    }

    // The bytes that have this name.
    fn named(&self, name: &str) -> Result<Vec<u8>, WordFault> {
        for row in &self.rows {
            if row.name.as_str() == name {
                return Ok(row.bytes.clone()?);
            }
        }
        Err(WordFault::Form)
    }
}

/// The next word as a place, or as a size.
pub fn place(input: &mut Input<'_>) -> Result<usize, WordFault> {
    usize::try_from(input.number()?).map_err(|_| WordFault::Form)
}

/// The next word as the number of a byte.
pub fn byte(input: &mut Input<'_>) -> Result<u8, WordFault> {
    u8::try_from(input.number()?).map_err(|_| WordFault::Form)
}

// `13 0`: the byte at place 13 is 0.
fn put_change(bytes: &mut [u8], input: &mut Input<'_>) -> Result<(), WordFault> {
    let at = place(input)?;
    let byte = byte(input)?;
    match bytes.get_mut(at) {
        Some(old) => {
            *old = byte;
            Ok(())
        }
        None => Err(WordFault::Form),
    }
}

// So many bytes without an order.
fn noise(alloc: Global, count: u64) -> Result<Vec<u8>, WordFault> {
    if count > MOST {
        return Err(WordFault::Form);
    }
    let mut bytes = Vec::new(alloc);
    let mut state = 1u32;
    for _ in 0..count {
        state = state.wrapping_mul(1_664_525).wrapping_add(1_013_904_223);
        bytes.push((state >> 24) as u8)?;
    }
    Ok(bytes)
}

// So many records of actions, numbered from 1, that add \seen to message 42 of INBOX, whose
// UIDVALIDITY is 5.
fn accepts(alloc: Global, count: u32) -> Result<Vec<u8>, WordFault> {
    if u64::from(count) > MOST {
        return Err(WordFault::Form);
    }
    let mut bytes = Vec::new(alloc);
    for before in 0..count {
        bytes.extend_from_slice(b"\x01\x00\x00\x00\x1eA")?;
        bytes.extend_from_slice(&before.wrapping_add(1).to_be_bytes())?;
        bytes.extend_from_slice(b"FR\x05INBOX\x00\x00\x00\x05\x00\x00\x00*+\x00\x01\x05\\seen")?;
    }
    Ok(bytes)
}

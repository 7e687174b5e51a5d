//! What a server says, line by line, as the reply to one command.

use cases::{WordFault, read_line, set};
use flag_set::FlagSet;
use imap_model::{Fetched, Replies, Response};
use imap_response::read;
use literal_feed::Feed;
use mail_base::{Frame, List, ModSeq};
use std::alloc::Global;
use std::mem;
use uid_sets::{Uid, UidRange};

/// The lines of a reply so far.
#[derive(Drop)]
pub struct Ear {
    alloc: Global,
    feed: Feed,
    untagged: List<Response>,
}

impl Ear {
    /// Nothing was said.
    pub fn new(alloc: Global) -> Ear {
        Ear {
            alloc,
            feed: Feed::new(alloc),
            untagged: List::new(alloc),
        }
    }

    /// Whether nothing was said since the last whole reply.
    pub fn is_silent(&self) -> bool {
        self.untagged.len() == 0 && self.feed.held() == 0
    }

    /// Takes a line, with its CRLF. With the completion the reply is whole.
    pub fn hear(&mut self, bytes: &[u8]) -> Result<Option<Replies>, WordFault> {
        if self.feed.push(bytes).is_err() {
            return Err(WordFault::Form);
        }
        match self.feed.take()? {
            Some(frame) => self.hear_frame(&frame),
            None => Ok(None),
        }
    }

    fn hear_frame(&mut self, frame: &Frame) -> Result<Option<Replies>, WordFault> {
        match response_of(self.alloc, frame)? {
            Response::Done { ending, code, .. } => {
                let untagged = mem::replace(&mut self.untagged, List::new(self.alloc));
                Ok(Some(Replies {
                    untagged,
                    ending,
                    code,
                }))
            }
            response => {
                self.untagged.push(response)?;
                Ok(None)
            }
        }
    }

    /// Takes a row of each UID of a set, as `1:200000`.
    pub fn hear_rows(&mut self, text: &str) -> Result<(), WordFault> {
        let uids = read_line(self.alloc, text, set)?;
        for range in uids.ranges() {
            self.hear_range(range)?;
        }
        Ok(())
    }

    fn hear_range(&mut self, range: &UidRange) -> Result<(), WordFault> {
        for number in range.low..=range.high {
            let row = row_of(self.alloc, number)?;
            self.untagged.push(row)?;
        }
        Ok(())
    }
}

fn response_of(alloc: Global, frame: &Frame) -> Result<Response, WordFault> {
    match read(alloc, frame) {
        Ok(response) => Ok(response),
        Err(_) => Err(WordFault::Form),
    }
}

// The row of this UID, without flags.
fn row_of(alloc: Global, number: u32) -> Result<Response, WordFault> {
    let (Some(uid), Some(modseq)) = (Uid::new(number), ModSeq::new(u64::from(number))) else {
        return Err(WordFault::Form);
    };
    Ok(Response::Fetch(Fetched {
        uid: Some(uid),
        flags: Some(FlagSet::none(alloc)),
        modseq: Some(modseq),
        ids: None,
        text: None,
    }))
}

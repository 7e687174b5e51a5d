//! The faults of a session as words.

use cases::{Answer, WordFault};
use imap_model::{Item, Limit};
use imap_session::SessionFault;

/// Adds a fault.
pub fn put_fault(answer: &mut Answer, fault: &SessionFault) -> Result<(), WordFault> {
    match fault {
        SessionFault::Memory => answer.word("memory"),
        SessionFault::Link => answer.word("link"),
        SessionFault::Refused { line } => {
            answer.word("refused")?;
            answer.text(line.as_slice())
        }
        SessionFault::BadReply { at } => {
            answer.word("bad")?;
            answer.number(*at)
        }
        SessionFault::Lacking { what } => {
            answer.word("lacking")?;
            answer.word(item_word(*what))
        }
        SessionFault::TooLarge { limit, number } => {
            answer.word("too large")?;
            answer.word(limit_word(*limit))?;
            answer.number(*number)
        }
    }
}

/// The word of what wasn't told.
pub fn item_word(item: Item) -> &'static str {
    match item {
        Item::Qresync => "QRESYNC",
        Item::Uidplus => "UIDPLUS",
        Item::Move => "MOVE",
        Item::Login => "LOGIN",
        Item::ModSeqs => "mod-sequences",
        Item::Sticky => "sticky UIDs",
        Item::UidValidity => "UIDVALIDITY",
        Item::UidNext => "UIDNEXT",
        Item::HighestModSeq => "HIGHESTMODSEQ",
        Item::CopyUid => "COPYUID",
        Item::AppendUid => "APPENDUID",
        Item::Flags => "FLAGS",
        Item::ModSeq => "MODSEQ",
        Item::Row => "row",
        Item::Body => "BODY",
    }
}

fn limit_word(limit: Limit) -> &'static str {
    match limit {
        Limit::Literal => "literal",
        Limit::Line => "line",
        Limit::Reply => "reply",
        Limit::Rows => "rows",
        Limit::Flags => "flags",
        Limit::Flag => "flag",
        Limit::Journal => "journal",
        Limit::Actions => "actions",
        Limit::Generation => "generation",
    }
}

//! Why a reply isn't taken, as words: `resync nomodseq`, `target 5 6`, `lacks FLAGS`, `rows
//! 200001`.

use crate::faults::item_word;
use cases::{Answer, WordFault, put_modseq, put_validity};
use playback::Unheard;
use qresync_core::ResyncFault;

/// Adds a fault.
pub fn put_fault(answer: &mut Answer, fault: &Unheard) -> Result<(), WordFault> {
    match fault {
        Unheard::Memory => Err(WordFault::Memory),
        Unheard::Resync(resync) => {
            answer.word("resync")?;
            put_resync(answer, resync)
        }
        Unheard::Target { kept, told } => {
            answer.word("target")?;
            put_validity(answer, *kept)?;
            put_validity(answer, *told)
        }
        Unheard::Lacks { item } => {
            answer.word("lacks")?;
            answer.word(item_word(*item))
        }
        Unheard::Rows { count } => {
            answer.word("rows")?;
            answer.number(*count)
        }
    }
}

fn put_resync(answer: &mut Answer, fault: &ResyncFault) -> Result<(), WordFault> {
    match fault {
        ResyncFault::Memory => Err(WordFault::Memory),
        ResyncFault::NoModSeq => answer.word("nomodseq"),
        ResyncFault::NotSticky => answer.word("uidnotsticky"),
        ResyncFault::NoCode { which } => {
            answer.word("no")?;
            answer.word(item_word(*which))
        }
        ResyncFault::Validity { kept, told } => {
            answer.word("validity")?;
            put_validity(answer, *kept)?;
            put_validity(answer, *told)
        }
        ResyncFault::Unfit { kept, told } => {
            answer.word("unfit")?;
            put_modseq(answer, *kept)?;
            put_modseq(answer, *told)
        }
        ResyncFault::BareRow { index } => answer.at("bare row at", *index),
    }
}

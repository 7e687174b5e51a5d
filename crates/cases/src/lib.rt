//! The language of cases, for the programs that try the crates by lines of data (docs/CASES.md):
//! files of cases, the words of a line and back, values of mail as words and back, and what is told
//! where a line differs. What it writes it reads again; all of it is proved safe, and no promise of
//! the product rests on it.
//!
//! What reads a value fails by `WordFault::Form` where the next words aren't one, or for want of
//! memory; what adds the words of a value fails for want of memory alone.
#![tactic(auto)]

mod answer;
mod case_file;
mod checking;
mod commands;
mod deltas;
mod events;
mod fault;
mod foreign;
mod input;
mod mailboxes;
mod numbers;
mod outcomes;
mod response;
mod tally;
mod values;
mod words;
mod writing;

pub use answer::{Answer, answer_of};
pub use case_file::{CaseFile, DueLine, Line, case_file_of, last_number};
pub use checking::{Play, check_file, checked};
pub use commands::{account, command, mark, put_command};
pub use deltas::{delta, put_delta, put_row, put_rows, put_vanished};
pub use events::{action, event, intent, put_action, put_event, put_intent, put_numbered, target};
pub use fault::{Fault, Stop, WordFault, differs, same_bytes, same_number, same_text, same_words};
pub use foreign::{Foreign, change, put_change};
pub use input::{Input, read_line};
pub use mailboxes::{gone, mailbox, message, put_gone, put_mailbox, put_message};
pub use numbers::number_of;
pub use outcomes::{outcome, put_outcome};
pub use response::{kind_of, put_code, put_response, word_of_ending};
pub use tally::{Tally, print_tally, stop_line};
pub use values::{
    bytes, flags, key, listed_flags, modseq, name, named, put_flags, put_modseq, put_name,
    put_place, put_set, put_tag, put_uid, put_validity, set, tag, uid, validity,
};
pub use words::{Word, words_of};
pub use writing::{put_hex, put_word, written};

//! The call of `cases` itself: how a file of cases is read.

use cases::{Answer, Input, WordFault, case_file_of, stop_line};

/// How many cases a file of this text has, or what is told where it can't be read.
pub fn put_case_file(input: &mut Input, answer: &mut Answer) -> Result<(), WordFault> {
    match case_file_of(input.alloc, input.letters()?) {
        Ok(file) => {
            let count = file.cases.len();
            drop(file);
            answer.place(count)
        }
        Err(stop) => {
            let line = stop_line(input.alloc, "file", &stop);
            drop(stop);
            answer.text(line?.as_bytes())
        }
    }
}

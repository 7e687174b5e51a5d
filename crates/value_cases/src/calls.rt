//! Finds what answers a call: what a case has kept, or a module of calls.

use crate::books::{Books, begun_books};
use crate::caches::{Both, taken};
use crate::commands::Spoken;
use crate::plain_images::Call;
use crate::responses::Telling;
use crate::resyncs::Heard;
use crate::{
    case_files, commands, flags, frames, headers, images, lines, numbers, records, responses,
    resyncs, sets, small_texts, tokens,
};
use cases::{Answer, Input, Word, WordFault};
use mail_base::Bytes;
use std::alloc::Global;

/// What the lines of a case have made so far.
#[derive(Drop)]
pub struct Kept {
    alloc: Global,
    books: Option<Box<Books>>,
    cache: Option<Box<Both>>,
    // The lines that a server sent.
    heard: Vec<Bytes>,
    // What the disk of a world is asked.
    asked: Vec<Call>,
}

impl Kept {
    /// Nothing was made.
    pub fn new(alloc: Global) -> Kept {
        Kept {
            alloc,
            books: None,
            cache: None,
            heard: Vec::new(alloc),
            asked: Vec::new(alloc),
        }
    }

    /// Keeps a line that a server sent.
    pub fn hear(&mut self, line: &str) -> Result<(), WordFault> {
        let line = line.as_bytes().to_vec(self.alloc)?;
        self.heard.push(Bytes::of(line))?;
        Ok(())
    }

    /// What the words of a line come to. Words that are no call are an event.
    pub fn answered(&mut self, words: &[Word]) -> Result<Answer, WordFault> {
        let mut answer = Answer::new(self.alloc);
        self.answer(words, &mut answer)?;
        Ok(answer)
    }

    fn answer(&mut self, words: &[Word], answer: &mut Answer) -> Result<(), WordFault> {
        let mut input = Input::new(self.alloc, words);
        let call = input.word()?;
        if self.answers(call, &mut input, answer)? {
            return input.end();
        }
        let mut event = Input::new(self.alloc, words);
        self.take(&mut event, answer)?;
        event.end()
    }

    // The books take an event.
    fn take(&mut self, input: &mut Input, answer: &mut Answer) -> Result<(), WordFault> {
        match &mut self.books {
            Some(books) => books.take(input, answer),
            None => Err(WordFault::Form),
        }
    }

    // Whether it was a call, which is then answered.
    fn answers(
        &mut self,
        call: &str,
        input: &mut Input,
        answer: &mut Answer,
    ) -> Result<bool, WordFault> {
        Ok(
            self.begins(call, input)?
                || self.is_kept(call, input, answer)?
                || is_value(call, input, answer)?
                || is_text(call, input, answer)?
                || is_bytes(call, input, answer)?,
        )
    }

    // Whether it was a call that begins something, or goes on with it.
    fn begins(&mut self, call: &str, input: &mut Input) -> Result<bool, WordFault> {
        match call {
            "book" => self.books = Some(begun_books(input)?),
            "cache" => self.cache = Some(taken(self.cache.take(), input)?),
            _ => return Ok(false),
        }
        Ok(true)
    }

    // Whether it was a call on what was made so far.
    fn is_kept(
        &mut self,
        call: &str,
        input: &mut Input,
        answer: &mut Answer,
    ) -> Result<bool, WordFault> {
        if let Some(books) = &mut self.books {
            return books.answers(call, input, answer);
        }
        if let Some(both) = &self.cache
            && both.answers(call, input, answer)?
        {
            return Ok(true);
        }
        let heard = Heard {
            alloc: self.alloc,
            lines: &self.heard,
        };
        let kept = match &self.cache {
            Some(both) => Some(&both.kept),
            None => None,
        };
        Ok(
            resyncs::answers(call, kept, heard, answer)?
                || images::answers(call, &mut self.asked, input, answer)?,
        )
    }
}

// Whether it was a call on small values.
fn is_value(call: &str, input: &mut Input, answer: &mut Answer) -> Result<bool, WordFault> {
    match call {
        "number" => numbers::put_number(input, answer),
        "modseq" => numbers::put_modseq_read(input, answer),
        "name" => numbers::put_name(input, answer),
        "same-name" => numbers::put_same(input, answer),
        "account" => numbers::put_account(input, answer),
        "line" => numbers::put_line(input, answer),
        "status" => numbers::put_status(input, answer),
        "action-of-tag" => numbers::put_action(input, answer),
        "action-of-try" => numbers::put_action_of_try(input, answer),
        "validity" => numbers::put_validity(input, answer),
        "action" => numbers::put_action_id(input, answer),
        "replaced-item" => numbers::put_items(input, answer),
        "map" => numbers::put_map(input, answer),
        "word-among-words" => numbers::put_word(input, answer),
        "copied-frame" => numbers::put_frame(input, answer),
        "set" => sets::put_read(input, answer),
        "set-with" => sets::put_with(input, answer),
        "set-from" => sets::put_from(input, answer),
        "set-union" => sets::put_union(input, answer),
        "set-minus" => sets::put_minus(input, answer),
        "set-holds" => sets::put_holds(input, answer),
        "only-member" => sets::put_only(input, answer),
        "set-of-ranges" => sets::put_of(input, answer),
        _ => return Ok(false),
    }?;
    Ok(true)
}

// Whether it was a call on flags, or on the texts of messages and of commands.
fn is_text(call: &str, input: &mut Input, answer: &mut Answer) -> Result<bool, WordFault> {
    match call {
        "flag" => flags::put_flag(input, answer),
        "asked-flag" => flags::put_asked(input, answer),
        "flags" => flags::put_list(input, answer),
        "count-of-flags" => flags::put_count(input, answer),
        "flags-added" => flags::put_added(input, answer),
        "pair-of-flags" => flags::put_both(input, answer),
        "flag-among-flags" => flags::put_holds(input, answer),
        "permanent-flags" => flags::put_permanent(input, answer),
        "are-flags" => flags::put_forms(input, answer),
        "unfolded" => headers::put_unfolded(input, answer),
        "with-line-ends" => headers::put_line_ends(input, answer),
        "message-id" => headers::put_id(input, answer),
        "fields" => headers::put_fields(input, answer),
        "texts" => small_texts::put_texts(input, answer),
        "case-file" => case_files::put_case_file(input, answer),
        "written" => commands::put_written(input, answer, Spoken::Parts),
        "is-mutating" => commands::put_mutating(input, answer),
        "argument" => commands::put_argument(input, answer),
        "heard" => commands::put_parts_heard(input, answer),
        "spoken" => commands::put_written(input, answer, Spoken::Fronts),
        "spoken-alike" => commands::put_written(input, answer, Spoken::Alike),
        _ => return Ok(false),
    }?;
    Ok(true)
}

// Whether it was a call on what a server sends, or on the records of a journal.
fn is_bytes(call: &str, input: &mut Input, answer: &mut Answer) -> Result<bool, WordFault> {
    match call {
        "tokens" => tokens::put_tokens(input, answer),
        "feed" => frames::put_feed(input, answer),
        "held" => frames::put_held(input, answer),
        "pieces" => frames::put_pieces(input, answer),
        "stream" => frames::put_stream(input, answer),
        "kind-of-response" => responses::put_read(input, answer, Telling::Kind),
        "response" => responses::put_read(input, answer, Telling::Whole),
        "lines" => lines::put_lines(input, answer),
        "literals" => lines::put_literals(input, answer),
        "record" => records::put_record(input, answer),
        _ => return Ok(false),
    }?;
    Ok(true)
}

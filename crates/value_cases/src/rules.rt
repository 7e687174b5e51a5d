//! The rules of a book, as words.

use action_queue::Rule;
use cases::{Answer, WordFault};

/// Adds the rule that an event breaks, or that it is entered.
pub fn put_rule(answer: &mut Answer, rule: Option<Rule>) -> Result<(), WordFault> {
    match rule {
        Some(rule) => answer.word(word_of(rule)),
        None => answer.word("entered"),
    }
}

fn word_of(rule: Rule) -> &'static str {
    match rule {
        Rule::BeginAgain => "begin-again",
        Rule::WrongNumber => "wrong-number",
        Rule::UnknownBox => "unknown-box",
        Rule::BadTarget => "bad-target",
        Rule::TooMany => "too-many",
        Rule::NotAllSettled => "not-all-settled",
        Rule::PendingAlready => "pending-already",
        Rule::NothingWaiting => "nothing-waiting",
        Rule::WrongAction => "wrong-action",
        Rule::WrongIntent => "wrong-intent",
        Rule::WrongTries => "wrong-tries",
        Rule::NeedsIntent => "needs-intent",
        Rule::NoIntentDue => "no-intent-due",
        Rule::WrongPlace => "wrong-place",
        Rule::WrongKind => "wrong-kind",
        Rule::WrongWhole => "wrong-whole",
        Rule::WrongValidity => "wrong-validity",
        Rule::LowerMark => "lower-mark",
        Rule::TooManyRows => "too-many-rows",
    }
}

//! The date of a text (RFC 5322, section 3.6.1).

ghost use Rattle.std.specs.Prelude.{◌≡◌, [], ◌∷◌, false, IfNone, IfOk, IfSome, option_map};
ghost use Rattle.mail_header.specs.Field.{fields_of};
ghost use Rattle.jiff_fmt.specs.Rfc2822.{timestamp};
ghost use Rattle.body_cache.specs.Dates.{date_bodies, date_of, only_one, seconds_of};

use jiff_fmt::rfc2822::DateTimeParser;
use mail_header::{Fields, fields, unfold};
use std::alloc::{AllocError, Global};

/// The seconds since the beginning of 1970 of a text's date: its header has one field named Date, in any case, and jiff's reader
/// of RFC 2822 dates takes the field's body without its folding. `None` where there isn't one such field, or its body isn't taken.
/// Fails for want of memory alone.
///
/// The reader passes over white space in front, takes second 60 for 59, refuses a weekday that doesn't fit the date, and takes an
/// unknown zone of letters for UTC and a comment at the end alone. Years of two digits are 1950 to 2049.
pub fn date_of(alloc: Global, text: &[u8]) -> Result<Option<i64>, AllocError>
    ensures { IfOk result (λ date. date ≡ date_of text.now) }
{
    let Some(body) = date_body(text) else {
        return Ok(None);
    };
    let unfolded = unfold(alloc, body)?;
    Ok(seconds_of(&unfolded))
}

// The body of the one field named Date.
fn date_body(text: &[u8]) -> Option<&[u8]>
    ensures { option_map (λ body. body.now) result ≡ only_one (date_bodies (fields_of text.now)) }
{
    let mut left = fields(text);
    let body = next_date(&mut left)?;
    match next_date(&mut left) {
        Some(_) => None,
        None => Some(body),
    }
}

// The next body of a field named Date.
fn next_date<'a>(left: &mut Fields<'a>) -> Option<&'a [u8]>
    ensures none { IfNone result (date_bodies left.old ≡ []) }
    ensures some { IfSome result (λ body. date_bodies left.old ≡ body.now ∷ date_bodies left.new) }
{
    while let Some(field) = left.next() {
        if field.name.eq_ignore_ascii_case(b"date") {
            return Some(field.body);
        }
    }
    None
}

// The seconds that a reader of dates gives.
fn seconds_of(unfolded: &[u8]) -> Option<i64>
    ensures { result ≡ seconds_of (timestamp false unfolded.now) }
{
    match DateTimeParser::new().parse_timestamp(unfolded) {
        Ok(timestamp) => Some(timestamp.floor_second()),
        Err(_) => None,
    }
}

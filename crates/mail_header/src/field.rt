//! The fields of a header (RFC 5322, section 2.2).

ghost use Rattle.std.specs.Prelude.{◌≡◌, option_map};
ghost use Rattle.mail_header.specs.Field as spec;
ghost use Rattle.mail_header.specs.Identifier.{is_id_name};

use crate::header_line::split_line;
use memchr::memchr;
use std::marker::Model;

/// A header field, as slices of its text. The body stands behind the colon as it is, with its folding and its spaces.
#[derive(Clone, Copy, Debug)]
pub struct Field<'a> {
    /// What stands before the first colon, which is never nothing. A space before the colon belongs to it.
    pub name: &'a [u8],
    /// What stands behind the first colon, to the field's last line without its CRLF.
    pub body: &'a [u8],
}

impl<'a> Field<'a> {
    /// The field that a line is, with the lines that go on with it.
    pub(crate) fn of(line: &'a [u8]) -> Option<Field<'a>>
        ensures { option_map spec.field_text result ≡ spec.field_of line.now }
    {
        let at = memchr(b':', line)?;
        if at == 0 {
            return None;
        }
        Some(Field {
            name: &line[..at],
            body: &line[at + 1..],
        })
    }

    /// Whether the name is Message-ID, in any case of its letters.
    pub(crate) fn is_id(&self) -> bool
        ensures { result ≡ is_id_name self.now.name.now }
    {
        self.name.eq_ignore_ascii_case(b"message-id")
    }
}

/// The fields of a text's header that weren't given yet, as [`fields`] makes it.
#[derive(Debug, Drop)]
pub struct Fields<'a> {
    rest: &'a [u8],
}

impl<'a> Model for Fields<'a> {
    ghost use Rattle.std.specs.Prelude.{List};
    ghost use Rattle.mail_header.specs.Field.{FieldText, fields_of};

    ghost Value = { List FieldText };

    ghost view = { λ fields. fields_of fields.rest.now };
}

impl<'a> Fields<'a> {
    /// All of them.
    pub(crate) fn of(text: &'a [u8]) -> Fields<'a>
        ensures { result ≡ spec.fields_of text.now }
    {
        Fields { rest: text }
    }
}

impl<'a> Iterator for Fields<'a> {
    ghost use Rattle.std.specs.Iterator.{YieldsFirstBy, item_count};
    ghost use Rattle.mail_header.specs.Field.{field_text};

    type Item = Field<'a>;

    ghost next_gives = { YieldsFirstBy field_text (λ left. left) };

    ghost remaining = { item_count (λ left. left) };

    fn next(&mut self) -> Option<Field<'a>> {
        while let Some((line, behind)) = split_line(self.rest) {
            self.rest = behind;
            if let Some(field) = Field::of(line) {
                return Some(field);
            }
        }
        None
    }
}

//! A text's header, as the list of its fields (RFC 5322, section 2.2).

ghost use Rattle.std.specs.Prelude.{◌≡◌};
ghost use Rattle.mail_header.specs.Field.{fields_of};

use crate::field::Fields;

/// The fields of a text's header, in their order. The header ends at the first empty line or the text's end, and its
/// lines end with CRLF; a line that begins with a space or tab goes on with the line before it. A line without a
/// colon, or with nothing before it, is no field and is passed over. Nothing behind the header is read.
pub fn fields(text: &[u8]) -> Fields<'_>
    ensures { result ≡ fields_of text.now }
{
    Fields::of(text)
}

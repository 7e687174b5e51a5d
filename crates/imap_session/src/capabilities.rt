//! Names that a server tells in a list (RFC 9051, sections 6.1.1, 6.3.1, 7.2.1 and 7.2.2).

ghost use Rattle.std.specs.Prelude.{◌≡◌};
ghost use Rattle.imap_session.specs.Offers.{names};

use mail_base::Words;

/// Whether the name is one of the words, whatever the case of its letters.
pub fn is_named(words: &Words, name: &[u8]) -> bool
    ensures { result ≡ names words.now name.now }
{
    words
        .as_slice()
        .iter()
        .any(|word| word.as_slice().eq_ignore_ascii_case(name))
}

//! What the lines of a text are, and what its header depends on (RFC 5322, sections 2.1 and 2.2).

ghost use Rattle.std.specs.Prelude.{◌≡◌, ◌++◌, ℕ, List, All};
ghost use Rattle.mail_header.specs.Header.{crlf, lines_of};
ghost use Rattle.mail_header.specs.Field.{fields_of};
ghost use Rattle.mail_header.specs.Identifier.{id_bodies};
ghost use Rattle.mail_header.specs.Joining.{with_crlfs, HoldsNoCrlf};

/// Lines that hold no CRLF, with a CRLF between each and the next, are the text: so they are its lines.
pub fn lines_are_the_text()
    ensures together { (text : List ℕ) → with_crlfs (lines_of text) ≡ text }
    ensures apart { (text : List ℕ) → All HoldsNoCrlf (lines_of text) }
{}

/// What stands behind a header's empty line changes neither its fields nor which of them are a Message-ID.
pub fn the_body_changes_nothing()
    ensures fields { (header body : List ℕ) → fields_of (header ++ crlf ++ crlf ++ body) ≡ fields_of header }
    ensures ids { (header body : List ℕ) → id_bodies (header ++ crlf ++ crlf ++ body) ≡ id_bodies header }
{}

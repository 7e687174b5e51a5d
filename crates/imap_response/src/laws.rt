//! What holds of the definition of responses (RFC 9051, sections 2.2, 4.3 and 9).

ghost use Rattle.imap_response.specs.OneResponse.{ReadsAsSpelled, GivesWithin, OneResponse, NoFront};

/// A frame is read as the response that it spells, and where it spells none it isn't read; it is read without an excess exactly
/// where its sets of flags keep this client's limits; it spells one response at most; and of two lines that spell responses none
/// is the front of the other with its CRLF, where a feed gave both.
pub fn one_response()
    ensures read { ReadsAsSpelled }
    ensures within { GivesWithin }
    ensures one { OneResponse }
    ensures front { NoFront }
{}

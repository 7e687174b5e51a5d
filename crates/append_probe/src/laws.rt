//! Why the answers to a question about a lost append tell what became of it (RFC 9051, sections 6.4.4 and 6.4.5).

ghost use Rattle.append_probe.specs.Laws.{PartsAreFound, PartsAreParts, SearchCovers, VerdictCounts};

/// The part of an identifier that is searched for stands in it, outside of every encoded word, and can be searched for.
pub fn parts_are_parts()
    ensures { PartsAreParts }
{}

/// Where a text has the Message-ID, the part that is searched for stands in its Message-ID field.
pub fn parts_are_found()
    ensures { PartsAreFound }
{}

/// A lawful server's answer to the search tells each message with the Message-ID, from the UIDNEXT on.
pub fn search_covers()
    ensures { SearchCovers }
{}

/// A lawful server's answer to the fetch of the candidates' fields gives the verdict that counts those messages.
pub fn verdict_counts()
    ensures { VerdictCounts }
{}

//! What holds of readings at a server.

ghost use Rattle.body_cache.specs.NoDeeds.{ReadingsAddNone};

/// A reading adds no deed of this client at the server, at none of its moments, but that of a command that waited as it began (which a lost connection
/// left there). `looks` of `read_run` says what a reading does.
pub fn readings_add_no_deeds()
    ensures { ReadingsAddNone }
{}

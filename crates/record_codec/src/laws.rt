//! What holds of the bodies of records.

ghost use Rattle.record_codec.specs.BothWays.{SpelledIsRead, ReadIsSpelled, ReadIsAnEvent};
ghost use Rattle.record_codec.specs.Spelling.{OneEvent};

/// No bytes are the bodies of two events' records.
pub fn one_event()
    ensures { OneEvent }
{}

/// The body of each event is read as that event, and no other bytes are read.
pub fn both_ways()
    ensures read { SpelledIsRead }
    ensures spelled { ReadIsSpelled }
    ensures event { ReadIsAnEvent }
{}

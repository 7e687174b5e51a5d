//! What the player knows is kept as the connection goes on, and what it needs may be done (this client's profile of
//! RFC 4549, section 4.2).

ghost use Rattle.playback.specs.Games.{KnownOnward, PlaysWell};
ghost use Rattle.playback.specs.Left.{LeftAtFirst};
ghost use Rattle.playback.specs.PlayerRows.{NeedsInCases};
ghost use Rattle.playback.specs.PlaysThrice.{PlaysThrice};
ghost use Rattle.playback.specs.PlaysThrough.{PlaysOver, PlaysThrough};
ghost use Rattle.std.specs.declared.alloc.Global.{Global};

/// As others act, as a command that is needed arrives at the server, and as what waits is carried out,
/// the player knows what it knew.
pub fn known_onward()
    ensures { KnownOnward }
{}

/// Whatever turns follow, the book, the server and the player stay as they should, and what the player
/// needs may be done and is true.
pub fn plays_well()
    ensures { PlaysWell }
{}

/// A play in which a flag action is played to its end: it begins well, the action has its one deed,
/// and nothing more is needed.
pub fn plays_through()
    ensures { (alloc : Global) → PlaysThrough alloc }
{}

/// A play behind it in which others renewed the mailbox: its cache is taken away, and the rows of all
/// messages are recorded anew.
pub fn plays_over()
    ensures { (alloc : Global) → PlaysOver alloc }
{}

/// A play in which a flag action is done by its third try: others touched the message before the first
/// two, which are taken back.
pub fn plays_thrice()
    ensures { (alloc : Global) → PlaysThrice alloc }
{}

/// A player as a connection begins comes to its end within so many records and replies.
pub fn left_at_first()
    ensures { LeftAtFirst }
{}

/// What is needed behind a reply, in worked states.
pub fn needs_in_cases()
    ensures { NeedsInCases }
{}

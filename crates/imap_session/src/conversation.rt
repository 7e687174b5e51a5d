//! What every state of a session keeps of its connection.

ghost use Rattle.std.specs.Prelude.{◌<◌};

use literal_feed::Feed;
use std::alloc::Global;

/// A connection in use: what came in it and wasn't read yet, and how many commands were sent in it under a tag
/// `Cn`. Each command's tag has the next count, so none comes twice.
#[derive(Drop)]
pub struct Conversation {
    pub alloc: Global,
    pub feed: Feed,
    pub count: u32,
    ghost room: { count < 4294967295 },
}

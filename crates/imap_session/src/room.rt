//! How many commands a connection still takes.

ghost use Rattle.std.specs.Prelude.{◌<◌, ◌+◌, ◌↔◌, IsTrue};

use crate::conversation::Conversation;
use crate::{Chosen, Greeted, Ready};

impl Conversation {
    // Whether the count of commands stays within its limit.
    fn has_room(&self, commands: u32) -> bool
        ensures { IsTrue result ↔ self.now.count + commands < 4294967295 }
    {
        u64::from(self.count) + u64::from(commands) < 4_294_967_295
    }
}

impl Greeted {
    /// Whether so many commands can still be sent: a connection counts its commands, and each has the next count in its tag.
    pub fn has_room(&self, commands: u32) -> bool
        ensures { IsTrue result ↔ self.now.conversation.count + commands < 4294967295 }
    {
        self.conversation.has_room(commands)
    }
}

impl Ready {
    /// Whether so many commands can still be sent: a connection counts its commands, and each has the next count in its tag.
    pub fn has_room(&self, commands: u32) -> bool
        ensures { IsTrue result ↔ self.now.conversation.count + commands < 4294967295 }
    {
        self.conversation.has_room(commands)
    }
}

impl Chosen {
    /// Whether so many commands can still be sent: a connection counts its commands, and each has the next count in its tag.
    pub fn has_room(&self, commands: u32) -> bool
        ensures { IsTrue result ↔ self.now.conversation.count + commands < 4294967295 }
    {
        self.conversation.has_room(commands)
    }
}

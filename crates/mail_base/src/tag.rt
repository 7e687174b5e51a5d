//! The tags of commands (RFC 9051, section 2.2.1), as this client writes them.

ghost use Rattle.std.specs.Prelude.{◌≡◌, ◌≤◌};
ghost use Rattle.mail_base.specs.Tags.{action_of, try_tag};

/// The tag of a command or of its completion.
#[derive(Clone, Copy, Debug, PartialEq, Eq)]
pub enum Tag {
    /// `Pn`: the command that carries out action n.
    Play(u32),
    /// `PnRt`: the same of its second or third try.
    Again { id: u32, turn: u8 },
    /// `Cn`: the n-th of the other commands of a connection, from 1.
    Count(u32),
    /// Any other tag.
    Strange,
}

impl Tag {
    /// The tag of a try of an action, behind this many that were withdrawn.
    pub fn of_try(id: u32, tries: u8) -> Tag
        requires { tries ≤ 2 }
        ensures { result ≡ try_tag id tries }
    {
        if tries == 0 {
            return Tag::Play(id);
        }
        Tag::Again {
            id,
            turn: tries + 1,
        }
    }

    /// The number of the action that the tag belongs to, if there is one. Nothing else asks which tags are an action's.
    pub fn action(self) -> Option<u32>
        ensures { result ≡ action_of self }
    {
        match self {
            Tag::Play(number) | Tag::Again { id: number, .. } => Some(number),
            Tag::Count(_) | Tag::Strange => None,
        }
    }
}

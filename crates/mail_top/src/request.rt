//! What a command asks for.

use local_view::Ident;
use mail_base::BoxName;

/// What the words of a command ask for.
#[derive(Drop)]
pub enum Asked<'a> {
    /// That a journal is set up for the mailboxes that these texts name.
    Init(&'a [String]),
    /// An action.
    Act(AskedAction<'a>),
    /// The rows of a mailbox.
    Rows(BoxName),
    /// The queue.
    Queue,
    /// The actions that ended as conflicts.
    Report,
    /// That the queue is played.
    Play,
}

/// The action that the words of a command ask for.
#[derive(Drop)]
pub enum AskedAction<'a> {
    /// A change of a message's flags.
    Flag(AskedFlags<'a>),
    /// A move of a message.
    Move(AskedMove),
    /// A new message.
    Append(AskedAppend<'a>),
}

/// That a message has these flags, or is without them.
#[derive(Drop)]
pub struct AskedFlags<'a> {
    /// The mailbox that the message is in.
    pub name: BoxName,
    /// The message.
    pub id: Ident,
    /// Whether the message is to have the flags.
    pub add: bool,
    /// The flags as they are written.
    pub flags: &'a [String],
}

/// That a message is moved to another mailbox.
#[derive(Drop)]
pub struct AskedMove {
    /// The mailbox that the message is in.
    pub name: BoxName,
    /// The message.
    pub id: Ident,
    /// The mailbox that receives it.
    pub to: BoxName,
}

/// That the message that the input gives is put into a mailbox.
#[derive(Drop)]
pub struct AskedAppend<'a> {
    /// The mailbox that receives it.
    pub to: BoxName,
    /// Its flags as they are written.
    pub flags: &'a [String],
}

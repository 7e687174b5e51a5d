//! What befalls a world in memory, and when.

use imap_model::Change;
use mail_base::{BoxName, List};

/// How much of a call of the link arrives at the server before the connection is lost. Of any call but a `send` all has arrived.
#[derive(Clone, Copy, Debug, PartialEq, Eq)]
pub enum Loss {
    /// Nothing of what is sent.
    Nothing,
    /// So many bytes of it, from the front.
    Part(u32),
    /// All of it, and the server answers it.
    All,
    /// All of it. Where it is the last part of a command's text, the command waits: it is carried out as the next connection is made,
    /// before the greeting, or, where `carried` is false, dropped then. Anything else is answered at once.
    Waits {
        /// Whether it is carried out.
        carried: bool,
    },
}

/// Which calls of a world fail, what others change meanwhile, and after how many calls the world has stopped. Calls are counted from 1,
/// since the plan was given.
#[derive(Drop)]
pub struct Plan {
    /// The numbers of the calls of the disk that fail.
    pub disk_fails: List<u64>,
    /// The numbers of the calls of the link in which the connection is lost. Of two losses with one number the first counts.
    pub link_fails: List<(u64, Loss)>,
    /// Changes by other clients, in order, each with the number of the call of the link as which begins it takes place. A change that
    /// breaks a rule then is passed over, and so is one that would renew the mailbox that is selected in a connection that is there, or
    /// was selected as the connection of the command that waits was lost.
    pub foreign: List<(u64, BoxName, Change)>,
    /// After so many calls, of the disk and of the link, every call fails and changes nothing.
    pub stop_after: Option<u64>,
}

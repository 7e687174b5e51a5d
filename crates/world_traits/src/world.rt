//! The whole outside of the client.

use crate::{Clocked, Disk, Link};

/// All that a command works on beside its input and its output: the disk, and the link to a server,
/// with one list of moments for both. What others change at the server while a call of the disk
/// lasts is told at the next call of the link.
pub trait World: Disk + Link {}

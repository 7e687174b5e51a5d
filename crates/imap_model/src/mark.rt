//! Up to where a cache knows its mailbox (RFC 7162, section 3.2.5).

use mail_base::{ModSeq, Validity};

/// What a QRESYNC select tells the server: the UIDVALIDITY of the cache, and the mod-sequence up to which the cache knows
/// each change.
#[derive(Clone, Copy, Debug, PartialEq, Eq)]
pub struct Mark {
    pub validity: Validity,
    pub modseq: ModSeq,
}

//! What the client knows of one message (RFC 9051, section 2.3.2; RFC 7162, section 3.1).

ghost use Rattle.std.specs.Prelude.{◌≡◌, IfOk};

use flag_set::FlagSet;
use mail_base::ModSeq;
use std::alloc::AllocError;

/// A message's flags, and the mod-sequence of their last change.
#[derive(Drop)]
pub struct Row {
    pub flags: FlagSet,
    pub modseq: ModSeq,
}

impl Row {
    /// The same row once more. Fails for want of memory alone.
    pub fn copy(&self) -> Result<Row, AllocError>
        ensures { IfOk result (λ row. row ≡ self.now) }
    {
        Ok(Row {
            flags: self.flags.copy()?,
            modseq: self.modseq,
        })
    }
}

//! What a FETCH response tells of a message (RFC 9051, section 7.5.2; RFC 7162, section 3.1.4.2).

ghost use Rattle.std.specs.Prelude.{◌≡◌, IfOk};
ghost use Rattle.imap_model.specs.Unfetched.{nothing_fetched};

use flag_set::FlagSet;
use mail_base::{Bytes, ModSeq};
use std::alloc::AllocError;
use uid_sets::Uid;

/// The items of a FETCH response that this client reads, each as it was told last.
#[derive(Drop)]
pub struct Fetched {
    /// UID.
    pub uid: Option<Uid>,
    /// FLAGS.
    pub flags: Option<FlagSet>,
    /// MODSEQ.
    pub modseq: Option<ModSeq>,
    /// The text of the header's Message-ID fields, BODY[HEADER.FIELDS (Message-ID)]; of NIL no bytes.
    pub ids: Option<Bytes>,
    /// The whole text, BODY[]; of NIL no bytes.
    pub text: Option<Bytes>,
}

impl Fetched {
    /// Nothing was told.
    pub fn none() -> Fetched
        ensures { result ≡ nothing_fetched }
    {
        Fetched {
            uid: None,
            flags: None,
            modseq: None,
            ids: None,
            text: None,
        }
    }

    /// The same once more, or want of memory.
    pub fn copy(&self) -> Result<Fetched, AllocError>
        ensures { IfOk result (λ fetched. fetched ≡ self.now) }
    {
        let flags = match &self.flags {
            Some(flags) => Some(flags.copy()?),
            None => None,
        };
        let ids = match &self.ids {
            Some(ids) => Some(ids.copy()?),
            None => None,
        };
        let text = match &self.text {
            Some(text) => Some(text.copy()?),
            None => None,
        };
        Ok(Fetched {
            uid: self.uid,
            flags,
            modseq: self.modseq,
            ids,
            text,
        })
    }
}

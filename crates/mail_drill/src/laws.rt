//! What holds of a drill's world.

ghost use Rattle.std.specs.Prelude.{[], ◌∷◌, List, codes};
ghost use Rattle.imap_model.specs.declared.server.Mailbox.{Mailbox as AnyMailbox};
ghost use Rattle.server_mem.specs.States.{fresh};
ghost use Rattle.mail_drill.specs.Doing.{ServesInMemory};
ghost use Rattle.mail_drill.specs.Offering.{OffersAll};

/// Whatever is done in a world in memory behind a greeting, its server serves, where it offers all that a run needs: the premise
/// on the server that `complete_play` of mail_top has. That each call of a `MemWorld` keeps it so is a ghost field of `QuietWorld`.
pub fn serves_in_memory()
    ensures { ServesInMemory }
{}

/// A new server in memory that offers IMAP4rev2 and QRESYNC, as a drill's does, offers all that a run needs, whatever its mailboxes are.
pub fn offers_all()
    ensures { (boxes : List AnyMailbox) → OffersAll (fresh boxes (codes "IMAP4rev2" ∷ codes "QRESYNC" ∷ [])).choices }
{}

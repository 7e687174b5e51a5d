//! A run enters: it connects, reads the greeting, logs the user in and enables QRESYNC.

ghost use Rattle.std.specs.Prelude.{◌≡◌, ◌≤◌, ◌∷◌, ℕ, List, None, IfOk, IsErrOf, OnOk};
ghost use Rattle.imap_model.specs.declared.item.Item.{Item};
ghost use Rattle.imap_session.specs.Session.{Follows, Stands};
ghost use Rattle.imap_session.specs.declared.fault.SessionFault.{SessionFault};
ghost use Rattle.imap_session.specs.declared.fault.SessionFault.TheVariants as faults;
ghost use Rattle.play_driver.specs.Entering.{HasEntered, OpensFrom};
ghost use Rattle.play_driver.specs.Serving.{AllServing};
ghost use Rattle.play_driver.specs.Stages.{stage_of};
ghost use Rattle.play_driver.specs.declared.session.Session.TheVariants as sessions;
ghost use Rattle.play_driver.specs.Enters.{Enters};

use imap_session::{Fresh, Ready, SessionFault};
use mail_base::Account;
use std::alloc::Global;
use world_traits::{Clocked, Link};

/// Makes a connection, reads its greeting, logs the user in and enables QRESYNC. The faults are those of the session's calls;
/// after one the connection isn't used again.
pub fn enter<L: Link>(alloc: Global, link: &mut L, account: &Account) -> Result<Ready, SessionFault>
    ensures enters { Enters L.Clocked account.now link.old link.new result }
    ensures opened { L.tells_server
        → OnOk result (OpensFrom (L.clock link.old) (L.clock link.new)) }
    ensures made { L.tells_files → OnOk result
        ((L.link link.new).earlier ≡ (L.link link.old).sent ∷ (L.link link.old).earlier) }
    ensures entered { L.tells_files → IfOk result (λ s. HasEntered account.now
        (stage_of (L.link link.new) (sessions.Ready s))) }
    ensures stands { L.tells_server → IfOk result (λ s. Stands None
        (L.clock link.new) (L.link link.new).connection s.conversation.feed) }
    ensures still { L.tells_files
        → IfOk result (λ s. Follows (L.link link.new).connection s.conversation.feed) }
    ensures counted { IfOk result (λ s. s.conversation.count ≤ 4) }

    // Where the server serves, it neither refuses nor lacks a thing.
    ensures serves { L.tells_server → AllServing (L.clock link.old) (L.clock link.new)
        → ((line : List ℕ) → IsErrOf result (faults.Refused line) → ⊥)
        × ((item : Item) → IsErrOf result (faults.Lacking item) → ⊥) }
{
    let fresh = Fresh::connect(alloc, link)?;
    let greeted = fresh.greet(link)?;
    let known = greeted.authenticate(link, account)?;
    known.enable(link)
}

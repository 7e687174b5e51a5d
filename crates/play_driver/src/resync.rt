//! A mailbox is resynchronised (RFC 7162, section 3.2.5).

ghost use Rattle.std.specs.Prelude.{◌≡◌, ◌≤◌, ◌<◌, ◌+◌, List, None, Some, IfOk};
ghost use Rattle.std.specs.Option.{option_copied};
ghost use Rattle.imap_model.specs.declared.response.Response.{Response};
ghost use Rattle.imap_session.specs.Hearing.{Hears};
ghost use Rattle.imap_session.specs.Session.{Follows, Stands};
ghost use Rattle.imap_session.specs.declared.fault.SessionFault.{SessionFault};
ghost use Rattle.play_driver.specs.Resynchronising.{Resyncs, DeltaCame, IsLearnable};
ghost use Rattle.play_driver.specs.Sessions.{selected_in, count_of, feed_of, held_in};
ghost use Rattle.play_driver.specs.Gathering.{Gathers, HasHeld, Holds, Makes};
ghost use Rattle.play_driver.specs.Renewing.{IfRenewed, IfTold, above, renewed_to, session_of};
ghost use Rattle.qresync_core.specs.Making.{StandsFor};
ghost use Rattle.imap_model.specs.declared.replies.Replies.{Replies};

use crate::gathering::gather;
use crate::makers::finish;
use crate::{Held, Session};
use imap_model::Last;
use imap_session::{Chosen, SessionFault};
use mail_base::{BoxName, Validity};
use mailbox_cache::{Cache, Delta};
use qresync_core::{DeltaMaker, ResyncFault};
use std::alloc::Global;
use world_traits::{Clocked, Link};

/// What a resynchronisation told: what the replies make of the cache, or the first of their faults; or that the mailbox was renewed
/// since it was cached, and the reply to its SELECT.
#[derive(Drop)]
pub enum Heard {
    Told(Chosen, Result<Delta, ResyncFault>),
    Renewed(Held),
}

/// Resynchronises a mailbox, of which this cache is kept or nothing: SELECT with the cache's UIDVALIDITY and mark; or, where
/// nothing is kept, a plain SELECT and then the FETCH of all rows, unless the mailbox is told to be empty. Gives what the
/// replies make of the cache, or the first of their faults: a fault of the SELECT's codes too is told behind the reply to the
/// FETCH, where that is asked. Where SELECT tells a UIDVALIDITY above the cache's, its reply is held. Of each reply that is kept of which a
/// delta is made, and no list of its responses.
///
/// The faults of the session are those of `Chosen::ask` for a question. After one the connection isn't used again.
pub fn resynchronise<L: Link>(
    alloc: Global,
    session: Session,
    link: &mut L,
    name: &BoxName,
    kept: Option<&Cache>,
) -> Result<Heard, SessionFault>
    requires resting { held_in session ≡ None }
    requires room { count_of session + 2 < 4294967295 }
    requires follows { L.tells_files → Follows (L.link link.old).connection (feed_of session) }
    requires stands { L.tells_server → Stands (selected_in session)
        (L.clock link.old) (L.link link.old).connection (feed_of session) }
    ensures gathers { Gathers L.Clocked name.now (option_copied kept.entry)
        link.old link.new session result }

    // Over a link that tells its server, the delta is that of the server's answers, each at one moment of this call.
    ensures value { L.tells_server
        → IfOk result (IfTold (λ chosen told. Resyncs (selected_in session) (count_of session)
        chosen.conversation.count name.now (option_copied kept.entry) told chosen.permits
        (L.clock link.old) (L.clock link.new))) }

    // It is that of the bytes that came, and may be learned of this cache.
    ensures came { L.tells_files → (heard : List Response)
        → (h : Hears heard (L.link link.old).connection (feed_of session))
        → IfOk result (IfTold (λ chosen told. DeltaCame (count_of session)
        chosen.conversation.count name.now (option_copied kept.entry) told chosen.permits
        (L.link link.old).sent h.connection.received heard
        (L.link link.new) chosen.conversation.feed)) }
    ensures learnable { IfOk result (IfTold
        (λ chosen told. IfOk told (IsLearnable (option_copied kept.entry)))) }

    // The reply that is held is that of the server, and of the bytes that came; it told a UIDVALIDITY above the cache's.
    ensures renewed { IfOk result (IfRenewed (HasHeld L.Clocked name.now
        (option_copied kept.entry) link.old link.new session)) }

    // How the connection stands then.
    ensures stands { L.tells_server → IfOk result (λ heard. Stands (Some name.now)
        (L.clock link.new) (L.link link.new).connection (feed_of (session_of heard))) }
    ensures still { L.tells_files
        → IfOk result (λ heard. Follows (L.link link.new).connection (feed_of (session_of heard))) }
    ensures name { IfOk result (λ heard. selected_in (session_of heard) ≡ Some name.now) }
    ensures counted { IfOk result
        (λ heard. count_of (session_of heard) ≤ count_of session + 2) }
{
    let mut selected = DeltaMaker::new(alloc);
    let mut all = DeltaMaker::new(alloc);
    match gather(session, link, name, kept, &mut selected, &mut all) {
        Ok(heard) => {
            let (chosen, last) = heard;
            Ok(conclude(kept, chosen, selected, last, all))
        }
        Err(fault) => {
            drop(selected);
            drop(all);
            Err(fault)
        }
    }
}

// What the replies make of the cache; or the reply to SELECT is held.
fn conclude(
    kept: Option<&Cache>,
    chosen: Chosen,
    selected: DeltaMaker,
    last: Last,
    all: DeltaMaker,
) -> Heard
    ensures told { IfTold (λ next told. (next ≡ chosen) × Makes (option_copied kept.entry) selected last all told) result }
    ensures renewed { IfRenewed (λ held. Holds (option_copied kept.entry) chosen selected last held) result }
{
    match renewed_to(kept, &selected, &last) {
        Some(told) => {
            drop(all);
            Heard::Renewed(Held {
                chosen,
                maker: selected,
                last,
                told,
            })
        }
        None => {
            let delta = finish(kept, selected, &last, all);
            drop(last);
            Heard::Told(chosen, delta)
        }
    }
}

// The UIDVALIDITY that the reply to SELECT tells, where it is above the cache's.
fn renewed_to(kept: Option<&Cache>, selected: &DeltaMaker, last: &Last) -> Option<Validity>
    ensures { (replies : Replies) → StandsFor selected.now replies.untagged
        → replies.code ≡ last.now.code → result ≡ renewed_to (option_copied kept.entry) replies }
{
    let cache = kept?;
    match selected.codes(last) {
        Ok(codes) => above(cache.validity, codes.validity),
        Err(_) => None,
    }
}

// The second number, where it is above the first.
fn above(kept: Validity, told: Validity) -> Option<Validity>
    ensures { result ≡ above kept told }
{
    if kept.number() < told.number() {
        Some(told)
    } else {
        None
    }
}

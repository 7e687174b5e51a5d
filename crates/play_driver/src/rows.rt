//! The rows of all messages of a mailbox whose SELECT's reply is held (RFC 9051, section 6.4.5).

ghost use Rattle.std.specs.Prelude.{◌≡◌, ◌≤◌, ◌<◌, ◌+◌, [], List, None, Some, IfOk};
ghost use Rattle.imap_model.specs.declared.replies.Replies.{Replies};
ghost use Rattle.imap_model.specs.declared.response.Response.{Response};
ghost use Rattle.imap_session.specs.Hearing.{Hears};
ghost use Rattle.imap_session.specs.Session.{Follows, Stands};
ghost use Rattle.imap_session.specs.declared.fault.SessionFault.{SessionFault};
ghost use Rattle.qresync_core.specs.Making.{StandsFor};
ghost use Rattle.play_driver.specs.Fetching.{Fetches, HasFetched};
ghost use Rattle.play_driver.specs.Holds.{IsHeldReply};
ghost use Rattle.play_driver.specs.Resynchronising.{IsLearnable, RowsCame, RowsFetched};

use crate::Held;
use crate::makers::{finish, is_fetch_due};
use imap_model::Command;
use imap_session::{Chosen, SessionFault};
use mailbox_cache::Delta;
use qresync_core::{DeltaMaker, ResyncFault};
use std::alloc::Global;
use world_traits::{Clocked, Link};

/// Asks for the rows of all messages behind the reply to SELECT that is held, unless it told that there are none. Gives what the replies
/// make of no cache, or the first of their faults.
///
/// The faults of the session are those of `Chosen::ask` for a question. After one the connection isn't used again.
pub(crate) fn rows<L: Link>(
    alloc: Global,
    held: Held,
    link: &mut L,
) -> Result<(Chosen, Result<Delta, ResyncFault>), SessionFault>
    requires room { held.chosen.conversation.count + 2 < 4294967295 }
    requires follows { L.tells_files
        → Follows (L.link link.old).connection held.chosen.conversation.feed }
    requires stands { L.tells_server → Stands (Some held.chosen.name)
        (L.clock link.old) (L.link link.old).connection held.chosen.conversation.feed }
    requires told { (r : Replies) × IsHeldReply held r }
    ensures fetches { Fetches L.Clocked held.chosen link.old link.new result }

    // Over a link that tells its server, the delta is that of the server's answers, each at one moment.
    ensures value { L.tells_server → IfOk result (λ p. RowsFetched held (Some held.chosen.name)
        held.chosen.conversation.count p.0.conversation.count p.1
        (L.clock link.old) (L.clock link.new)) }

    // It is that of the bytes that came, and may be learned of no cache.
    ensures came { L.tells_files → (heard : List Response)
        → (h : Hears heard (L.link link.old).connection held.chosen.conversation.feed)
        → IfOk result (λ p. RowsCame held held.chosen.conversation.count p.0.conversation.count p.1
        (L.link link.old).sent h.connection.received heard
        (L.link link.new) p.0.conversation.feed) }
    ensures learnable { IfOk result (λ p. IfOk p.1 (IsLearnable None)) }

    // How the connection stands then.
    ensures stands { L.tells_server → IfOk result (λ p. Stands (Some held.chosen.name)
        (L.clock link.new) (L.link link.new).connection p.0.conversation.feed) }
    ensures still { L.tells_files
        → IfOk result (λ p. Follows (L.link link.new).connection p.0.conversation.feed) }
    ensures name { IfOk result (λ p. p.0.name ≡ held.chosen.name) }
    ensures permits { IfOk result (λ p. p.0.permits ≡ held.chosen.permits) }
    ensures counted { IfOk result
        (λ p. p.0.conversation.count ≤ held.chosen.conversation.count + 1) }
{
    let Held {
        chosen,
        maker,
        last,
        told: _told,
    } = held;
    let mut all = DeltaMaker::new(alloc);
    match fetch_all(chosen, link, &maker, &mut all) {
        Ok(chosen) => {
            let delta = finish(None, maker, &last, all);
            drop(last);
            Ok((chosen, delta))
        }
        Err(fault) => {
            drop(maker);
            drop(last);
            drop(all);
            Err(fault)
        }
    }
}

// Asks for the rows of all messages, unless the mailbox is told to be empty, and hands the reply to its maker, response by response.
fn fetch_all<L: Link>(
    chosen: Chosen,
    link: &mut L,
    maker: &DeltaMaker,
    all: &mut DeltaMaker,
) -> Result<Chosen, SessionFault>
    requires room { chosen.conversation.count + 2 < 4294967295 }
    requires follows { L.tells_files
        → Follows (L.link link.old).connection chosen.conversation.feed }
    requires stands { L.tells_server → Stands (Some chosen.name)
        (L.clock link.old) (L.link link.old).connection chosen.conversation.feed }
    requires told { (r : Replies) × StandsFor maker.now r.untagged }
    requires empty { StandsFor all.old [] }
    ensures fetches { Fetches L.Clocked chosen link.old link.new result }
    ensures heard { IfOk result (λ next. HasFetched L.Clocked link.old link.new chosen
        maker.now next all.new) }
    ensures stands { L.tells_server → IfOk result (λ next. Stands (Some chosen.name)
        (L.clock link.new) (L.link link.new).connection next.conversation.feed) }
    ensures still { L.tells_files
        → IfOk result (λ next. Follows (L.link link.new).connection next.conversation.feed) }
    ensures name { IfOk result (λ next. next.name ≡ chosen.name) }
    ensures permits { IfOk result (λ next. next.permits ≡ chosen.permits) }
{
    if !is_fetch_due(None, maker) {
        return Ok(chosen);
    }
    let tag = chosen.next_tag();
    let fetched = chosen.ask_into(link, tag, &Command::FetchAll, all)?;
    let (next, _last) = fetched;
    Ok(next)
}

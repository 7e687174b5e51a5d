//! The replies to a resynchronisation: those to SELECT, and to the FETCH of all rows where nothing was kept of the mailbox
//! (RFC 7162, section 3.2.5; RFC 9051, sections 6.3.2 and 6.4.5).

ghost use Rattle.std.specs.Prelude.{◌≡◌, ◌<◌, ◌+◌, [], None, Some, IfOk};
ghost use Rattle.std.specs.Option.{option_copied};
ghost use Rattle.imap_session.specs.Session.{Follows, Stands};
ghost use Rattle.imap_session.specs.declared.fault.SessionFault.{SessionFault};
ghost use Rattle.qresync_core.specs.Making.{StandsFor};
ghost use Rattle.play_driver.specs.Resynchronising.{mark_kept};
ghost use Rattle.play_driver.specs.Sessions.{selected_in, count_of, feed_of, held_in};
ghost use Rattle.play_driver.specs.Gathering.{Gathers, HasHeard};

use crate::Session;
use crate::makers::is_fetch_due;
use imap_model::{Command, Last, Mark};
use imap_session::{Chosen, SessionFault};
use mail_base::BoxName;
use mailbox_cache::Cache;
use qresync_core::DeltaMaker;
use world_traits::{Clocked, Link};

/// Selects a mailbox, with the UIDVALIDITY and the mark of its cache where one is kept. Where none is, and the mailbox isn't
/// told to be empty, asks for all its rows. Hands each reply to its maker, response by response, and gives how that to SELECT
/// ended. Its clauses are those of `resynchronise`.
pub(crate) fn gather<L: Link>(
    session: Session,
    link: &mut L,
    name: &BoxName,
    kept: Option<&Cache>,
    selected: &mut DeltaMaker,
    all: &mut DeltaMaker,
) -> Result<(Chosen, Last), SessionFault>
    requires resting { held_in session ≡ None }
    requires room { count_of session + 2 < 4294967295 }
    requires follows { L.tells_files → Follows (L.link link.old).connection (feed_of session) }
    requires stands { L.tells_server → Stands (selected_in session)
        (L.clock link.old) (L.link link.old).connection (feed_of session) }
    requires empty { StandsFor selected.old [] × StandsFor all.old [] }
    ensures gathers { Gathers L.Clocked name.now (option_copied kept.entry)
        link.old link.new session result }
    ensures heard { IfOk result (λ p. HasHeard L.Clocked name.now (option_copied kept.entry)
        link.old link.new session p.0 selected.new p.1 all.new) }
    ensures stands { L.tells_server → IfOk result (λ p. Stands (Some name.now)
        (L.clock link.new) (L.link link.new).connection p.0.conversation.feed) }
    ensures still { L.tells_files
        → IfOk result (λ p. Follows (L.link link.new).connection p.0.conversation.feed) }
    ensures name { IfOk result (λ p. p.0.name ≡ name.now) }
{
    let answer = session.select_into(link, name, mark_kept(kept), selected)?;
    let (chosen, last) = answer;
    if !is_fetch_due(kept, selected) {
        return Ok((chosen, last));
    }
    let tag = chosen.next_tag();
    let fetched = chosen.ask_into(link, tag, &Command::FetchAll, all)?;
    let (chosen, _last) = fetched;
    Ok((chosen, last))
}

// The mark that SELECT tells.
fn mark_kept(kept: Option<&Cache>) -> Option<Mark>
    ensures { result ≡ mark_kept (option_copied kept.entry) }
{
    let cache = kept?;
    Some(Mark {
        validity: cache.validity,
        modseq: cache.highest,
    })
}

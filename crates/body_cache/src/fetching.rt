//! A text is fetched: one connection, in which its mailbox is selected and the text is asked for (RFC 9051, sections 6.3.2 and 6.4.5).

ghost use Rattle.std.specs.Prelude.{◌≡◌, ◌<◌, ◌+◌, None, Some, IfOk, IsErrOf, OnOk};
ghost use Rattle.imap_session.specs.Session.{Follows, Stands};
ghost use Rattle.play_driver.specs.Accuses.{ConnectsOnce};
ghost use Rattle.play_driver.specs.Granting.{IsBox};
ghost use Rattle.play_driver.specs.Serving.{AllServing};
ghost use Rattle.play_driver.specs.Stages.{stage_of};
ghost use Rattle.play_driver.specs.declared.session.Session.TheVariants as sessions;
ghost use Rattle.body_cache.specs.Asking.{ComesServed, Converses, OnlyAsks};
ghost use Rattle.body_cache.specs.Fetching.{Fetches, FetchesAt, HasValidity, NotFetched, NotSelected, NotTold, Selects, SelectsAt, Tells, TellsAt, WhyNone, WhyUnfit};
ghost use Rattle.body_cache.specs.TextFound.{text_found};
ghost use Rattle.body_cache.specs.declared.fault.TextFault.{TextFault as AnyFault};

use crate::{Key, TextFault, TextFound, text_of};
use imap_model::{Command, Item, Replies};
use imap_session::{Chosen, Ready};
use mail_base::{Account, Bytes, Validity};
use play_driver::{PlayFault, Session, Why, enter};
use qresync_core::{CodeFault, Codes, codes_of};
use std::alloc::Global;
use uid_sets::Uid;
use world_traits::{Clocked, Link};

/// Fetches the text of a message: makes one connection, logs in, enables QRESYNC, selects the message's mailbox, asks for the text, and
/// leaves. The connection is left as it ended.
///
/// `Renewed` where the mailbox has another UIDVALIDITY than the key; `Gone` where no FETCH of the message is told; else `Stopped`, with
/// the faults of `play_driver::enter`, of `Ready::select`, of `Chosen::ask` for a question and of `Session::leave`; `Lacking` where the mailbox has no
/// mod-sequences or doesn't keep its UIDs, and `BadReply` where the reply to SELECT lacks a number, or a FETCH of the message is told and none
/// with a text.
pub fn fetch_text<L: Link>(
    alloc: Global,
    account: &Account,
    link: &mut L,
    key: &Key,
) -> Result<Bytes, TextFault>
    ensures asks { OnlyAsks L.Clocked link.old link.new result }
    ensures once { L.tells_files → ConnectsOnce (L.link link.old) (L.link link.new) }

    // The text is that of the last FETCH that has one; or why none was fetched, on the bytes received.
    ensures fetches { L.tells_files → IfOk result (λ text. Fetches account.now key.now text (L.link link.new)) }
    ensures why { L.tells_files → (fault : AnyFault) → IsErrOf result fault
        → NotFetched account.now key.now (L.link link.old) (L.link link.new) fault }

    // Over a link that tells its server: the server answered so, and nothing waits there behind the text.
    ensures told { L.tells_server → IfOk result (λ text. FetchesAt key.now text (L.clock link.old) (L.clock link.new)) }

    // Where the server serves, and has the mailbox, it refuses nothing, and nothing that it tells is at fault or lacking.
    ensures serves { L.tells_server → AllServing (L.clock link.old) (L.clock link.new)
        → IsBox key.now.name (L.clock link.old).now.outside.server
        → (fault : AnyFault) → IsErrOf result fault → ComesServed fault }
{
    let ready = enter(alloc, link, account)?;
    let chosen = select_key(ready, link, key)?;
    let asked = ask_text(chosen, link, key)?;
    let (chosen, text) = asked;
    Session::Chosen(chosen).leave(link)?;
    Ok(text)
}

// Selects the key's mailbox, and looks whether it has the key's UIDVALIDITY.
fn select_key<L: Link>(ready: Ready, link: &mut L, key: &Key) -> Result<Chosen, TextFault>
    requires room { ready.conversation.count + 1 < 4294967295 }
    requires follows { L.tells_files → Follows (L.link link.old).connection ready.conversation.feed }
    requires stands { L.tells_server → Stands None (L.clock link.old) (L.link link.old).connection
        ready.conversation.feed }
    ensures asks { OnlyAsks L.Clocked link.old link.new result }
    ensures converses { Converses L.Clocked key.now.name link.old link.new result }
    ensures selects { L.tells_files → IfOk result (λ chosen. Selects key.now
        (stage_of (L.link link.old) (sessions.Ready ready)) (stage_of (L.link link.new) (sessions.Chosen chosen))) }
    ensures why { L.tells_files → (fault : AnyFault) → IsErrOf result fault
        → NotSelected key.now (stage_of (L.link link.old) (sessions.Ready ready)) (L.link link.new) fault }
    ensures told { L.tells_server → IfOk result (λ chosen. SelectsAt key.now ready.conversation.count
        (L.clock link.old) (L.clock link.new)) }
    ensures stands { L.tells_server → IfOk result (λ chosen. Stands (Some key.now.name)
        (L.clock link.new) (L.link link.new).connection chosen.conversation.feed) }
    ensures still { L.tells_files
        → IfOk result (λ chosen. Follows (L.link link.new).connection chosen.conversation.feed) }
    ensures chosen { IfOk result (λ chosen. (chosen.name ≡ key.now.name)
        × (chosen.conversation.count ≡ ready.conversation.count + 1)) }
{
    let answer = ready.select(link, &key.name, None)?;
    let (chosen, replies) = answer;
    let told = codes_of(&replies);
    drop(replies);
    match same_validity(told, key.validity) {
        Ok(()) => Ok(chosen),
        Err(fault) => {
            drop(chosen);
            Err(fault)
        }
    }
}

// Whether the codes of the reply to a SELECT tell this UIDVALIDITY.
fn same_validity(told: Result<Codes, CodeFault>, validity: Validity) -> Result<(), TextFault>
    ensures same { OnOk result (HasValidity validity told) }
    ensures why { (fault : AnyFault) → IsErrOf result fault → WhyUnfit validity told fault }
{
    let codes = told?;
    if codes.validity == validity {
        Ok(())
    } else {
        Err(TextFault::Renewed(codes.validity))
    }
}

// Asks for the text of the key's message, while its mailbox is selected.
fn ask_text<L: Link>(chosen: Chosen, link: &mut L, key: &Key) -> Result<(Chosen, Bytes), TextFault>
    requires named { chosen.name ≡ key.now.name }
    requires room { chosen.conversation.count + 1 < 4294967295 }
    requires follows { L.tells_files → Follows (L.link link.old).connection chosen.conversation.feed }
    requires stands { L.tells_server → Stands (Some chosen.name) (L.clock link.old) (L.link link.old).connection
        chosen.conversation.feed }
    ensures asks { OnlyAsks L.Clocked link.old link.new result }
    ensures converses { Converses L.Clocked key.now.name link.old link.new result }
    ensures tells { L.tells_files → IfOk result (λ p. Tells key.now p.1
        (stage_of (L.link link.old) (sessions.Chosen chosen)) (stage_of (L.link link.new) (sessions.Chosen p.0))) }
    ensures why { L.tells_files → (fault : AnyFault) → IsErrOf result fault
        → NotTold key.now (stage_of (L.link link.old) (sessions.Chosen chosen)) (L.link link.new) fault }
    ensures told { L.tells_server → IfOk result (λ p. TellsAt key.now p.1 chosen.conversation.count
        (L.clock link.old) (L.clock link.new)) }
    ensures stands { L.tells_server → IfOk result (λ p. Stands (Some p.0.name)
        (L.clock link.new) (L.link link.new).connection p.0.conversation.feed) }
    ensures still { L.tells_files
        → IfOk result (λ p. Follows (L.link link.new).connection p.0.conversation.feed) }
    ensures counted { IfOk result (λ p. p.0.conversation.count ≡ chosen.conversation.count + 1) }
{
    let tag = chosen.next_tag();
    let command = Command::FetchText { uid: key.uid };
    let asked = chosen.ask(link, tag, &command);
    drop(command);
    let answer = asked?;
    let (chosen, replies) = answer;
    match text_in(key.uid, replies) {
        Ok(text) => Ok((chosen, text)),
        Err(fault) => {
            drop(chosen);
            Err(fault)
        }
    }
}

// The text that was told.
fn text_in(uid: Uid, replies: Replies) -> Result<Bytes, TextFault>
    ensures text { IfOk result (λ text. text_found uid replies.untagged ≡ TextFound.Text text) }
    ensures why { (fault : AnyFault) → IsErrOf result fault
        → WhyNone (text_found uid replies.untagged) fault }
{
    let Replies {
        untagged,
        ending: _ending,
        code,
    } = replies;
    drop(code);
    match text_of(uid, untagged) {
        TextFound::Text(text) => Ok(text),
        TextFound::Lacks => Err(TextFault::Stopped(PlayFault::BadReply {
            why: Why::Lacks(Item::Body),
        })),
        TextFound::Gone => Err(TextFault::Gone),
    }
}

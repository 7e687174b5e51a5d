//! What a user is logged in by, and what a server must offer (RFC 9051, sections 6.1.1, 6.2.2 and 6.2.3).

ghost use Rattle.std.specs.Prelude.{◌≡◌, ◌<◌, ◌+◌, None, IfOk, OnOk, IsErrOf, IsTrue, codes};
ghost use Rattle.imap_model.specs.CommandText.{IsCarried};
ghost use Rattle.imap_model.specs.declared.command.Command.TheVariants as commands;
ghost use Rattle.imap_model.specs.declared.item.Item.{Item};
ghost use Rattle.imap_model.specs.declared.item.Item.TheVariants as items;
ghost use Rattle.imap_model.specs.declared.replies.Replies.{Replies};
ghost use Rattle.imap_session.specs.Conversing.{Concludes, Converses};
ghost use Rattle.imap_session.specs.Dialogue.{next_tag};
ghost use Rattle.imap_session.specs.Dialogue.Dialogue.{Asks, Ends, Lacks};
ghost use Rattle.imap_session.specs.Enabled.{is_enabled};
ghost use Rattle.imap_session.specs.Exchange.{FailsFor, HasReply, Talks};
ghost use Rattle.imap_session.specs.LogIn.{NoWay, fitness_of, logged_in, way_by};
ghost use Rattle.imap_session.specs.Offers.{offer_of};
ghost use Rattle.imap_session.specs.Session.{Follows, KeepsSelection, Stands};
ghost use Rattle.imap_session.specs.declared.fault.SessionFault.{SessionFault};
ghost use Rattle.imap_session.specs.declared.fault.SessionFault.TheVariants as faults;

use crate::SessionFault;
use crate::asking::converse;
use crate::discard::Discard;
use crate::enabled::Enabled;
use crate::offer::{Offer, behind_code};
use imap_model::{Command, Item};
use literal_feed::Feed;
use mail_base::{Account, Tag};
use std::alloc::{AllocError, Global};
use world_traits::{Clocked, Link};

// Whether IMAP4rev2 is offered, where this client can use the server; else the first thing that is lacking.
fn fit(offer: Offer) -> Result<bool, SessionFault>
    ensures fit { IfOk result (λ rev2. fitness_of offer ≡ Ends rev2) }
    ensures lacking { (fault : SessionFault) → IsErrOf result fault
        → (item : Item) × (fitness_of offer ≡ Lacks item) × (fault ≡ faults.Lacking item) }
{
    if !offer.qresync {
        return Err(SessionFault::Lacking {
            what: Item::Qresync,
        });
    }
    if offer.rev2 {
        return Ok(true);
    }
    if !offer.uidplus {
        return Err(SessionFault::Lacking {
            what: Item::Uidplus,
        });
    }
    if !offer.moves {
        return Err(SessionFault::Lacking { what: Item::Move });
    }
    Ok(false)
}

// The command that logs the user in, where there is one that the server allows.
fn way(account: &Account, offer: Offer) -> Result<Command, SessionFault>
    ensures way { IfOk result (λ command. way_by account.now offer ≡ Asks command
        (λ s. logged_in)) }
    ensures carried { IfOk result IsCarried }
    ensures keeps { IfOk result KeepsSelection }
    ensures why { (fault : SessionFault) → IsErrOf result fault
        → NoWay account.now offer fault }
{
    if offer.plain {
        let account = account.copy()?;
        return Ok(Command::Plain { account });
    }
    if offer.no_login {
        return Err(SessionFault::Lacking { what: Item::Login });
    }
    let account = account.copy()?;
    Ok(Command::Login { account })
}

/// Whether QRESYNC was enabled; else it is lacking.
pub fn check_enabled(enabled: Enabled) -> Result<(), SessionFault>
    ensures on { OnOk result (IsTrue enabled.qresync) }
    ensures off { (fault : SessionFault) → IsErrOf result fault
        → (fault ≡ faults.Lacking items.Qresync) × ¬ (IsTrue enabled.qresync) }
{
    if enabled.qresync {
        return Ok(());
    }
    Err(SessionFault::Lacking {
        what: Item::Qresync,
    })
}

/// Asks what is offered. What else the reply tells isn't kept.
pub fn ask_offer<L: Link>(
    alloc: Global,
    feed: &mut Feed,
    link: &mut L,
    count: u32,
) -> Result<Offer, SessionFault>
    requires room { count + 1 < 4294967295 }
    requires follows { L.tells_files → Follows (L.link link.old).connection feed.old }
    requires stands { L.tells_server
        → Stands None (L.clock link.old) (L.link link.old).connection feed.old }
    ensures talks { Talks L.Clocked (next_tag count) commands.Capability link.old link.new result }
    ensures replied { IfOk result (λ offer. (r : Replies) × (offer ≡ offer_of r)
        × HasReply L.Clocked (next_tag count) commands.Capability link.old link.new feed.old feed.new r) }
    ensures fails { FailsFor L.Clocked (next_tag count) commands.Capability link.old link.new feed.old result }
{
    let mut offer = Offer::new();
    let tag = Tag::Count(count + 1);
    let last = converse(alloc, feed, link, tag, &Command::Capability, &mut offer)?;
    Ok(behind_code(offer, &last.code))
}

/// Enables QRESYNC, with IMAP4rev2 where that was offered. What else the reply tells isn't kept.
pub fn ask_enabled<L: Link>(
    alloc: Global,
    feed: &mut Feed,
    link: &mut L,
    count: u32,
    rev2: bool,
) -> Result<Enabled, SessionFault>
    requires room { count + 1 < 4294967295 }
    requires follows { L.tells_files → Follows (L.link link.old).connection feed.old }
    requires stands { L.tells_server
        → Stands None (L.clock link.old) (L.link link.old).connection feed.old }
    ensures talks { Talks L.Clocked (next_tag count) (commands.Enable rev2) link.old link.new result }
    ensures replied { IfOk result (λ enabled. (r : Replies)
        × (enabled.qresync ≡ is_enabled (codes "QRESYNC") r.untagged)
        × HasReply L.Clocked (next_tag count) (commands.Enable rev2) link.old link.new feed.old feed.new r) }
    ensures fails { FailsFor L.Clocked (next_tag count) (commands.Enable rev2) link.old link.new feed.old result }
{
    let mut enabled = Enabled::new();
    let tag = Tag::Count(count + 1);
    converse(
        alloc,
        feed,
        link,
        tag,
        &Command::Enable { rev2 },
        &mut enabled,
    )?;
    Ok(enabled)
}

/// Asks what is offered to the user who is logged in. Tells whether IMAP4rev2 is.
pub fn check_offer<L: Link>(
    alloc: Global,
    feed: &mut Feed,
    link: &mut L,
    count: u32,
) -> Result<bool, SessionFault>
    requires room { count + 1 < 4294967295 }
    requires follows { L.tells_files → Follows (L.link link.old).connection feed.old }
    requires stands { L.tells_server
        → Stands None (L.clock link.old) (L.link link.old).connection feed.old }
    ensures converses { Converses L.Clocked logged_in count link.old link.new feed.old result }
    ensures concludes { IfOk result (λ rev2. Concludes L.Clocked logged_in count
        link.old link.new feed.old feed.new (record { count = count + 1; rev2 = rev2 })) }
{
    let offer = ask_offer(alloc, feed, link, count)?;
    fit(offer)
}

// Sends the command that logs the user in, and keeps nothing of what its reply tells.
fn enter<L: Link>(
    alloc: Global,
    feed: &mut Feed,
    link: &mut L,
    count: u32,
    command: &Command,
) -> Result<(), SessionFault>
    requires room { count + 1 < 4294967295 }
    requires carried { IsCarried command.now }
    requires keeps { KeepsSelection command.now }
    requires follows { L.tells_files → Follows (L.link link.old).connection feed.old }
    requires stands { L.tells_server
        → Stands None (L.clock link.old) (L.link link.old).connection feed.old }
    ensures talks { Talks L.Clocked (next_tag count) command.now link.old link.new result }
    ensures replied { OnOk result ((r : Replies)
        × HasReply L.Clocked (next_tag count) command.now link.old link.new feed.old feed.new r) }
    ensures fails { FailsFor L.Clocked (next_tag count) command.now link.old link.new feed.old result }
{
    let mut discard = Discard;
    converse(
        alloc,
        feed,
        link,
        Tag::Count(count + 1),
        command,
        &mut discard,
    )?;
    Ok(())
}

// Logs in by this command, and asks what is offered then.
fn log_in_by<L: Link>(
    alloc: Global,
    feed: &mut Feed,
    link: &mut L,
    count: u32,
    command: &Command,
) -> Result<bool, SessionFault>
    requires room { count + 2 < 4294967295 }
    requires carried { IsCarried command.now }
    requires keeps { KeepsSelection command.now }
    requires follows { L.tells_files → Follows (L.link link.old).connection feed.old }
    requires stands { L.tells_server
        → Stands None (L.clock link.old) (L.link link.old).connection feed.old }
    ensures converses { Converses L.Clocked (Asks command.now (λ s. logged_in)) count link.old link.new
        feed.old result }
    ensures concludes { IfOk result (λ rev2. Concludes L.Clocked (Asks command.now (λ s. logged_in)) count
        link.old link.new feed.old feed.new (record { count = count + 2; rev2 = rev2 })) }
{
    enter(alloc, feed, link, count, command)?;
    check_offer(alloc, feed, link, count + 1)
}

/// Logs the user in as this offer allows.
pub fn log_in<L: Link>(
    alloc: Global,
    feed: &mut Feed,
    link: &mut L,
    count: u32,
    account: &Account,
    offer: Offer,
) -> Result<bool, SessionFault>
    requires room { count + 2 < 4294967295 }
    requires follows { L.tells_files → Follows (L.link link.old).connection feed.old }
    requires stands { L.tells_server
        → Stands None (L.clock link.old) (L.link link.old).connection feed.old }
    ensures converses { Converses L.Clocked (way_by account.now offer) count link.old link.new
        feed.old result }
    ensures concludes { IfOk result (λ rev2. Concludes L.Clocked (way_by account.now offer) count
        link.old link.new feed.old feed.new (record { count = count + 2; rev2 = rev2 })) }
{
    let command = way(account, offer)?;
    log_in_by(alloc, feed, link, count, &command)
}

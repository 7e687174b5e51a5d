//! A stream of bytes to a server, and back.

use crate::Clocked;
use thiserror::Error;

/// A call of the link failed. The count of the link's faults rose in that call.
#[derive(Clone, Copy, Debug, PartialEq, Eq, Error)]
#[error("the link failed")]
pub struct LinkFailed;

/// A link to one server. There is a connection from a `connect` that answers Ok until `close` or
/// the next `LinkFailed`.
///
/// Where the object tells its server, that server is honest: in each call it does what RFC 9051
/// allows it to. A command that waits is carried out once, before the next greeting or never. Each
/// call answers `LinkFailed` only where the count of faults rose in that call, leaves that count
/// where it answers Ok, and leaves the disk as it was.
pub trait Link: Clocked {
    ghost use Rattle.std.specs.Prelude.{◌≡◌, ◌≤◌, ◌<◌, ◌++◌, ℕ, List, Option, Some, None};
    ghost use Rattle.std.specs.Prelude.{take, length, OnOk, OnErr, IfOk, IfSome};
    ghost use Rattle.mail_base.specs.declared.tag.Tag.{Tag};
    ghost use Rattle.imap_model.specs.Lines.{Received};
    ghost use Rattle.imap_model.specs.Talking.{Answering, Connecting, Awaits, IsPartOf};
    ghost use Rattle.imap_model.specs.declared.command.Command.{Command};
    ghost use Rattle.world_traits.specs.Calls.{Rose};
    ghost use Rattle.world_traits.specs.Connected.{IsGreeted, IsReplyDue, WasConnected};
    ghost use Rattle.world_traits.specs.ConnectionFailed.{ConnectionFailed};
    ghost use Rattle.world_traits.specs.ConnectionMade.{ConnectionMade};
    ghost use Rattle.world_traits.specs.LinkState.{Connection};
    ghost use Rattle.world_traits.specs.Links.{AnyStep, Linked};
    ghost use Rattle.world_traits.specs.Sends.{Sent};

    /// Begins a new connection and ends an old one. After Ok the server has greeted, nothing that
    /// was sent before waits any more, and nothing was received yet. What was sent up to now stands
    /// in front of what was sent earlier, also where it is nothing, as before the first connection.
    /// After an error both are as they were. No other call changes what was sent earlier.
    fn connect(&mut self) -> Result<(), LinkFailed>
        ensures disk { Self.disk_faults self.new ≡ Self.disk_faults self.old }
        ensures files { Self.tells_files →
            Linked AnyStep (Self.clock self.old) (Self.clock self.new) }
        ensures told { Self.tells_server →
            Linked Connecting (Self.clock self.old) (Self.clock self.new) }
        ensures anew { Self.tells_server →
            OnOk result (WasConnected (Self.clock self.old) (Self.clock self.new)) }
        ensures greets { Self.tells_server →
            OnOk result (IsGreeted (Self.clock self.new).now.outside) }
        ensures made { Self.tells_files →
            OnOk result (ConnectionMade (Self.link self.old) (Self.link self.new)) }
        ensures failed { Self.tells_files →
            OnErr result (ConnectionFailed (Self.link self.old) (Self.link self.new)) }
        ensures count { (Self.link self.old).faults ≤ (Self.link self.new).faults }
        ensures cause { OnErr result
            (Rose (Self.link self.old).faults (Self.link self.new).faults) }
        ensures unfailed { OnOk result
            ((Self.link self.new).faults ≡ (Self.link self.old).faults) };

    /// Sends all the bytes. After an error some prefix of them went out, and there is no connection
    /// any more. Where they are the part of a command's text that the server awaits, that part
    /// arrives in this call, or, after an error, it may have arrived whole.
    fn send(&mut self, bytes: &[u8]) -> Result<(), LinkFailed>
        requires there { Self.tells_server →
            (c : Connection) × ((Self.link self.old).connection ≡ Some c) }
        ensures disk { Self.disk_faults self.new ≡ Self.disk_faults self.old }
        ensures files { Self.tells_files →
            Linked AnyStep (Self.clock self.old) (Self.clock self.new) }
        ensures told { Self.tells_server →
            (tag : Tag) (command : Command) (before behind : List (List ℕ)) →
            IsPartOf tag command before bytes.now behind →
            Awaits tag before (Self.clock self.old).now.outside →
            Sent tag command before bytes.now behind
            (Self.clock self.old) (Self.clock self.new) result }
        ensures sent { Self.tells_files → OnOk result
            ((Self.link self.new).sent ≡ (Self.link self.old).sent ++ bytes.now) }
        ensures front { Self.tells_files → OnErr result ((n : ℕ)
            × ((Self.link self.new).sent ≡ (Self.link self.old).sent ++ take n bytes.now)) }
        ensures earlier { Self.tells_files →
            (Self.link self.new).earlier ≡ (Self.link self.old).earlier }
        ensures received { Self.tells_files → OnOk result
            ((Self.link self.new).connection ≡ (Self.link self.old).connection) }
        ensures lost { Self.tells_files →
            OnErr result ((Self.link self.new).connection ≡ None) }
        ensures count { (Self.link self.old).faults ≤ (Self.link self.new).faults }
        ensures cause { OnErr result
            (Rose (Self.link self.old).faults (Self.link self.new).faults) }
        ensures unfailed { OnOk result
            ((Self.link self.new).faults ≡ (Self.link self.old).faults) };

    /// Waits for what the server sends, writes at least one byte of it to the buffer's front, and
    /// answers how many. A stream that ends counts as a fault. After an error there is no connection
    /// any more.
    fn recv(&mut self, into: &mut [u8]) -> Result<usize, LinkFailed>
        requires room { 0 < length into.old }
        requires due { Self.tells_server →
            IsReplyDue (Self.clock self.old).now.outside (Self.link self.old).connection }
        ensures some { IfOk result (λ n. 0 < n) }
        ensures fits { IfOk result (λ n. n ≤ length into.old) }
        ensures disk { Self.disk_faults self.new ≡ Self.disk_faults self.old }
        ensures files { Self.tells_files →
            Linked AnyStep (Self.clock self.old) (Self.clock self.new) }
        ensures told { Self.tells_server →
            Linked Answering (Self.clock self.old) (Self.clock self.new) }
        ensures received { Self.tells_files →
            IfOk result (λ n. IfSome (Self.link self.old).connection (λ c.
            (Self.link self.new).connection
            ≡ Some (record c { received = c.received ++ take n into.new }))) }
        ensures sent { Self.tells_files → (Self.link self.new).sent ≡ (Self.link self.old).sent }
        ensures earlier { Self.tells_files →
            (Self.link self.new).earlier ≡ (Self.link self.old).earlier }
        ensures lost { Self.tells_files →
            OnErr result ((Self.link self.new).connection ≡ None) }
        ensures count { (Self.link self.old).faults ≤ (Self.link self.new).faults }
        ensures cause { OnErr result
            (Rose (Self.link self.old).faults (Self.link self.new).faults) }
        ensures unfailed { OnOk result
            ((Self.link self.new).faults ≡ (Self.link self.old).faults) };

    /// Ends the connection, where there is one. What was sent before may still be carried out.
    fn close(&mut self)
        ensures disk { Self.disk_faults self.new ≡ Self.disk_faults self.old }
        ensures files { Self.tells_files →
            Linked AnyStep (Self.clock self.old) (Self.clock self.new) }
        ensures told { Self.tells_server →
            Linked Answering (Self.clock self.old) (Self.clock self.new) }
        ensures ended { Self.tells_files → (Self.link self.new).connection ≡ None }
        ensures sent { Self.tells_files → (Self.link self.new).sent ≡ (Self.link self.old).sent }
        ensures earlier { Self.tells_files →
            (Self.link self.new).earlier ≡ (Self.link self.old).earlier }
        ensures count { (Self.link self.new).faults ≡ (Self.link self.old).faults };

    /// The bytes received are a front of the lines of what the server has told in this connection:
    /// such lines exist. Which spelling of a response they take, the link needs not keep.
    ghost honest: { (link : Self) → Self.tells_server → (c : Connection) →
        (Self.link link).connection ≡ Some c →
        ∥ Received (Self.clock link).now.outside.talk.told c.received ∥₁ };
}

//! What the server tells can be spelled.

ghost use Rattle.std.specs.Prelude.{ℕ, List, Option};
ghost use Rattle.std.specs.List.{AllByRecursion};
ghost use Rattle.imap_model.specs.CarriedOut.{told_in};
ghost use Rattle.imap_model.specs.PlainServer.{Choices, turn_of};
ghost use Rattle.imap_model.specs.TagText.{IsCommandTag};
ghost use Rattle.imap_model.specs.declared.command.Command.{Command};
ghost use Rattle.imap_model.specs.declared.server.Server.{Server};
ghost use Rattle.mail_base.specs.declared.tag.Tag.{Tag};
ghost use Rattle.response_lines.specs.Tellable.{AreTellable, IsAtomic};

/// Each response to a command under a tag of this client can be spelled, where what the server offers are atoms.
pub fn replies_are_tellable()
    ensures { (c : Choices) (selected : Option (List ℕ)) (tag : Tag) (command : Command) (s : Server)
        → AllByRecursion IsAtomic c.offers → IsCommandTag tag
        → AreTellable (told_in tag (turn_of c selected tag command s).replies) }
{}

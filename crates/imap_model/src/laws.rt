//! What holds of the texts of commands (RFC 9051, sections 2.2.1 and 6) and of changes (section 2.3.1.1; RFC 7162, section 3.1).

ghost use Rattle.std.specs.Prelude.{ℕ, List, Option};
ghost use Rattle.imap_model.specs.CarriedOut.{CarriesOut};
ghost use Rattle.imap_model.specs.Carrying.{Waiting, Carries};
ghost use Rattle.imap_model.specs.declared.replies.Replies.{Replies};
ghost use Rattle.imap_model.specs.declared.server.Server.{Server};
ghost use Rattle.mail_base.specs.declared.tag.Tag.{Tag};
ghost use Rattle.imap_model.specs.PlainServer.{Choices, turn_of};
ghost use Rattle.imap_model.specs.WellFormed.{IsWellFormed};
ghost use Rattle.imap_model.specs.declared.command.Command.{Command};
ghost use Rattle.imap_model.specs.Changing.{ChangesStayWell, BatchesStayWell, RulesDecide};
ghost use Rattle.imap_model.specs.OneText.{OneText};

/// Two commands under their tags have the same parts only where they are the same command under the same tag.
pub fn one_text()
    ensures { OneText }
{}

/// A change, and all those that others make at one moment, keep a server well formed, and let each of its mailboxes go on:
/// what was gone stays gone, no UID comes below the old UIDNEXT, and what changed has a mod-sequence above the old highest.
pub fn changes_stay_well()
    ensures one { ChangesStayWell }
    ensures all { BatchesStayWell }
{}

/// A change of a server that is well formed can be made exactly where it breaks none of the eight rules.
pub fn rules_decide()
    ensures { RulesDecide }
{}

/// Of the server alone a command that is carried out says this: it is refused and nothing changes, or it has its effect, if
/// it has one.
pub fn carried_effect()
    ensures { (w : Waiting) (s : Server) (r : Replies) (t : Server) (after : Option (List ℕ)) → CarriesOut w s r t after
        → Carries w s t }
{}

/// The plain server carries out each command as a lawful server may, whatever it chooses and whatever is selected.
pub fn plain_server_is_lawful()
    ensures { (c : Choices) (selected : Option (List ℕ)) (tag : Tag) (command : Command) (s : Server) → IsWellFormed s.boxes
        → CarriesOut (record { selected = selected; tag = tag; command = command }) s
        (turn_of c selected tag command s).replies (turn_of c selected tag command s).server (turn_of c selected tag command s).selected }
{}

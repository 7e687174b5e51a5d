//! What `--help` and `--version` print, which are no commands (no top call knows them), and the notices on standard
//! error.

ghost use Rattle.std.specs.Prelude.{IsNone, IfSome, map, string_bytes};
ghost use Rattle.mail_cli.specs.Notices.{AsksHelp, AsksVersion, OneOf};

/// The text of `--help`.
pub const HELP: &str = "\
usage: mowerbean init BOX ..            sets up a journal for 1 to 32 mailboxes
       mowerbean flag BOX ID + FLAG ..  the message is to have the flags
       mowerbean flag BOX ID - FLAG ..  the message is to be without them
       mowerbean move BOX ID BOX        the message is to be moved
       mowerbean append BOX FLAG ..     standard input is to be put into BOX
       mowerbean list BOX               shows the messages of a mailbox
       mowerbean queue                  shows the actions that wait
       mowerbean report                 tells the actions that ended as conflicts
       mowerbean history                shows all actions, with how each stands
       mowerbean letter N               prints the message of action N, an append
       mowerbean play                   plays the actions back, and fetches what is
                                        new of each mailbox
       mowerbean --help | --version

ID is a message's UID, or dN for the message that action N is to make. FLAG is
\\Answered, \\Flagged, \\Deleted, \\Seen, \\Draft or a keyword. A message that is put
into a mailbox must have exactly one Message-ID.

mowerbean init INBOX Archive       prints `ready`
mowerbean play                     prints `played 0 conflicts 0`
mowerbean list INBOX               prints ID, mod-sequence and flags: `42 715`
mowerbean flag INBOX 42 + '\\Seen'  prints `accepted 1`
mowerbean move INBOX 42 Archive    prints `accepted 2`
mowerbean append Archive < a.eml   prints `accepted 3`
mowerbean list Archive             prints `d2 - \\seen` and `d3 -`
mowerbean queue                    prints `1 waiting flag INBOX 42 + \\seen`, and
                                   a line each for actions 2 and 3
mowerbean play                     prints `played 3 conflicts 0`
mowerbean report                   prints nothing: none ended as a conflict
mowerbean history                  prints `2 done 9 7 move INBOX 42 Archive`, and
                                   a line each for actions 1 and 3
mowerbean letter 3                 prints a.eml, each line's end as CR and LF

The journal is kept in journal.0 and journal.1 of the folder MAIL_DIR (default:
the present one). The server is MAIL_SERVER, as HOST:PORT (default:
localhost:143), the user MAIL_USER, and the password MAIL_PASSWORD. `play` plays
accepted actions back on the server in their order, and then fetches what is new
of each mailbox. Where a connection is lost, the next `play` goes on.
";

/// The text of `--version`.
pub const VERSION: &str = "mowerbean 0.2.0-dev\n";

/// What is told on standard error beside `error disk` where another run uses the journal.
pub const IN_USE: &str = "mowerbean: another run uses the journal\n";

/// What is told on standard error beside `error words`.
pub const SEE_HELP: &str = "mowerbean: no such command: see mowerbean --help\n";

/// What is told on standard error where the program can't begin.
pub const NO_NULL: &str = "mowerbean: /dev/null can't be opened; nothing was done\n";

/// The text that the words ask for, where they are one of the two alone.
pub fn notice_for(words: &[String]) -> Option<&'static str>
    ensures some { IfSome result (λ text. OneOf (map string_bytes words.now) HELP.now VERSION.now text.now) }
    ensures none { IsNone result → (AsksHelp (map string_bytes words.now) → ⊥) × (AsksVersion (map string_bytes words.now) → ⊥) }
{
    match words {
        [word] => match word.as_str() {
            "--help" => Some(HELP),
            "--version" => Some(VERSION),
            _ => None,
        },
        _ => None,
    }
}

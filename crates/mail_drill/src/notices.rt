//! What `--help` and `--version` print, which ask for no drill.

/// The text of `--help`.
pub const HELP: &str = "\
usage: mail_drill SEED N
       mail_drill --help | --version

Makes a mailbox of N messages (1 to 2000) in memory and 2N commands that SEED (0
to 4294967295) decides, plays them through lost connections and stops, and prints
how many were accepted and refused, and of the accepted ones how many were
settled, took effect twice, or are missing.
";

/// The text of `--version`.
pub const VERSION: &str = "mail_drill 0.2.0-dev\n";

/// The text that the words ask for, where they are one of the two alone.
pub fn notice_for(words: &[String]) -> Option<&'static str> {
    match words {
        [word] => match word.as_str() {
            "--help" => Some(HELP),
            "--version" => Some(VERSION),
            _ => None,
        },
        _ => None,
    }
}

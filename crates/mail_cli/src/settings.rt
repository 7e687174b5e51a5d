//! What the environment and the arguments say.

ghost use Rattle.std.specs.Prelude.{◌≡◌, []};
ghost use Rattle.std.specs.List.{Contains};

use mail_base::{Account, AccountFault};
use std::alloc::AllocError;
use std::env;
use std::env::VarError;
use std::io::ErrorKind;
use std::rt::Env;

/// Why the words can't be handed on.
#[derive(Clone, Copy, Debug, PartialEq, Eq, Drop)]
pub enum WordsFault {
    /// An argument isn't UTF-8.
    NotText,
    /// Memory is wanting.
    Memory,
}

/// The arguments behind the program's name.
pub fn words<R: Env + AllocGlobal>(rt: &R) -> Result<Vec<String>, WordsFault> {
    let arguments = match env::args(rt) {
        Ok(arguments) => arguments,
        Err(error) if error.kind() == ErrorKind::InvalidData => return Err(WordsFault::NotText),
        Err(_) => return Err(WordsFault::Memory),
    };
    let mut words = Vec::new(rt.alloc());
    for word in arguments.skip(1) {
        if words.push(word).is_err() {
            return Err(WordsFault::Memory);
        }
    }
    Ok(words)
}

/// The user and the password of MAIL_USER and MAIL_PASSWORD. One that isn't there, isn't UTF-8 or holds a NUL counts as
/// empty.
pub fn account<R: Env + AllocGlobal>(rt: &R) -> Result<Account, AllocError> {
    let user = variable(rt, "MAIL_USER")?;
    let password = variable(rt, "MAIL_PASSWORD")?;
    match Account::new(rt.alloc(), plain(&user), plain(&password)) {
        Ok(account) => Ok(account),
        Err(AccountFault::HasNul | AccountFault::Memory) => Err(AllocError),
    }
}

// The text, or nothing where it holds a NUL.
fn plain(text: &str) -> &str
    ensures same { (Contains text.now 0 → ⊥) → result.now ≡ text.now }
    ensures nothing { Contains text.now 0 → result.now ≡ [] }
{
    if text.as_bytes().contains(&0) {
        ""
    } else {
        text
    }
}

// The text of a variable, or nothing where there is none.
fn variable<R: Env + AllocGlobal>(rt: &R, name: &str) -> Result<String, AllocError> {
    match env::var(rt, name) {
        Ok(text) => Ok(text),
        Err(VarError::NotPresent | VarError::NotUnicode) => Ok(String::new(rt.alloc())),
        Err(VarError::OutOfMemory) => Err(AllocError),
    }
}

/// The folder of MAIL_DIR, or `.` where there is none. `None` where its path isn't UTF-8, which no file can be opened by, or is
/// empty, which would mean the root of all folders.
pub fn folder<R: Env + AllocGlobal>(rt: &R) -> Result<Option<String>, AllocError> {
    match variable_or(rt, "MAIL_DIR", ".")? {
        Some(path) if path.is_empty() => Ok(None),
        path => Ok(path),
    }
}

/// The folder of the kept texts in this one.
pub fn texts_folder<R: AllocGlobal>(
    rt: &R,
    folder: &Option<String>,
) -> Result<Option<String>, AllocError> {
    let Some(folder) = folder else {
        return Ok(None);
    };
    Ok(Some(format!(in rt.alloc(); "{folder}/bodies")?))
}

/// The server of MAIL_SERVER as `HOST:PORT`, or `localhost:143` where there is none. `None` where it isn't UTF-8, which is no
/// server's name.
pub fn server<R: Env + AllocGlobal>(rt: &R) -> Result<Option<String>, AllocError> {
    variable_or(rt, "MAIL_SERVER", "localhost:143")
}

// How many seconds old a connection may become where MAIL_TIME doesn't say it.
const A_DAY: u64 = 86_400;

/// How many seconds old a connection may become: the number of MAIL_TIME, or a day where that is no number above 0.
pub fn connection_seconds<R: Env + AllocGlobal>(rt: &R) -> Result<u64, AllocError> {
    let text = variable(rt, "MAIL_TIME")?;
    match text.as_str().parse::<u64>() {
        Ok(seconds) if seconds > 0 => Ok(seconds),
        _ => Ok(A_DAY),
    }
}

/// Whether MAIL_LINK says that the front's link stands between this program and the server.
pub fn is_behind_link<R: Env + AllocGlobal>(rt: &R) -> Result<bool, AllocError> {
    Ok(variable(rt, "MAIL_LINK")?.as_str() == "yes")
}

// The text of a variable, or this text where there is none. `None` where it isn't UTF-8.
fn variable_or<R: Env + AllocGlobal>(
    rt: &R,
    name: &str,
    default: &str,
) -> Result<Option<String>, AllocError> {
    match env::var(rt, name) {
        Ok(text) => Ok(Some(text)),
        Err(VarError::NotPresent) => Ok(Some(String::from_str(rt.alloc(), default)?)),
        Err(VarError::NotUnicode) => Ok(None),
        Err(VarError::OutOfMemory) => Err(AllocError),
    }
}

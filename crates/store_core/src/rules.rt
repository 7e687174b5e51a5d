//! Which rules the book of a journal follows.

ghost use Rattle.std.specs.Prelude.{◌≡◌};
ghost use Rattle.store_core.specs.Mail.{rules_of};

use journal_core::Version;

/// The rules of a journal of this version.
pub fn rules_of(version: Version) -> action_queue::Version
    ensures { result ≡ rules_of version }
{
    match version {
        Version::First => action_queue::Version::First,
        Version::Second => action_queue::Version::Second,
    }
}

//! Why `play` didn't come to its end.

use crate::Refusal;
use play_driver::PlayFault;

/// Why `play` didn't come to its end.
#[derive(Drop)]
pub enum Unfinished {
    /// The journal isn't opened, or its book isn't told anew.
    Unopened(Refusal),
    /// The run ended early.
    Stopped(PlayFault),
}

impl From<Refusal> for Unfinished {
    ghost use Rattle.std.specs.Prelude.{◌≡◌};
    ghost use Rattle.mail_top.specs.declared.unfinished.Unfinished.TheVariants as ends;

    ghost from_gives = { λ refusal end. end ≡ ends.Unopened refusal };

    fn from(refusal: Refusal) -> Unfinished {
        Unfinished::Unopened(refusal)
    }
}

impl From<PlayFault> for Unfinished {
    ghost use Rattle.std.specs.Prelude.{◌≡◌};
    ghost use Rattle.mail_top.specs.declared.unfinished.Unfinished.TheVariants as ends;

    ghost from_gives = { λ fault end. end ≡ ends.Stopped fault };

    fn from(fault: PlayFault) -> Unfinished {
        Unfinished::Stopped(fault)
    }
}

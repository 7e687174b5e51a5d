//! What single words of a command say: a message, a sign.

ghost use Rattle.std.specs.Prelude.{◌≡◌, [], ◌∷◌, IsNone, IfSome};
ghost use Rattle.conflict_report.specs.QueueLines.{sign_of};
ghost use Rattle.mail_top.specs.Words.{WritesIdent};
ghost use Rattle.local_view.specs.declared.seen.Ident.{Ident as AnyIdent};

use local_view::Ident;
use mail_base::{ActionId, number_of};
use uid_sets::Uid;

/// The message that a word writes: its UID from 1 without leading zeros, or `d` and the number of the action that makes it.
pub fn ident_of(text: &str) -> Option<Ident>
    ensures some { IfSome result (WritesIdent text.now) }
    ensures none { IsNone result → (id : AnyIdent) → WritesIdent text.now id → ⊥ }
{
    match text.strip_prefix("d") {
        Some(rest) => Some(Ident::Dummy(ActionId::new(number_of(rest)?)?)),
        None => Some(Ident::Real(Uid::new(number_of(text)?)?)),
    }
}

/// Whether a sign asks for an addition.
pub fn is_addition(text: &str) -> Option<bool>
    ensures some { IfSome result (λ add. text.now ≡ sign_of add ∷ []) }
    ensures none { IsNone result → (add : _) → text.now ≡ sign_of add ∷ [] → ⊥ }
{
    match text {
        "+" => Some(true),
        "-" => Some(false),
        _ => None,
    }
}

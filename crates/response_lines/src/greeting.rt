//! The line of the greeting (RFC 9051, section 7.1).

ghost use Rattle.std.specs.Prelude.{◌≡◌, ◌∷◌, ◌++◌, [], IfOk, OnOk};
ghost use Rattle.std.specs.List.{AllByRecursion};
ghost use Rattle.imap_model.specs.declared.ending.Ending.TheVariants as endings;
ghost use Rattle.imap_model.specs.declared.response.Response.TheVariants as responses;
ghost use Rattle.response_lines.specs.LineTexts.{greeting_code};
ghost use Rattle.response_lines.specs.Tellable.{IsAtomic};
ghost use Rattle.response_lines.specs.ToldText.{lines_of};
ghost use Rattle.response_lines.specs.Written.{WritesLines};

use crate::Spelling;
use imap_model::{Code, Ending, Message, Response};
use mail_base::Words;
use std::alloc::{AllocError, Global};

impl Spelling {
    /// Puts the greeting behind the bytes: an OK with the code CAPABILITY, if something is offered.
    pub fn put_greeting(&self, offers: &Words, out: &mut Vec<u8>) -> Result<(), AllocError>
        requires { AllByRecursion IsAtomic offers.now }
        ensures spelled { OnOk result (WritesLines (responses.Untagged endings.Ok (greeting_code offers.now) ∷ []) out.old.items out.new.items) }
        ensures text { OnOk result (out.new.items ≡ out.old.items ++ lines_of self.now.older self.now.tag [] (responses.Untagged endings.Ok (greeting_code offers.now) ∷ [])) }
    {
        let code = greeting_code(self.alloc, offers)?;
        let told = [Response::Untagged {
            ending: Ending::Ok,
            code,
        }];
        let nothing: [Message; 0] = [];
        self.put_lines(&nothing, &told, out)
    }
}

// What is offered, as the code of the greeting.
fn greeting_code(alloc: Global, offers: &Words) -> Result<Code, AllocError>
    ensures { IfOk result (λ code. code ≡ greeting_code offers.now) }
{
    if offers.as_slice().is_empty() {
        return Ok(Code::None);
    }
    Ok(Code::Capability(offers.copy(alloc)?))
}

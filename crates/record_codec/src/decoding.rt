//! Reads the record of an event.

ghost use Rattle.std.specs.Prelude.{◌≡◌, IfOk, IfErr, IsOkUnless};
ghost use Rattle.action_queue.specs.declared.event.Event.{Event};
ghost use Rattle.record_codec.specs.Reading.{place_of};
ghost use Rattle.record_codec.specs.Refusing.{WhyRefused};
ghost use Rattle.record_codec.specs.Spelling.{Spelled};
ghost use Rattle.record_codec.specs.declared.fault.RecordFault.TheVariants as faults;

use crate::fault::RecordFault;
use crate::misfit::Misfit;
use crate::reading::Fields;
use action_queue::Event;
use std::alloc::Global;

// The bytes of the largest body.
const MAX_BODY: usize = 1_073_741_824;

/// The event whose record has this body. Refuses, by `BadForm` at the first field that doesn't fit, each body that is no
/// event's. A field is every byte, number, name, key and text by itself; a name or a key begins at its length. A name
/// that comes twice, and a key, range or row out of order, doesn't fit where it begins; nor does a text without a
/// Message-ID, and a byte too many. Each text is copied once, and rows come in linear time.
pub fn decode(alloc: Global, body: &[u8]) -> Result<Event, RecordFault>
    ensures value { IfOk result (λ event. Spelled body.now event) }
    ensures found { (event : Event) → Spelled body.now event → IsOkUnless result RecordFault.Memory }
    ensures refused { IfErr result (λ fault. WhyRefused body.now fault) }
{
    let mut fields = Fields::of(body);
    match fields.event(alloc) {
        Ok(event) => {
            if fields.left() > 0 {
                return Err(bad_form(body, fields.left()));
            }
            if body.len() > MAX_BODY {
                return Err(bad_form(body, 0));
            }
            Ok(event)
        }
        Err(Misfit::Left(left)) => Err(bad_form(body, left)),
        Err(Misfit::Memory) => Err(RecordFault::Memory),
    }
}

// The fault of a field in front of which so many bytes of a body are left.
fn bad_form(body: &[u8], left: usize) -> RecordFault
    ensures { result ≡ faults.BadForm (place_of body.now left) }
{
    let at = body.len().saturating_sub(left).min(MAX_BODY);
    RecordFault::BadForm { at }
}

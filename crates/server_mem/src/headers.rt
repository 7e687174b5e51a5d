//! Message-ID fields of messages (RFC 5322, section 3.6.4), as they are searched and fetched (RFC 9051, sections 6.4.4 and 6.4.5).

ghost use Rattle.std.specs.Prelude.{◌≡◌, ◌∷◌, ◌++◌, ◌&&◌, IfOk, OnOk};
ghost use Rattle.mail_header.specs.Field.{fields_of};
ghost use Rattle.mail_header.specs.Folding.{unfolded};
ghost use Rattle.mail_header.specs.Header.{crlf};
ghost use Rattle.mail_header.specs.Identifier.{is_id_name};
ghost use Rattle.imap_model.specs.Searching as searching;
ghost use Rattle.imap_model.specs.ToldRows.{id_fields};
ghost use Rattle.server_mem.specs.IdFields.{any_holds, id_text};

use mail_header::{fields, unfold};
use std::alloc::{AllocError, Global};

// Whether the part stands somewhere in the text.
fn holds_part(part: &[u8], text: &[u8]) -> bool
    ensures { result ≡ searching.holds_part part.now text.now }
{
    let mut rest = text;
    while let Some((_, behind)) = rest.split_first() {
        if rest.starts_with(part) {
            return true;
        }
        rest = behind;
    }
    part.is_empty()
}

// The bytes in ASCII's lower case.
fn lower(alloc: Global, bytes: &[u8]) -> Result<Vec<u8>, AllocError>
    ensures { IfOk result (λ lowered. lowered.items ≡ searching.lower bytes.now) }
{
    bytes
        .iter()
        .map(|byte| byte.to_ascii_lowercase())
        .collect(alloc)
}

// Whether a field's body holds a part that is in lower case.
fn body_holds(alloc: Global, part: &[u8], body: &[u8]) -> Result<bool, AllocError>
    ensures { IfOk result (λ holds. holds ≡ searching.holds_part part.now (searching.lower (unfolded body.now))) }
{
    let unfolded = unfold(alloc, body)?;
    let lowered = lower(alloc, &unfolded)?;
    Ok(holds_part(part, &lowered))
}

// Whether a field has the name Message-ID.
fn is_id(name: &[u8]) -> bool
    ensures { result ≡ is_id_name name.now }
{
    name.eq_ignore_ascii_case(b"message-id")
}

// Whether a field is one of that name, and its body holds a part that is in lower case.
fn field_holds(alloc: Global, part: &[u8], name: &[u8], body: &[u8]) -> Result<bool, AllocError>
    ensures { IfOk result (λ holds. holds ≡ (is_id_name name.now && searching.holds_part part.now (searching.lower (unfolded body.now)))) }
{
    if !is_id(name) {
        return Ok(false);
    }
    let holds = body_holds(alloc, part, body)?;
    Ok(holds)
}

// Whether one of a text's fields is such a one.
fn any_field_holds(alloc: Global, part: &[u8], text: &[u8]) -> Result<bool, AllocError>
    ensures { IfOk result (λ holds. holds ≡ any_holds part.now (fields_of text.now)) }
{
    let mut left = fields(text);
    while let Some(field) = left.next() {
        if field_holds(alloc, part, field.name, field.body)? {
            return Ok(true);
        }
    }
    Ok(false)
}

/// Whether a part stands in a Message-ID field of a text, if ASCII's case doesn't count.
pub fn has_in_id(alloc: Global, part: &[u8], text: &[u8]) -> Result<bool, AllocError>
    ensures { IfOk result (λ holds. holds ≡ searching.has_in_id_caseless part.now text.now) }
{
    let lowered = lower(alloc, part)?;
    let holds = any_field_holds(alloc, &lowered, text)?;
    Ok(holds)
}

// Adds a field as it stands, with its CRLF.
fn push_field(text: &mut Vec<u8>, name: &[u8], body: &[u8]) -> Result<(), AllocError>
    ensures { OnOk result (text.new.items ≡ text.old.items ++ ((name.now ++ 58 ∷ body.now) ++ crlf)) }
{
    text.extend_from_slice(name)?;
    text.push(b':')?;
    text.extend_from_slice(body)?;
    text.extend_from_slice(b"\r\n")?;
    Ok(())
}

// Those of a text's fields that have the name, and an empty line.
fn fields_text(alloc: Global, text: &[u8]) -> Result<Vec<u8>, AllocError>
    ensures { IfOk result (λ told. told.items ≡ id_text (fields_of text.now)) }
{
    let mut told = Vec::new(alloc);
    let mut left = fields(text);
    while let Some(field) = left.next() {
        if is_id(field.name) {
            push_field(&mut told, field.name, field.body)?;
        }
    }
    told.extend_from_slice(b"\r\n")?;
    Ok(told)
}

/// The Message-ID fields of a text, and an empty line.
pub fn id_fields(alloc: Global, text: &[u8]) -> Result<Vec<u8>, AllocError>
    ensures { IfOk result (λ told. told.items ≡ id_fields text.now) }
{
    let told = fields_text(alloc, text)?;
    Ok(told)
}

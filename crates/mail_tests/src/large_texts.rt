//! A message's body costs its header's readers nothing.

use mail_header::message_id;
use std::alloc::{AllocError, Global};
use std::test::Fail;

const T: &[u8] = b"Message-ID: <a1@x>\r\nSubject: hi\r\n\r\nhello\r\n";

// Whether a text's Message-ID is this one.
fn is_id(alloc: Global, text: &[u8], id: &[u8]) -> bool {
    match message_id(alloc, text) {
        Ok(found) => found.as_slice() == id,
        Err(_) => false,
    }
}

// The header of `T` before a body of 32 MiB.
fn large_text(alloc: Global) -> Result<Vec<u8>, AllocError> {
    let mut text = Vec::from_slice(alloc, T)?;
    text.extend_from_slice(&vec![in alloc; b'\r'; 33_554_432]?)?;
    Ok(text)
}

#[test]
fn the_body_is_never_read(rt: HostRuntime) -> Result<(), Fail> {
    let text = large_text(rt.alloc())?;
    for _ in 0..1_000 {
        assert!(rt; is_id(rt.alloc(), &text, b"<a1@x>"));
    }
    Ok(())
}

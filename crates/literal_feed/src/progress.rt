//! How far a stream was read, line by line (RFC 9051, section 2.2).

ghost use Rattle.std.specs.Prelude.{◌≡◌, [], drop, length};
ghost use Rattle.literal_feed.specs.Streams.{Reads, Holds};

use crate::line::{Found, read_on, start};
use crate::part::{Cursor, told};
use mail_base::FeedFault;

/// How far the bytes that stand in a feed were read.
#[derive(Clone, Copy)]
pub(crate) struct Progress {
    /// So many of the bytes are whole lines with their CRLFs.
    pub(crate) whole: usize,
    /// How far the line behind them was read.
    pub(crate) cursor: Cursor,
    /// The fault of that line.
    pub(crate) fault: Option<FeedFault>,
}

/// Nothing was read.
pub(crate) fn begin() -> Progress
    ensures { ∥ Holds 0 [] result ∥₁ }
{
    Progress {
        whole: 0,
        cursor: start(),
        fault: None,
    }
}

/// Reads on behind so many bytes of whole lines, from where the cursor says. The first byte has the place `at`.
pub(crate) fn read_lines(text: &[u8], mut whole: usize, mut cursor: Cursor, at: u64) -> Progress
    requires { ∥ Reads at text.now whole cursor ∥₁ }
    ensures { ∥ Holds at text.now result ∥₁ }
{
    loop {
        match read_on(&text[whole..], cursor, told(at, whole)) {
            Found::Whole(end) => {
                whole += end + 2;
                cursor = start();
            }
            Found::Open(cursor) => {
                return Progress {
                    whole,
                    cursor,
                    fault: None,
                };
            }
            Found::Bad(fault) => {
                return Progress {
                    whole,
                    cursor,
                    fault: Some(fault),
                };
            }
        }
    }
}

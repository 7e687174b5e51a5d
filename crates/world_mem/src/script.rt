//! A script: what comes over a link, whatever is sent.

/// A piece of a script.
#[derive(Drop)]
pub enum Script {
    /// These bytes, once.
    Piece(Vec<u8>),
    /// These bytes again and again, so that nothing behind them ever comes. Where there are none,
    /// the script ends here.
    Endless(Vec<u8>),
}

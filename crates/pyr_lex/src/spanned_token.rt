// A token and its place.
use crate::Token;

/// A token, and where it stands in its line.
#[derive(Clone, Copy, Debug, PartialEq, Eq)]
pub struct SpannedToken {
    /// The token.
    pub token: Token,
    /// The index of its first byte in the line.
    pub from: u32,
    /// The index behind its last byte.
    pub to: u32,
}

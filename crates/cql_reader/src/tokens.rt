//! Defines tokens.

/// Names a kind of token.
#[derive(Clone, Copy, PartialEq, Eq)]
pub enum TokenKind {
    Select,
    Distinct,
    Istream,
    Dstream,
    Rstream,
    From,
    As,
    Where,
    Group,
    By,
    And,
    Or,
    Not,
    Range,
    Rows,
    Partition,
    Now,
    Unbounded,
    Slide,
    Count,
    Sum,
    Min,
    Max,
    Name,
    /// Is a word that is too long for a name.
    Word,
    Number,
    Open,
    Close,
    Left,
    Right,
    Comma,
    Dot,
    Semicolon,
    Star,
    Equal,
    Unequal,
    Less,
    AtMost,
    Greater,
    AtLeast,
}

/// Holds a token, and where it starts and ends in the text.
#[derive(Clone, Copy)]
pub struct Token {
    /// Says what the token is.
    pub kind: TokenKind,
    /// Holds the place of its first byte in the text.
    pub from: usize,
    /// Holds the place after its last byte.
    pub to: usize,
}

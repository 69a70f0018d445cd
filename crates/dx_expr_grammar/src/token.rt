/// A sign of the language: an operator, a bracket, another mark, or the name of a function.
#[derive(Clone, Copy, Debug, PartialEq, Eq)]
pub enum Sign {
    /// `?`
    Question,
    /// `:`
    Colon,
    /// `||`
    Or,
    /// `&&`
    And,
    /// `==`
    Equal,
    /// `!=`
    NotEqual,
    /// `<`
    Less,
    /// `<=`
    LessEqual,
    /// `>`
    Greater,
    /// `>=`
    GreaterEqual,
    /// `+`
    Plus,
    /// `-`
    Minus,
    /// `*`
    Times,
    /// `/`
    Over,
    /// `%`
    Percent,
    /// `!`
    Not,
    /// `.`
    Dot,
    /// `$`
    Dollar,
    /// `(`
    Open,
    /// `)`
    Close,
    /// `[`
    OpenVector,
    /// `]`
    CloseVector,
    /// `,`
    Comma,
    /// `abs`
    Abs,
    /// `sign`
    SignOf,
    /// `min`
    Min,
    /// `max`
    Max,
    /// `dot`
    DotProduct,
}

/// What a token is.
#[derive(Clone, Copy, Debug, PartialEq, Eq)]
pub enum TokenKind {
    Sign(Sign),
    /// A run of digits, by its value; each value above 2,147,483,647 counts as 2,147,483,648.
    Digits(u32),
}

/// A token, and how many bytes of the text are before it.
#[derive(Clone, Copy, Debug, PartialEq, Eq)]
pub struct Token {
    pub kind: TokenKind,
    pub at: u64,
}

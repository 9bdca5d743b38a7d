//! The tokens whose text is fixed.

ghost use Rattle.std.specs.Prelude.{◌≡◌};
ghost use Rattle.c_syntax.specs.Tokens.{sign_text, word_text};

/// A word of the grammar that names nothing.
#[derive(Clone, Copy, Debug, PartialEq, Eq)]
pub enum CWord {
    Void,
    Long,
    /// `vr_ref`
    Ref,
    If,
    Else,
    While,
    Break,
    Continue,
    Return,
    /// `vr_null`
    Null,
    /// `n`, the cells of numbers
    Numbers,
    /// `r`, the cells of references
    References,
}

/// A sign that is no operator.
#[derive(Clone, Copy, Debug, PartialEq, Eq)]
pub enum CSign {
    Arrow,
    OpenBrace,
    CloseBrace,
    OpenParen,
    CloseParen,
    OpenBracket,
    CloseBracket,
    Semicolon,
    Comma,
    Assign,
}

impl CWord {
    /// Each word once.
    pub const ALL: [CWord; 12] = [
        CWord::Void,
        CWord::Long,
        CWord::Ref,
        CWord::If,
        CWord::Else,
        CWord::While,
        CWord::Break,
        CWord::Continue,
        CWord::Return,
        CWord::Null,
        CWord::Numbers,
        CWord::References,
    ];

    /// How it is spelled.
    pub fn text(self) -> &'static str
        ensures { result.now ≡ word_text self }
    {
        match self {
            CWord::Void => "void",
            CWord::Long => "long",
            CWord::Ref => "vr_ref",
            CWord::If => "if",
            CWord::Else => "else",
            CWord::While => "while",
            CWord::Break => "break",
            CWord::Continue => "continue",
            CWord::Return => "return",
            CWord::Null => "vr_null",
            CWord::Numbers => "n",
            CWord::References => "r",
        }
    }
}

impl CSign {
    /// How it is spelled.
    pub fn text(self) -> &'static str
        ensures { result.now ≡ sign_text self }
    {
        match self {
            CSign::Arrow => "->",
            CSign::OpenBrace => "{",
            CSign::CloseBrace => "}",
            CSign::OpenParen => "(",
            CSign::CloseParen => ")",
            CSign::OpenBracket => "[",
            CSign::CloseBracket => "]",
            CSign::Semicolon => ";",
            CSign::Comma => ",",
            CSign::Assign => "=",
        }
    }
}

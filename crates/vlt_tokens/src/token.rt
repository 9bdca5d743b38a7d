//! Tokens, with the spelling of each keyword and sign.

ghost use Rattle.std.specs.Prelude.{◌≡◌, ◌<◌, length};
ghost use Rattle.vlt_tokens.specs.Spelling.{word_text, sign_text};

use vlt_base::Span;

/// A keyword.
#[derive(Clone, Copy, Debug, PartialEq, Eq)]
pub enum Word {
    Abstract,
    Adopt,
    As,
    Become,
    Bool,
    Break,
    Case,
    Continue,
    Else,
    Extern,
    False,
    Focus,
    If,
    Input,
    Int,
    Into,
    More,
    New,
    Open,
    Print,
    Release,
    Return,
    Stateset,
    Struct,
    Swap,
    Switch,
    Tracked,
    True,
    Variant,
    Void,
    While,
}

/// A sign.
#[derive(Clone, Copy, Debug, PartialEq, Eq)]
pub enum Mark {
    OpenBrace,
    CloseBrace,
    OpenParen,
    CloseParen,
    OpenBracket,
    CloseBracket,
    Less,
    Greater,
    Comma,
    Semicolon,
    Colon,
    Dot,
    At,
    Arrow,
    Assign,
    Plus,
    Minus,
    Star,
    Slash,
    Percent,
    Not,
    And,
    Or,
    Xor,
    AndAnd,
    OrOr,
    Equal,
    NotEqual,
    LessEqual,
    GreaterEqual,
}

/// What a token is.
#[derive(Clone, Copy, Debug, PartialEq, Eq)]
pub enum TokenKind {
    /// A name that is no keyword.
    Name,
    /// A `'` and a name, which may be spelled like a keyword.
    Tick,
    /// A number from 0 to 9223372036854775807.
    Number(i64),
    Keyword(Word),
    Sign(Mark),
}

/// A token, its text in the source, and where that stands.
#[derive(Clone, Copy, Debug, PartialEq, Eq)]
pub struct Token<'a> {
    pub kind: TokenKind,
    pub text: &'a [u8],
    pub at: Span,
}

impl Word {
    /// Each keyword once.
    pub const ALL: [Word; 31] = [
        Word::Abstract,
        Word::Adopt,
        Word::As,
        Word::Become,
        Word::Bool,
        Word::Break,
        Word::Case,
        Word::Continue,
        Word::Else,
        Word::Extern,
        Word::False,
        Word::Focus,
        Word::If,
        Word::Input,
        Word::Int,
        Word::Into,
        Word::More,
        Word::New,
        Word::Open,
        Word::Print,
        Word::Release,
        Word::Return,
        Word::Stateset,
        Word::Struct,
        Word::Swap,
        Word::Switch,
        Word::Tracked,
        Word::True,
        Word::Variant,
        Word::Void,
        Word::While,
    ];

    /// How the keyword is spelled.
    pub fn text(self) -> &'static str
        ensures { result.now ≡ word_text self }
    {
        match self {
            Word::Abstract => "abstract",
            Word::Adopt => "adopt",
            Word::As => "as",
            Word::Become => "become",
            Word::Bool => "bool",
            Word::Break => "break",
            Word::Case => "case",
            Word::Continue => "continue",
            Word::Else => "else",
            Word::Extern => "extern",
            Word::False => "false",
            Word::Focus => "focus",
            Word::If => "if",
            Word::Input => "input",
            Word::Int => "int",
            Word::Into => "into",
            Word::More => "more",
            Word::New => "new",
            Word::Open => "open",
            Word::Print => "print",
            Word::Release => "release",
            Word::Return => "return",
            Word::Stateset => "stateset",
            Word::Struct => "struct",
            Word::Swap => "swap",
            Word::Switch => "switch",
            Word::Tracked => "tracked",
            Word::True => "true",
            Word::Variant => "variant",
            Word::Void => "void",
            Word::While => "while",
        }
    }
}

impl Mark {
    /// Each sign once, the longer ones first.
    pub const ALL: [Mark; 30] = [
        Mark::Arrow,
        Mark::AndAnd,
        Mark::OrOr,
        Mark::Equal,
        Mark::NotEqual,
        Mark::LessEqual,
        Mark::GreaterEqual,
        Mark::OpenBrace,
        Mark::CloseBrace,
        Mark::OpenParen,
        Mark::CloseParen,
        Mark::OpenBracket,
        Mark::CloseBracket,
        Mark::Less,
        Mark::Greater,
        Mark::Comma,
        Mark::Semicolon,
        Mark::Colon,
        Mark::Dot,
        Mark::At,
        Mark::Assign,
        Mark::Plus,
        Mark::Minus,
        Mark::Star,
        Mark::Slash,
        Mark::Percent,
        Mark::Not,
        Mark::And,
        Mark::Or,
        Mark::Xor,
    ];

    /// How the sign is spelled.
    pub fn text(self) -> &'static str
        ensures bytes { result.now ≡ sign_text self }
        ensures some { 0 < length result.now }
    {
        match self {
            Mark::OpenBrace => "{",
            Mark::CloseBrace => "}",
            Mark::OpenParen => "(",
            Mark::CloseParen => ")",
            Mark::OpenBracket => "[",
            Mark::CloseBracket => "]",
            Mark::Less => "<",
            Mark::Greater => ">",
            Mark::Comma => ",",
            Mark::Semicolon => ";",
            Mark::Colon => ":",
            Mark::Dot => ".",
            Mark::At => "@",
            Mark::Arrow => "->",
            Mark::Assign => "=",
            Mark::Plus => "+",
            Mark::Minus => "-",
            Mark::Star => "*",
            Mark::Slash => "/",
            Mark::Percent => "%",
            Mark::Not => "!",
            Mark::And => "&",
            Mark::Or => "|",
            Mark::Xor => "^",
            Mark::AndAnd => "&&",
            Mark::OrOr => "||",
            Mark::Equal => "==",
            Mark::NotEqual => "!=",
            Mark::LessEqual => "<=",
            Mark::GreaterEqual => ">=",
        }
    }
}

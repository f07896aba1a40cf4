ghost use Rattle.std.specs.Prelude.{◌≡◌};
ghost use Rattle.nx_ctree.specs.Signs.{keyword_sign as sign_of_keyword, all_marks, mark_text as text_of_mark, mark_of as mark_named, mark_sign as sign_of_mark, sign_by as sign_of_kind, with_sign as signed_of};

use nx_ctok::{Keyword, Spelling, Token, TokenKind};

/// What a token is to the grammar: its kind, and for a keyword or a mark which one.
#[derive(Clone, Copy, Debug, PartialEq, Eq)]
pub enum Sign {
    Name,
    Number,
    Char,
    Text,
    End,
    /// A keyword or mark that is spelled as none is.
    Other,
    Static,
    Int,
    CharWord,
    Void,
    Const,
    If,
    Else,
    While,
    Do,
    For,
    Break,
    Continue,
    Return,
    SizeOf,
    /// `;`
    Semicolon,
    /// `,`
    Comma,
    /// `(`
    OpenParen,
    /// `)`
    CloseParen,
    /// `[`
    OpenBracket,
    /// `]`
    CloseBracket,
    /// `{`
    OpenBrace,
    /// `}`
    CloseBrace,
    /// `?`
    Question,
    /// `:`
    Colon,
    /// `=`
    Set,
    /// `+=`
    AddSet,
    /// `-=`
    SubtractSet,
    /// `*=`
    MultiplySet,
    /// `/=`
    DivideSet,
    /// `%=`
    RemainderSet,
    /// `||`
    OrMark,
    /// `&&`
    AndMark,
    /// `|`
    BitOr,
    /// `^`
    BitXor,
    /// `&`
    BitAnd,
    /// `==`
    Equal,
    /// `!=`
    NotEqual,
    /// `<`
    Less,
    /// `<=`
    AtMost,
    /// `>`
    Greater,
    /// `>=`
    AtLeast,
    /// `<<`
    ShiftLeft,
    /// `>>`
    ShiftRight,
    /// `+`
    Plus,
    /// `-`
    Minus,
    /// `*`
    Star,
    /// `/`
    Slash,
    /// `%`
    Percent,
    /// `!`
    Not,
    /// `~`
    Complement,
    /// `++`
    Increment,
    /// `--`
    Decrement,
}

static MARKS: [Sign; 38] = [
    Sign::Semicolon,
    Sign::Comma,
    Sign::OpenParen,
    Sign::CloseParen,
    Sign::OpenBracket,
    Sign::CloseBracket,
    Sign::OpenBrace,
    Sign::CloseBrace,
    Sign::Question,
    Sign::Colon,
    Sign::Set,
    Sign::AddSet,
    Sign::SubtractSet,
    Sign::MultiplySet,
    Sign::DivideSet,
    Sign::RemainderSet,
    Sign::OrMark,
    Sign::AndMark,
    Sign::BitOr,
    Sign::BitXor,
    Sign::BitAnd,
    Sign::Equal,
    Sign::NotEqual,
    Sign::Less,
    Sign::AtMost,
    Sign::Greater,
    Sign::AtLeast,
    Sign::ShiftLeft,
    Sign::ShiftRight,
    Sign::Plus,
    Sign::Minus,
    Sign::Star,
    Sign::Slash,
    Sign::Percent,
    Sign::Not,
    Sign::Complement,
    Sign::Increment,
    Sign::Decrement,
];

#[tactic(auto, unfolding(crate::specs::Signs::all_marks))]
fn marks() -> &'static [Sign]
    ensures { result.now ≡ all_marks }
{
    &MARKS
}

/// How a mark is spelled. Any other sign has no bytes here.
fn mark_text(sign: Sign) -> &'static [u8]
    ensures { result.now ≡ text_of_mark sign }
{
    match sign {
        Sign::Semicolon => b";",
        Sign::Comma => b",",
        Sign::OpenParen => b"(",
        Sign::CloseParen => b")",
        Sign::OpenBracket => b"[",
        Sign::CloseBracket => b"]",
        Sign::OpenBrace => b"{",
        Sign::CloseBrace => b"}",
        Sign::Question => b"?",
        Sign::Colon => b":",
        Sign::Set => b"=",
        Sign::AddSet => b"+=",
        Sign::SubtractSet => b"-=",
        Sign::MultiplySet => b"*=",
        Sign::DivideSet => b"/=",
        Sign::RemainderSet => b"%=",
        Sign::OrMark => b"||",
        Sign::AndMark => b"&&",
        Sign::BitOr => b"|",
        Sign::BitXor => b"^",
        Sign::BitAnd => b"&",
        Sign::Equal => b"==",
        Sign::NotEqual => b"!=",
        Sign::Less => b"<",
        Sign::AtMost => b"<=",
        Sign::Greater => b">",
        Sign::AtLeast => b">=",
        Sign::ShiftLeft => b"<<",
        Sign::ShiftRight => b">>",
        Sign::Plus => b"+",
        Sign::Minus => b"-",
        Sign::Star => b"*",
        Sign::Slash => b"/",
        Sign::Percent => b"%",
        Sign::Not => b"!",
        Sign::Complement => b"~",
        Sign::Increment => b"++",
        Sign::Decrement => b"--",
        _ => b"",
    }
}

/// The mark that these bytes spell, if they spell one.
fn mark_of(bytes: &[u8]) -> Option<Sign>
    ensures { result ≡ mark_named bytes.now }
{
    for mark in marks() {
        if bytes == mark_text(*mark) {
            return Some(*mark);
        }
    }
    None
}

fn mark_sign(mark: Option<Sign>) -> Sign
    ensures { result ≡ sign_of_mark mark }
{
    match mark {
        Some(sign) => sign,
        None => Sign::Other,
    }
}

fn keyword_sign(keyword: Option<Keyword>) -> Sign
    ensures { result ≡ sign_of_keyword keyword }
{
    match keyword {
        None => Sign::Other,
        Some(Keyword::Static) => Sign::Static,
        Some(Keyword::Int) => Sign::Int,
        Some(Keyword::Char) => Sign::CharWord,
        Some(Keyword::Void) => Sign::Void,
        Some(Keyword::Const) => Sign::Const,
        Some(Keyword::If) => Sign::If,
        Some(Keyword::Else) => Sign::Else,
        Some(Keyword::While) => Sign::While,
        Some(Keyword::Do) => Sign::Do,
        Some(Keyword::For) => Sign::For,
        Some(Keyword::Break) => Sign::Break,
        Some(Keyword::Continue) => Sign::Continue,
        Some(Keyword::Return) => Sign::Return,
        Some(Keyword::Sizeof) => Sign::SizeOf,
    }
}

fn sign_of(kind: TokenKind, text: &[u8]) -> Sign
    ensures { result ≡ sign_of_kind kind text.now }
{
    match kind {
        TokenKind::Name => Sign::Name,
        TokenKind::Keyword => keyword_sign(Keyword::named(text)),
        TokenKind::Number => Sign::Number,
        TokenKind::Char => Sign::Char,
        TokenKind::Text => Sign::Text,
        TokenKind::Mark => mark_sign(mark_of(text)),
        TokenKind::End => Sign::End,
    }
}

/// A token as the grammar sees it.
#[derive(Debug, Drop)]
pub struct Signed<'a> {
    /// Its sign in the grammar.
    pub sign: Sign,
    /// How it is spelled.
    pub text: Spelling<'a>,
    /// Its line, counted from 1.
    pub line: u32,
}

/// A token as the grammar sees it.
pub fn with_sign<'a>(token: &Token<'a>) -> Signed<'a>
    ensures { result ≡ signed_of token.now }
{
    Signed {
        sign: sign_of(token.kind, token.text.bytes()),
        text: Spelling::new(token.text.bytes()),
        line: token.line,
    }
}

ghost use Rattle.std.specs.Prelude.{◌≡◌};
ghost use Rattle.nx_ctok.specs.Spellings.{all_keywords, keyword_text, keyword_of};

/// A word that is no name (C11 section 6.4.1), as far as this C has it.
#[derive(Clone, Copy, Debug, PartialEq, Eq)]
pub enum Keyword {
    Static,
    Int,
    Char,
    Void,
    Const,
    If,
    Else,
    While,
    Do,
    For,
    Break,
    Continue,
    Return,
    Sizeof,
}

static KEYWORDS: [Keyword; 14] = [
    Keyword::Static,
    Keyword::Int,
    Keyword::Char,
    Keyword::Void,
    Keyword::Const,
    Keyword::If,
    Keyword::Else,
    Keyword::While,
    Keyword::Do,
    Keyword::For,
    Keyword::Break,
    Keyword::Continue,
    Keyword::Return,
    Keyword::Sizeof,
];

impl Keyword {
    #[tactic(auto, unfolding(crate::specs::Spellings::all_keywords))]
    fn all() -> &'static [Keyword]
        ensures { result.now ≡ all_keywords }
    {
        &KEYWORDS
    }

    /// How it is spelled.
    pub fn text(self) -> &'static [u8]
        ensures { result.now ≡ keyword_text self }
    {
        match self {
            Keyword::Static => b"static",
            Keyword::Int => b"int",
            Keyword::Char => b"char",
            Keyword::Void => b"void",
            Keyword::Const => b"const",
            Keyword::If => b"if",
            Keyword::Else => b"else",
            Keyword::While => b"while",
            Keyword::Do => b"do",
            Keyword::For => b"for",
            Keyword::Break => b"break",
            Keyword::Continue => b"continue",
            Keyword::Return => b"return",
            Keyword::Sizeof => b"sizeof",
        }
    }

    /// The keyword that these bytes spell, if they spell one.
    pub fn named(bytes: &[u8]) -> Option<Keyword>
        ensures { result ≡ keyword_of bytes.now }
    {
        for keyword in Keyword::all() {
            if bytes == keyword.text() {
                return Some(*keyword);
            }
        }
        None
    }
}

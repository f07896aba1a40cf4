use crate::TokenKind;
use crate::token::Spelling;

/// What a defined name stands for: a number or a character, perhaps after a minus sign.
#[derive(Debug, Drop)]
pub struct Value<'a> {
    /// Whether a minus sign stands before it.
    pub minus: bool,
    /// A number or a character.
    pub kind: TokenKind,
    /// Its bytes, without the minus sign.
    pub text: Spelling<'a>,
}

/// A name and what it stands for.
#[derive(Debug, Drop)]
pub struct Definition<'a> {
    /// The name that is replaced.
    pub name: Spelling<'a>,
    /// What replaces it.
    pub value: Value<'a>,
}

ghost use Rattle.std.specs.Prelude.{◌≡◌};
ghost use Rattle.nx_ctok.specs.Spellings.{is_single_mark as is_a_single_mark, is_double_mark as is_a_double_mark};

/// Whether a byte is a mark.
#[tactic(auto, unfolding(crate::specs::Spellings::is_single_mark))]
pub(crate) fn is_single_mark(byte: u8) -> bool
    ensures { result ≡ is_a_single_mark byte }
{
    matches!(
        byte,
        b';' | b'='
            | b'['
            | b']'
            | b'('
            | b')'
            | b'{'
            | b'}'
            | b','
            | b'-'
            | b'*'
            | b'?'
            | b':'
            | b'+'
            | b'/'
            | b'%'
            | b'!'
            | b'~'
            | b'|'
            | b'^'
            | b'&'
            | b'<'
            | b'>'
    )
}

/// Whether two bytes are one mark.
#[tactic(auto, unfolding(crate::specs::Spellings::is_double_mark))]
pub(crate) fn is_double_mark(first: u8, second: u8) -> bool
    ensures { result ≡ is_a_double_mark first second }
{
    matches!(
        (first, second),
        (
            b'+' | b'-' | b'*' | b'/' | b'%' | b'=' | b'!' | b'<' | b'>',
            b'='
        ) | (b'|', b'|')
            | (b'&', b'&')
            | (b'<', b'<')
            | (b'>', b'>')
            | (b'+', b'+')
            | (b'-', b'-')
    )
}

ghost use Rattle.std.specs.Prelude.{◌≡◌, ◌↔◌, length, IsSome, IfSome, Ok};
ghost use Rattle.std.specs.List.{AllPass};
ghost use Rattle.std.specs.Int.{w32, to_be_bytes};
ghost use Rattle.hex.specs.Hex.{decode_of, is_hex_digit};

use hex::FromHex;

/// The word of eight hexadecimal digits, in either case, the highest first.
pub fn parse_word(text: &str) -> Option<u32>
    ensures value { IfSome result (λ word. decode_of text.now ≡ Ok (to_be_bytes w32 word)) }
    ensures found { IsSome result ↔ ((length text.now ≡ 8) × AllPass is_hex_digit text.now) }
{
    let bytes = <[u8; 4] as FromHex>::from_hex(text).ok()?;
    Some(u32::from_be_bytes(bytes))
}

ghost use Rattle.std.specs.Prelude.{◌≡◌, ◌<◌, ◌≤◌, ℕ, List, length, take, None, Some};
ghost use Rattle.nx_ctok.specs.Comments.{newlines};
ghost use Rattle.nx_ctok.specs.Longest.{word_at};
ghost use Rattle.nx_ctok.specs.Spellings.{kind_of};
ghost use Rattle.nx_ctok.specs.declared.token.TokenKind.{TokenKind as KindOf};
ghost use Rattle.nx_ctok.specs.declared.token.Word.{Word as WordOf};

/// No more bytes than those of the token at a place spell a token.
#[tactic(auto, using(crate::proofs::Longest::token_is_longest))]
pub fn a_token_is_the_longest()
    ensures { (bytes : List ℕ) (w : WordOf) → word_at bytes ≡ Some w → (n : ℕ) → length w.text < n → n ≤ length bytes → kind_of (take n bytes) ≡ None }
{}

/// Where no token is at a place, no bytes there spell one.
#[tactic(auto, using(crate::proofs::Longest::no_token_there))]
pub fn a_place_without_a_token_has_none()
    ensures { (bytes : List ℕ) → word_at bytes ≡ None → (n : ℕ) → n ≤ length bytes → kind_of (take n bytes) ≡ None }
{}

/// A token stands on one line.
#[tactic(auto, using(crate::proofs::Words::spelled_on_a_line))]
pub fn a_token_has_no_newline()
    ensures { (text : List ℕ) (k : KindOf) → kind_of text ≡ Some k → newlines text ≡ 0 }
{}

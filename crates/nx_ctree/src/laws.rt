ghost use Rattle.std.specs.Prelude.{◌≡◌, ℕ, List, Some};
ghost use Rattle.nx_ctok.specs.Spellings.{kind_of};
ghost use Rattle.nx_ctok.specs.declared.token.TokenKind.{TokenKind};
ghost use Rattle.nx_ctree.specs.Signs.{sign_by};
ghost use Rattle.nx_ctree.specs.declared.sign.Sign.TheVariants.{Other};

/// Each token that is spelled as its kind is has a sign: the tables of marks and keywords lack none.
#[tactic(auto, using(crate::proofs::Signs::token_signed))]
pub fn a_token_has_its_sign()
    ensures { (text : List ℕ) (k : TokenKind) → kind_of text ≡ Some k → sign_by k text ≡ Other → ⊥ }
{}

ghost use Rattle.std.specs.Prelude.{◌≡◌, ℕ, List, ◌∷◌, Err};
ghost use Rattle.nx_grammar.specs.declared.kind.Kind.{Kind};
ghost use Rattle.nx_grammar.specs.Reading.{Out};
ghost use Rattle.nx_grammar.specs.Faults.{Reads, IsFault, EndsIn};
ghost use Rattle.nx_grammar.specs.Sparing.{Spares};

/// A grammar with a limit and a reading of it.
pub trait Grammar {
    type Token;

    type Tree;

    /// What is read within a limit.
    ghost reading: { ℕ → List Self.Token → Out Self.Token Self.Tree };

    /// Which tokens have which tree within a limit.
    ghost has: { ℕ → List Self.Token → Self.Tree → Type 0 };

    /// The tokens that a whole list may have after it.
    ghost follows: { Self.Token → Type 0 };

    /// The tokens that the shortest whole list begins with.
    ghost begins: { Self.Token → Type 0 };

    /// The token that ends each list.
    ghost last: { Self.Token };

    /// By how much a limit has to be wider to take what the limit alone refused.
    ghost margin: { ℕ };
}

/// A fault stands at the first token that ends no beginning of a list with a tree, and its kind says whether a wider limit has one.
pub fn fault_is_first<G: Grammar>()
    ensures { Reads G.reading G.has G.follows G.begins G.last G.margin → (limit : ℕ) (ts : List G.Token) (kind : Kind) (token : G.Token) (more : List G.Token) → G.reading limit ts ≡ Err (kind, token ∷ more) → IsFault G.has limit ts kind (token ∷ more) }
{}

/// Tokens have at most one tree.
pub fn one_tree<G: Grammar>()
    ensures { Reads G.reading G.has G.follows G.begins G.last G.margin → (limit : ℕ) (ts : List G.Token) (one two : G.Tree) → G.has limit ts one → G.has limit ts two → one ≡ two }
{}

/// Where the reading takes no last token, each fault of a list that ends in one has a token, and stands where the grammar has it.
pub fn ended_fault_is_first<G: Grammar>()
    ensures { Reads G.reading G.has G.follows G.begins G.last G.margin → ((limit : ℕ) → Spares G.follows (G.reading limit)) → (limit : ℕ) (ts : List G.Token) (kind : Kind) (rest : List G.Token) → EndsIn G.follows ts → G.reading limit ts ≡ Err (kind, rest) → IsFault G.has limit ts kind rest }
{}

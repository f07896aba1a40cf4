ghost use Rattle.std.specs.Prelude.{◌≡◌, List, Option, ℕ};
ghost use Rattle.nx_conditions.specs.declared.meaning.Meaning.{Meaning};

/// What a name means in a condition.
#[derive(Clone, Copy, Debug, PartialEq, Eq)]
pub enum Meaning {
    /// `y`.
    Yes,
    /// A number.
    Number(i128),
    /// Any other value.
    Other,
}

/// The names that have a value, and their meanings.
pub trait Meanings {
    ghost meaning: { Self → List ℕ → Option Meaning };

    /// What a name means, where it has a value.
    fn meaning(&self, name: &[u8]) -> Option<Meaning>
        ensures { result ≡ meaning self.now name.now };
}

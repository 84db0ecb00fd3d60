//! The predicates that take a matcher, and how each matches by default.
ghost use Rattle.std.specs.Prelude.{◌≡◌};
ghost use Rattle.filterset_grammar.specs.Grammar.{own_matching};

/// A predicate that takes a matcher.
#[derive(Clone, Copy, Debug, PartialEq, Eq)]
pub enum Predicate {
    Package,
    Deps,
    Rdeps,
    Kind,
    Binary,
    BinaryId,
    Test,
    Group,
}

/// The way in which a matcher compares its text with a name. Regular expressions have none.
#[derive(Clone, Copy, Debug, PartialEq, Eq)]
pub enum TextMatching {
    Equal,
    Contains,
    Glob,
}

impl Predicate {
    /// Returns how the predicate matches if its matcher has no sign: `kind` by equality, `test` by containment, and all
    /// others by a glob.
    pub fn own_matching(self) -> TextMatching
        ensures { result ≡ own_matching self }
    {
        match self {
            Predicate::Kind => TextMatching::Equal,
            Predicate::Test => TextMatching::Contains,
            Predicate::Package
            | Predicate::Deps
            | Predicate::Rdeps
            | Predicate::Binary
            | Predicate::BinaryId
            | Predicate::Group => TextMatching::Glob,
        }
    }
}

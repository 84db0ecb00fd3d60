//! Contracts for derived `==`, which has none.
ghost use Rattle.std.specs.Prelude.{◌≡◌};
ghost use Rattle.filterset_expression.specs.Equality.{same_test_query};
ghost use Rattle.nextest_filtering.specs.Equality.{same_filterset};

use nextest_filtering::{Filterset, TestQuery};

/// Compares filtersets by `==`.
pub fn filtersets_agree(one: &Filterset, other: &Filterset) -> bool
    ensures { result ≡ same_filterset one.now other.now }
{
    one == other
}

/// Compares queries by `==`.
pub fn questions_agree(one: &TestQuery<'_>, other: &TestQuery<'_>) -> bool
    ensures { result ≡ same_test_query one.now other.now }
{
    *one == *other
}

//! Laws of the language and of the meaning of filtersets. Each law is the contract of a function that does nothing.
ghost use Rattle.std.specs.Prelude.{ℕ, List};
ghost use Rattle.filterset_faults.specs.declared.kind.FiltersetKind.{FiltersetKind};
ghost use Rattle.filterset_graph.specs.declared.package.PackageMetadata.{PackageMetadata};
ghost use Rattle.filterset_language.specs.Views.{tree_of};
ghost use Rattle.nextest_filtering.specs.{Compiling.IsFiltersetOf, Formatting.PrintsFilterset};
ghost use Rattle.nextest_filtering.specs.declared.compile.context.KnownGroups.{KnownGroups};

pub use filterset_expression::laws::{
    added_parens_change_nothing, difference_is_and_not, parens_change_nothing,
    skipping_loses_no_test, symmetric_difference_is_commutative,
    symmetric_difference_is_two_differences,
};
use filterset_language::ParsedExpr;
pub use filterset_language::laws::{
    one_tree, one_tree_with_parens, printed_apart, printed_reads_back, spelled_is_well_formed,
};

/// Proves that the printed tree of a filterset is a filterset of the same kind, over the same packages and groups, with the
/// same tree, spans aside. So [`Filterset::parse`](crate::Filterset::parse) accepts what its own trees print.
pub fn printed_is_a_filterset(expr: &ParsedExpr)
    ensures { let e = tree_of expr.now in
        (text : List ℕ) (kind : FiltersetKind) (packages : List PackageMetadata) (groups : KnownGroups)
        → IsFiltersetOf text kind packages groups e → PrintsFilterset kind packages groups e }
{
    spelled_is_well_formed();
    printed_reads_back(expr);
}

//! Laws of the meaning of filtersets. Each law is the contract of a function that does nothing.
ghost use Rattle.std.specs.Prelude.{◌≡◌, ◌↔◌, Bool, false, IsTrue, List};
ghost use Rattle.filterset_faults.specs.declared.span.SourceSpan.{SourceSpan};
ghost use Rattle.filterset_graph.specs.declared.package.PackageMetadata.{PackageMetadata};
ghost use Rattle.filterset_grammar.specs.AddedParens.{IsWithParens};
ghost use Rattle.filterset_grammar.specs.Tree.{Tree, Join, Not, Parens, Union};
ghost use Rattle.filterset_grammar.specs.declared.operators.AndOperator.{AndOperator};
ghost use Rattle.filterset_grammar.specs.declared.operators.DifferenceOperator.{DifferenceOperator};
ghost use Rattle.filterset_grammar.specs.declared.operators.Joiner.TheVariants.{Both, Without, ExactlyOne};
ghost use Rattle.filterset_grammar.specs.declared.operators.{NotOperator.NotOperator, OrOperator.OrOperator};
ghost use Rattle.filterset_grammar.specs.declared.operators.SymmetricDifferenceOperator.{SymmetricDifferenceOperator};
ghost use Rattle.filterset_matchers.specs.Matcher.{Matcher};
ghost use Rattle.filterset_expression.specs.BinaryMeaning.{is_either_of_test, EitherOfBinary, tree_with_default, IsDefiniteTree, PossibleOfTree};
ghost use Rattle.filterset_expression.specs.Meaning.{tree_formula, IsCompiled, Meaning};
ghost use Rattle.filterset_expression.specs.{Values.TrueUnder, declared.expression.CompiledExpr.CompiledExpr};
ghost use Rattle.filterset_expression.specs.declared.query.{BinaryQuery.BinaryQuery, TestQuery.TestQuery};

use crate::GroupLookup;

/// Proves that `a - b` has the value of `a and not b` for each test and each binary, however the operators are spelled.
pub fn difference_is_and_not()
    ensures tests { (packages : List PackageMetadata) (test : TestQuery) (default : CompiledExpr)
        (lookup : TestQuery → Matcher → Bool) (minus : DifferenceOperator) (and : AndOperator) (not : NotOperator)
        (a b : Tree SourceSpan)
        → Meaning (Join (Without minus) a b) packages test default (λ t m. IsTrue (lookup t m))
        ↔ Meaning (Join (Both and) a (Not not b)) packages test default (λ t m. IsTrue (lookup t m)) }
    ensures binaries { (packages : List PackageMetadata) (binary : BinaryQuery) (default : CompiledExpr)
        (minus : DifferenceOperator) (and : AndOperator) (not : NotOperator) (a b : Tree SourceSpan) (value : Bool)
        → PossibleOfTree (Join (Without minus) a b) packages binary default value
        ↔ PossibleOfTree (Join (Both and) a (Not not b)) packages binary default value }
{}

/// Proves that `a ^ b` has the value of `(a - b) or (b - a)` for each test.
pub fn symmetric_difference_is_two_differences()
    ensures { (packages : List PackageMetadata) (test : TestQuery) (default : CompiledExpr)
        (lookup : TestQuery → Matcher → Bool) (caret : SymmetricDifferenceOperator) (or : OrOperator)
        (minus : DifferenceOperator) (a b : Tree SourceSpan)
        → Meaning (Join (ExactlyOne caret) a b) packages test default (λ t m. IsTrue (lookup t m))
        ↔ Meaning (Union or (Join (Without minus) a b) (Join (Without minus) b a)) packages test default
        (λ t m. IsTrue (lookup t m)) }
{}

/// Proves that `a ^ b` has the value of `b ^ a` for each test and each binary.
pub fn symmetric_difference_is_commutative()
    ensures tests { (packages : List PackageMetadata) (test : TestQuery) (default : CompiledExpr)
        (lookup : TestQuery → Matcher → Bool) (caret : SymmetricDifferenceOperator) (a b : Tree SourceSpan)
        → Meaning (Join (ExactlyOne caret) a b) packages test default (λ t m. IsTrue (lookup t m))
        ↔ Meaning (Join (ExactlyOne caret) b a) packages test default (λ t m. IsTrue (lookup t m)) }
    ensures binaries { (packages : List PackageMetadata) (binary : BinaryQuery) (default : CompiledExpr)
        (caret : SymmetricDifferenceOperator) (a b : Tree SourceSpan) (value : Bool)
        → PossibleOfTree (Join (ExactlyOne caret) a b) packages binary default value
        ↔ PossibleOfTree (Join (ExactlyOne caret) b a) packages binary default value }
{}

/// Proves that parentheses do not change the value for a test or a binary.
pub fn parens_change_nothing()
    ensures tests { (packages : List PackageMetadata) (test : TestQuery) (default : CompiledExpr)
        (lookup : TestQuery → Matcher → Bool) (e : Tree SourceSpan)
        → Meaning (Parens e) packages test default (λ t m. IsTrue (lookup t m))
        ↔ Meaning e packages test default (λ t m. IsTrue (lookup t m)) }
    ensures binaries { (packages : List PackageMetadata) (binary : BinaryQuery) (default : CompiledExpr)
        (e : Tree SourceSpan) (value : Bool)
        → PossibleOfTree (Parens e) packages binary default value
        ↔ PossibleOfTree e packages binary default value }
{}

/// Proves that parentheses added round operands that need them do not change a tree's formula, and so neither its value
/// for a test, nor its value for a binary under a list of answers, nor the values that are possible for a binary.
pub fn added_parens_change_nothing()
    ensures formula { (e d : Tree SourceSpan) → IsWithParens e d → tree_formula d ≡ tree_formula e }
    ensures tests { (packages : List PackageMetadata) (test : TestQuery) (default : CompiledExpr)
        (lookup : TestQuery → Matcher → Bool) (e d : Tree SourceSpan) → IsWithParens e d
        → Meaning d packages test default (λ t m. IsTrue (lookup t m))
        ↔ Meaning e packages test default (λ t m. IsTrue (lookup t m)) }
    ensures answers { (packages : List PackageMetadata) (binary : BinaryQuery) (default : CompiledExpr)
        (answers : List Bool) (e d : Tree SourceSpan) → IsWithParens e d
        → TrueUnder is_either_of_test (EitherOfBinary packages binary) (tree_with_default default d) answers
        ↔ TrueUnder is_either_of_test (EitherOfBinary packages binary) (tree_with_default default e) answers }
    ensures binaries { (packages : List PackageMetadata) (binary : BinaryQuery) (default : CompiledExpr)
        (value : Bool) (e d : Tree SourceSpan) → IsWithParens e d
        → PossibleOfTree d packages binary default value ↔ PossibleOfTree e packages binary default value }
{}

/// Proves that a binary may be skipped if `matches_binary` returns `Some(false)`: the filterset matches none of its tests,
/// whatever their names and groups are.
pub fn skipping_loses_no_test(groups: &dyn GroupLookup)
    ensures { (packages : List PackageMetadata) (e : Tree SourceSpan) (compiled default : CompiledExpr)
        (test : TestQuery) → IsCompiled packages e compiled
        → IsDefiniteTree e packages test.binary_query default false
        → ¬ Meaning e packages test default (matches_group groups.now) }
{}

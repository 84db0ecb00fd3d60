//! Filtersets: the input, its tree, and the compiled expression.
ghost use Rattle.std.specs.Prelude.{◌≡◌, ◌≢◌, ◌↔◌, Bool, false, List, Some, None, IfOk, IfErr, IsTrue, OnErr, codes, string_bytes};
ghost use Rattle.std.specs.Str.Iter.{HasSubslice};
ghost use Rattle.filterset_faults.specs.declared.kind.FiltersetKind.TheVariants as kinds;
ghost use Rattle.filterset_graph.specs.declared.package.PackageMetadata.{PackageMetadata};
ghost use Rattle.filterset_faults.specs.declared.span.SourceSpan.{SourceSpan};
ghost use Rattle.nextest_filtering.specs.Compiling.{packages_of, IsFiltersetOf, IsRefusalOf, IsRefusalOfBodies, IsRefusalOfTree, IsStopOf};
ghost use Rattle.nextest_filtering.specs.{Groups.IsKnown, NeedsDeps.HasDeps, Refusals.IsTrueOf};
ghost use Rattle.filterset_expression.specs.Contexts.{default_of};
ghost use Rattle.filterset_expression.specs.Expression.{formula, has_leaf, is_default, is_group, no_groups, Holds, IsDefinite, IsUndecided};
ghost use Rattle.filterset_expression.specs.Meaning.{has_tree_leaf, is_default_predicate, is_group_predicate, IsCompiled, Meaning, SaysTheSame};
ghost use Rattle.filterset_expression.specs.BinaryMeaning.{IsDefiniteTree, IsUndecidedTree, TellsTheSame};
ghost use Rattle.filterset_grammar.specs.{Grammar.Spells, Tree.Tree};
ghost use Rattle.filterset_language.specs.Views.{tree_of};

use crate::compile::{KnownGroups, ParseContext, compile};
use filterset_expression::{BinaryQuery, CompiledExpr, EvalContext, GroupLookup, TestQuery};
use filterset_faults::{FiltersetKind, FiltersetParseErrors};
use filterset_language::{ParseStop, Parsed, ParsedExpr};
use std::alloc::{AllocError, Global};

/// A filterset that was parsed and compiled.
#[derive(Debug, Drop, PartialEq, Eq)]
pub struct Filterset {
    /// The input.
    pub input: String,
    /// The tree that the input spells.
    pub parsed: ParsedExpr,
    /// The compiled tree.
    pub compiled: CompiledExpr,
}

/// Why an input was rejected. Both variants return the input.
#[derive(Debug, Drop)]
pub enum ParseRefusal {
    /// The input has faults.
    Faults(FiltersetParseErrors),
    /// The parser ran out of memory, which says nothing about the input.
    OutOfMemory { input: String },
}

impl ParseRefusal {
    ghost use Rattle.nextest_filtering.specs.Refusals.{IsOutOfMemory};
    ghost use Rattle.nextest_filtering.specs.declared.filterset.ParseRefusal.TheVariants as refusals;

    /// Returns the input and its faults. It is an error only if the parser ran out of memory.
    pub fn into_faults(self) -> Result<FiltersetParseErrors, AllocError>
        ensures faults { IfOk result (λ refused. self ≡ refusals.Faults refused) }
        ensures memory { OnErr result (IsOutOfMemory self) }
    {
        match self {
            ParseRefusal::Faults(refused) => Ok(refused),
            ParseRefusal::OutOfMemory { .. } => Err(AllocError),
        }
    }
}

/// Parses and compiles `text`.
fn read(
    alloc: Global,
    text: &str,
    cx: &ParseContext<'_>,
    kind: FiltersetKind,
    known_groups: &KnownGroups,
) -> Result<(ParsedExpr, CompiledExpr), ParseStop>
    ensures accepted { IfOk result (λ made.
        IsFiltersetOf text.now kind (packages_of cx.now) known_groups.now (tree_of made.0)) }
    ensures compiled { IfOk result (λ made. IsCompiled (packages_of cx.now) (tree_of made.0) made.1) }
    ensures refused { IfErr result (IsStopOf text.now kind (packages_of cx.now) known_groups.now) }
{
    let Parsed { tree, faults } = ParsedExpr::parse_with_faults(alloc, text)?;
    let parsed = match tree {
        Some(parsed) if faults.is_empty() => parsed,
        _ => return Err(ParseStop::Faults(faults)),
    };
    let compiled = compile(alloc, cx, kind, known_groups, &parsed)?;
    Ok((parsed, compiled))
}

impl Filterset {
    /// Parses and compiles a filterset.
    ///
    /// The input is valid if the grammar spells it, the grammar of `regex` reads each of its patterns, no predicate is
    /// banned from filtersets of this kind, and each predicate that names packages, test binaries or groups matches one:
    ///
    /// - `package`, `deps` and `rdeps` match the name of a package of the workspace;
    /// - `binary` matches the name, and `binary_id` the id, of a test binary of the workspace;
    /// - `group` matches the name of a known group; `@global` is always known.
    ///
    /// It accepts exactly the valid inputs, with one exception: `regex` may find a pattern too large that is neither plain
    /// nor small ([`PatternRegex::new`](crate::PatternRegex::new) says what that is), and then each fault lies on the body
    /// of such a pattern.
    ///
    /// A refusal returns the input. If the input could be parsed, the faults are those of its banned predicates, or, if it
    /// has none, those of its unmatched ones, from left to right, with the spans of their arguments.
    ///
    /// For kind `Test` the groups must be known. All other kinds ban `group`.
    pub fn parse(
        alloc: Global,
        input: String,
        cx: &ParseContext<'_>,
        kind: FiltersetKind,
        known_groups: &KnownGroups,
    ) -> Result<Filterset, ParseRefusal>
        requires known { kind ≡ kinds.Test → IsKnown known_groups.now }

        // The result has the input, a tree that makes it a filterset of this kind, and the compiled tree.
        ensures input { IfOk result (λ made. made.input ≡ input) }
        ensures accepted { IfOk result (λ made. IsFiltersetOf (string_bytes input) kind (packages_of cx.now)
            known_groups.now (tree_of made.parsed)) }
        ensures compiled { IfOk result (λ made. IsCompiled (packages_of cx.now) (tree_of made.parsed) made.compiled) }

        // So the compiled expression means what the tree means for each test and each binary, and has the same leaves.
        ensures meaning { IfOk result (λ made. SaysTheSame (packages_of cx.now) (tree_of made.parsed) made.compiled) }
        ensures binaries { IfOk result (λ made.
            TellsTheSame (packages_of cx.now) (tree_of made.parsed) made.compiled) }
        ensures defaults { IfOk result (λ made.
            has_leaf is_default made.compiled ≡ has_tree_leaf is_default_predicate (tree_of made.parsed)) }
        ensures groups { IfOk result (λ made.
            has_leaf is_group made.compiled ≡ has_tree_leaf is_group_predicate (tree_of made.parsed)) }

        // A default filter has no `default` leaf, and only a filterset of kind `Test` may have a `group` leaf. So an
        // `EvalContext` may take each default filter.
        ensures no_default { kind ≡ kinds.DefaultFilter →
            IfOk result (λ made. has_leaf is_default made.compiled ≡ false) }
        ensures no_group { kind ≢ kinds.Test → IfOk result (λ made. has_leaf is_group made.compiled ≡ false) }

        // The faults of a refusal are the parser's, or those of banned predicates, or those of unmatched ones.
        ensures refused { IfErr result (IsRefusalOf input kind (packages_of cx.now) known_groups.now) }

        // Each of them is true of the input, and its span lies within the input.
        ensures stand { IfErr result (IsTrueOf (string_bytes input)) }

        // An input that spells a tree is rejected only for the bodies of its regular expressions, its banned predicates,
        // its unmatched ones, or lack of memory.
        ensures spelled { (e : Tree SourceSpan) → Spells (string_bytes input) e
            → IfErr result (IsRefusalOfTree (string_bytes input) kind (packages_of cx.now) known_groups.now e) }

        // A valid input is rejected only for lack of memory, or for the bodies of regular expressions that may be too large.
        ensures complete { (e : Tree SourceSpan)
            → IsFiltersetOf (string_bytes input) kind (packages_of cx.now) known_groups.now e
            → IfErr result (IsRefusalOfBodies (string_bytes input) e) }
    {
        match read(alloc, input.as_str(), cx, kind, known_groups) {
            Ok((parsed, compiled)) => Ok(Filterset {
                input,
                parsed,
                compiled,
            }),
            Err(ParseStop::Faults(errors)) => {
                Err(ParseRefusal::Faults(FiltersetParseErrors { input, errors }))
            }
            Err(ParseStop::OutOfMemory(_)) => Err(ParseRefusal::OutOfMemory { input }),
        }
    }

    /// Evaluates the filterset for a binary, as [`CompiledExpr::matches_binary`] does: `Some(true)` if it matches every test
    /// of the binary, `Some(false)` if it matches none, and `None` if that depends on names or groups of tests. The only
    /// error is out of memory.
    pub fn matches_binary(
        &self,
        alloc: Global,
        query: &BinaryQuery<'_>,
        cx: &EvalContext<'_>,
    ) -> Result<Option<bool>, AllocError>
        ensures definite { IfOk result (λ answer. (b : Bool)
            → (answer ≡ Some b) ↔ IsDefinite self.now.compiled query.now (default_of cx.now) b) }
        ensures undecided { IfOk result (λ answer.
            (answer ≡ None) ↔ IsUndecided self.now.compiled query.now (default_of cx.now)) }

        // If the expression is the compiled tree, the answer is the tree's for the binary.
        ensures meaning { let e = tree_of self.now.parsed in
            IfOk result (λ answer. (packages : List PackageMetadata) → IsCompiled packages e self.now.compiled
            → (b : Bool) → (answer ≡ Some b) ↔ IsDefiniteTree e packages query.now (default_of cx.now) b) }
        ensures unknown { let e = tree_of self.now.parsed in
            IfOk result (λ answer. (packages : List PackageMetadata) → IsCompiled packages e self.now.compiled
            → (answer ≡ None) ↔ IsUndecidedTree e packages query.now (default_of cx.now)) }
    {
        self.compiled.matches_binary(alloc, query, cx)
    }

    /// Returns whether the filterset matches the test. The context's default filter replaces each `default()`.
    ///
    /// The filterset must have no `group(..)`, which [`CompiledExpr::has_group_matchers`] of `compiled` tests. The only
    /// error is out of memory.
    pub fn matches_test(
        &self,
        alloc: Global,
        query: &TestQuery<'_>,
        cx: &EvalContext<'_>,
    ) -> Result<bool, AllocError>
        requires { has_leaf is_group self.now.compiled ≡ false }
        ensures holds { IfOk result (λ answer.
            IsTrue answer ↔ Holds self.now.compiled query.now (default_of cx.now) no_groups) }

        // If the test's binary decides the filterset, that is the answer.
        ensures settled { IfOk result (λ answer. (b : Bool)
            → IsDefinite self.now.compiled query.now.binary_query (default_of cx.now) b → answer ≡ b) }

        // If the expression is the compiled tree, the answer is the tree's meaning.
        ensures meaning { let e = tree_of self.now.parsed in
            IfOk result (λ answer. (packages : List PackageMetadata) → IsCompiled packages e self.now.compiled
            → IsTrue answer ↔ Meaning e packages query.now (default_of cx.now) no_groups) }
    {
        self.compiled.matches_test(alloc, query, cx)
    }

    /// Returns whether the filterset matches the test; the lookup answers each `group(..)`. The context's default filter
    /// replaces each `default()`. The only error is out of memory, here or in the lookup.
    pub fn matches_test_with_groups(
        &self,
        alloc: Global,
        query: &TestQuery<'_>,
        cx: &EvalContext<'_>,
        groups: &dyn GroupLookup,
    ) -> Result<bool, AllocError>
        ensures holds { IfOk result (λ answer.
            IsTrue answer ↔ Holds self.now.compiled query.now (default_of cx.now) (matches_group groups.now)) }

        // If the test's binary decides the filterset, that is the answer. Without `group(..)` every lookup gives the same
        // answer.
        ensures settled { IfOk result (λ answer. (b : Bool)
            → IsDefinite self.now.compiled query.now.binary_query (default_of cx.now) b → answer ≡ b) }
        ensures ungrouped { has_leaf is_group self.now.compiled ≡ false → IfOk result (λ answer.
            IsTrue answer ↔ Holds self.now.compiled query.now (default_of cx.now) no_groups) }

        // If the expression is the compiled tree, the answer is the tree's meaning.
        ensures meaning { let e = tree_of self.now.parsed in
            IfOk result (λ answer. (packages : List PackageMetadata) → IsCompiled packages e self.now.compiled
            → IsTrue answer ↔ Meaning e packages query.now (default_of cx.now) (matches_group groups.now)) }
    {
        self.compiled
            .matches_test_with_groups(alloc, query, cx, groups)
    }

    /// Returns whether the text contains `deps`. If it does not, it has no `deps(..)` and no `rdeps(..)`.
    #[tactic(auto, using(std::proofs::lemmas::Str::Pattern::contains_text))]
    pub fn needs_deps(raw_expr: &str) -> bool
        ensures stands { IsTrue result ↔ HasSubslice raw_expr.now (codes "deps") }
        // So it returns true for each text whose tree has a `deps` or an `rdeps`.
        ensures named { (e : Tree SourceSpan) → Spells raw_expr.now e → HasDeps e → IsTrue result }
    {
        raw_expr.contains("deps")
    }

    /// Copies the filterset. The only error is out of memory.
    pub fn try_clone(&self, alloc: Global) -> Result<Filterset, AllocError>
        ensures input { IfOk result (λ copy. string_bytes copy.input ≡ string_bytes self.now.input) }
        ensures parsed { IfOk result (λ copy. tree_of copy.parsed ≡ tree_of self.now.parsed) }
        ensures compiled { IfOk result (λ copy. formula copy.compiled ≡ formula self.now.compiled) }
    {
        Ok(Filterset {
            input: String::from_str(alloc, self.input.as_str())?,
            parsed: self.parsed.try_clone(alloc)?,
            compiled: self.compiled.try_clone(alloc)?,
        })
    }
}

//! The public root: parses and compiles filtersets, and exports the public types of the crates below. A text and what is
//! known of the workspace go in; a filterset or its faults come out. For test runners, and for all crates that compile.
#![tactic(auto)]

mod compile;
mod filterset;
pub mod laws;

pub use compile::{KnownGroups, ParseContext};
pub use filterset::{Filterset, ParseRefusal};
pub use filterset_expression::{
    BinaryQuery, CompiledExpr, EvalContext, FiltersetLeaf, FlatExpr, FlatStep, GroupLookup, Logic,
    TestQuery,
};
pub use filterset_faults as errors;
pub use filterset_faults::{
    BannedPredicateReason, FiltersetKind, FiltersetParseErrors, GlobConstructError, Help, Label,
    ParseSingleError, SourceSpan,
};
pub use filterset_glob::{GenericGlob, GlobBranch, GlobRefusal, GlobToken, Steps};
pub use filterset_graph::{
    BuildPlatform, BuildTarget, BuildTargetId, DependsRefusal, GLOBAL_TEST_GROUP, GraphRefusal,
    PackageGraph, PackageId, PackageMetadata, RustBinaryId, RustTestBinaryKind, TestCaseName,
};
pub use filterset_language::{
    AndOperator, DifferenceOperator, FILTERSET_REFERENCE_MD, NotOperator, OrOperator, ParseStop,
    Parsed, ParsedExpr, ParsedLeaf, SymmetricDifferenceOperator,
};
pub use filterset_matchers::{
    GlobMatcher, NameMatcher, PatternMatcher, PatternRefusal, PatternRegex,
};

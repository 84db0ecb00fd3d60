//! Copies of filtersets, of faults, and of what they hold; calls on trees; and deep filtersets, whose copies do not overflow
//! the stack.
use crate::tests::support::parse;
use nextest_filtering::{
    CompiledExpr, EvalContext, Filterset, FlatExpr, FlatStep, ParseSingleError, ParseStop,
    ParsedExpr, SourceSpan,
};
use std::alloc::AllocError;
use std::process::Abort;
use std::test::Fail;

/// Copies a filterset that needs no more parentheses and has so many predicates, and so many that depend on the run.
fn copy_filterset(
    rt: &(impl AllocGlobal + Abort),
    filterset: &Filterset,
    leaves: usize,
    runtime_only: usize,
) -> Result<(), AllocError> {
    let (alloc, tree, expr) = (rt.alloc(), &filterset.parsed, &filterset.compiled);
    assert!(rt; filterset.try_clone(alloc)? == *filterset);
    assert!(rt; tree.try_clone(alloc)? == *tree);
    assert!(rt; tree.with_parens(alloc)? == *tree);
    assert!(rt; expr.try_clone(alloc)? == *expr);
    assert_eq!(rt; tree.leaves_where(alloc, |_| true)?.len(), leaves);
    assert_eq!(rt; tree.runtime_only_leaves(alloc)?.len(), runtime_only);
    Ok(())
}

/// Copies each predicate of a filterset.
fn copy_leaves(rt: &(impl AllocGlobal + Abort), filterset: &Filterset) -> Result<(), AllocError> {
    let alloc = rt.alloc();
    let default = CompiledExpr::ALL;
    let flat = FlatExpr::new(alloc, &filterset.compiled, &EvalContext::new(&default))?;
    for leaf in &filterset.parsed.leaves_where(alloc, |_| true)? {
        assert!(rt; leaf.try_clone(alloc)? == **leaf);
    }
    for step in flat.steps() {
        if let FlatStep::Leaf(leaf) = step {
            assert!(rt; leaf.try_clone(alloc)? == **leaf);
        }
    }
    Ok(())
}

/// Parses a text without a tree, and copies its faults.
fn copy_faults(
    rt: &(impl AllocGlobal + Abort),
    text: &str,
    faults: &[ParseSingleError],
) -> Result<(), AllocError> {
    let alloc = rt.alloc();
    match ParsedExpr::parse(alloc, text) {
        Ok(_) => panic!(rt; "{text} has a tree"),
        Err(ParseStop::Faults(found)) => assert!(rt; found.as_slice() == faults),
        Err(ParseStop::OutOfMemory(error)) => return Err(error),
    }
    let Err(refused) = parse(rt, text)? else {
        panic!(rt; "{text} has faults");
    };
    for fault in &refused.errors {
        assert!(rt; fault.try_clone(alloc)? == *fault);
    }
    let copy = refused.try_clone(alloc)?;
    assert!(rt; copy.input == refused.input && copy.errors.as_slice() == faults);
    Ok(())
}

/// A text with each predicate, each matcher and each operator.
const WHOLE: &str =
    r"not package(\u{62}) and deps(=c) - !rdeps(~b) & (kind(bin) | binary(#a*) or binary_id(/a|g\/h/)) + platform( host ) - test(\n) | group(@global) ^ default() or all() + none()";

/// Copies a filterset, its predicates, and faults.
pub fn copy(rt: &(impl AllocGlobal + Abort)) -> Result<(), AllocError> {
    let Ok(filterset) = parse(rt, WHOLE)? else {
        panic!(rt; "it has no faults");
    };
    copy_filterset(rt, &filterset, 12, 3)?;
    copy_leaves(rt, &filterset)?;
    let faults = [
        ParseSingleError::ExpectedOpenParenthesis(SourceSpan::new(3, 0)),
        ParseSingleError::ExpectedCloseRegex(SourceSpan::new(19, 0)),
    ];
    copy_faults(rt, "all) + package(/not) - deps(expr none)", &faults)
}

#[test]
fn copies_or_wants_memory(rt: HostRuntime) {
    let _ = copy(&rt);
}

/// Texts that nest so deep: what opens a level, the middle, and what closes it. The predicates, and those that depend on the
/// run.
static DEEP: [(usize, &str, &str, &str, usize, usize); 5] = [
    (19_999, "", "all()", " and test(a)", 20_000, 19_999),
    (19_999, "", "all()", " - none()", 20_000, 0),
    (10_000, "not ", "none()", "", 1, 0),
    (4_000, "(", "all()", ")", 1, 0),
    (3_000, "all() and (", "test(b)", ")", 3_001, 1),
];

#[test]
fn deep_filtersets_are_copied(rt: HostRuntime) -> Result<(), Fail> {
    for (depth, opening, middle, closing, leaves, runtime_only) in &DEEP {
        let openings = opening.repeat(rt.alloc(), *depth)?;
        let closings = closing.repeat(rt.alloc(), *depth)?;
        let text = format!(in rt.alloc(); "{openings}{middle}{closings}")?;
        let Ok(filterset) = parse(&rt, text.as_str())? else {
            panic!(rt; "{opening}{middle}{closing} has no faults");
        };
        copy_filterset(&rt, &filterset, *leaves, *runtime_only)?;
    }
    Ok(())
}

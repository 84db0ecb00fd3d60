//! Packages, and what each call returns for a test and its binary.
ghost use Rattle.std.specs.Prelude.{◌≡◌};
ghost use Rattle.filterset_matchers.specs.Matcher.{MatchesName};

use crate::tests::support::{id, parse, workspace};
use nextest_filtering::{
    BinaryQuery, BuildPlatform, CompiledExpr, DependsRefusal, EvalContext, Filterset, FlatExpr,
    GroupLookup, NameMatcher, PackageGraph, RustBinaryId, RustTestBinaryKind, TestCaseName,
    TestQuery,
};
use std::alloc::{AllocError, Global};
use std::process::Abort;

/// Returns whether one package depends on the other, or `None` if one is unknown.
fn depends_on(
    alloc: Global,
    graph: &PackageGraph,
    from: &str,
    to: &str,
) -> Result<Option<bool>, AllocError> {
    match graph.depends_on(alloc, &id(alloc, from)?, &id(alloc, to)?) {
        Ok(depends) => Ok(Some(depends)),
        Err(DependsRefusal::UnknownPackage) => Ok(None),
        Err(DependsRefusal::OutOfMemory(error)) => Err(error),
    }
}

/// Knows one group, and one test that is in it.
#[derive(Debug, Drop)]
struct OneMember {
    test: &'static str,
    group: &'static str,
}

impl GroupLookup for OneMember {
    ghost matches_group = { λ known query matcher.
        (query.test_name.now ≡ known.test.now) × MatchesName matcher known.group.now };

    fn is_member_test(
        &self,
        alloc: Global,
        test: &TestQuery<'_>,
        matcher: &NameMatcher,
    ) -> Result<bool, AllocError> {
        if test.test_name.as_str() != self.test {
            return Ok(false);
        }
        matcher.is_match(alloc, self.group)
    }
}

static GROUPS: OneMember = OneMember {
    test: "x",
    group: "@global",
};

const HOST: BuildPlatform = BuildPlatform::Host;

const TARGET: BuildPlatform = BuildPlatform::Target;

/// A test by its package, its binary's id, name and kind, its name and its platform, and what a filterset returns for its
/// binary and for it.
type Wanted = ([&'static str; 5], BuildPlatform, Option<bool>, bool);

const MIXED: &str =
    "binary(a) + !platform(target) + kind(bench) + (package(=a) & (!test(/foo/) | kind(bin)))";

static OF_MIXED: [Wanted; 6] = [
    (["a", "a", "a", "lib", "foo"], TARGET, Some(true), true),
    (["b", "b", "bar", "lib", "foo"], HOST, Some(true), true),
    (
        ["a", "a::bin/x", "x", "bin", "foo"],
        TARGET,
        Some(true),
        true,
    ),
    (["a", "a", "x", "lib", "foo"], TARGET, None, false),
    (["a", "a", "x", "lib", "bar"], TARGET, None, true),
    (["b", "b", "bar", "lib", "bar"], TARGET, Some(false), false),
];

static OF_GROUP: [Wanted; 2] = [
    (["a", "a", "a", "lib", "x"], HOST, None, true),
    (["a", "a", "a", "lib", "y"], HOST, None, false),
];

/// Asserts that each call returns what is wanted for a test and its binary.
fn evaluate(
    rt: &(impl AllocGlobal + Abort),
    filterset: &Filterset,
    query: &TestQuery<'_>,
    of_binary: Option<bool>,
    of_test: bool,
) -> Result<(), AllocError> {
    let (alloc, default, expr) = (rt.alloc(), CompiledExpr::ALL, &filterset.compiled);
    let cx = EvalContext::new(&default);
    let flat = FlatExpr::new(alloc, expr, &cx)?;
    let told = flat.matches_binary(alloc, &query.binary_query)?;
    let binary = &query.binary_query;
    assert_eq!(rt; told, of_binary);
    assert_eq!(rt; filterset.matches_binary(alloc, binary, &cx)?, of_binary);
    assert_eq!(rt; expr.matches_binary(alloc, binary, &cx)?, of_binary);
    let answer = flat.matches_test_of_told(alloc, told, query, &GROUPS)?;
    assert_eq!(rt; answer, of_test);
    let answer = flat.matches_test_with_groups(alloc, query, &GROUPS)?;
    assert_eq!(rt; answer, of_test);
    let answer = filterset.matches_test_with_groups(alloc, query, &cx, &GROUPS)?;
    assert_eq!(rt; answer, of_test);
    let answer = expr.matches_test_with_groups(alloc, query, &cx, &GROUPS)?;
    assert_eq!(rt; answer, of_test);
    if !expr.has_group_matchers() {
        assert_eq!(rt; filterset.matches_test(alloc, query, &cx)?, of_test);
        assert_eq!(rt; expr.matches_test(alloc, query, &cx)?, of_test);
    }
    if !flat.has_group_matchers() {
        assert_eq!(rt; flat.matches_test(alloc, query)?, of_test);
    }
    Ok(())
}

/// Asserts that each call returns what is wanted for these tests.
fn evaluate_for(
    rt: &(impl AllocGlobal + Abort),
    text: &str,
    tests: &[Wanted],
) -> Result<(), AllocError> {
    let Ok(filterset) = parse(rt, text)? else {
        panic!(rt; "{text} has no faults");
    };
    for ([package, id_text, binary_name, kind, test], platform, of_binary, of_test) in tests {
        let alloc = rt.alloc();
        let package_id = id(alloc, package)?;
        let binary_id = RustBinaryId::new(alloc, id_text)?;
        let kind = RustTestBinaryKind::new(String::from_str(alloc, kind)?);
        let test_name = TestCaseName::new(alloc, test)?;
        let query = TestQuery {
            binary_query: BinaryQuery {
                package_id: &package_id,
                binary_id: &binary_id,
                binary_name,
                kind: &kind,
                platform: *platform,
            },
            test_name: &test_name,
        };
        evaluate(rt, &filterset, &query, *of_binary, *of_test)?;
    }
    Ok(())
}

/// Asks a graph and filtersets.
pub fn ask(rt: &(impl AllocGlobal + Abort)) -> Result<(), AllocError> {
    let graph = workspace(rt)?;
    for (from, to, wanted) in [
        ("a", "x", Some(false)),
        ("c", "b", Some(true)),
        ("a", "zz", None),
    ] {
        assert_eq!(rt; depends_on(rt.alloc(), &graph, from, to)?, wanted);
    }
    evaluate_for(rt, "group(@global)", &OF_GROUP)?;
    evaluate_for(rt, MIXED, &OF_MIXED)
}

#[test]
fn answers_or_wants_memory(rt: HostRuntime) {
    let _ = ask(&rt);
}

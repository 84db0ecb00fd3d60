//! A small test runner, which docs/CALLING.md explains: parses filtersets, draws their faults, and plans which tests are run.
ghost use Rattle.std.specs.Prelude.{◌≡◌, false, codes, IfOk, IfNone, List};
ghost use Rattle.filterset_expression.specs.{Contexts.default_of, FlatExpressions.IsFlatOfTree, Meaning.Meaning};
ghost use Rattle.filterset_expression.specs.Expression.{has_leaf, is_group, no_groups, Holds};
ghost use Rattle.filterset_expression.specs.declared.{expression.CompiledExpr.CompiledExpr, query.TestQuery.TestQuery};
ghost use Rattle.filterset_faults.specs.declared.span.SourceSpan.{SourceSpan};
ghost use Rattle.filterset_grammar.specs.Tree.{Tree};
ghost use Rattle.filterset_graph.specs.declared.package.PackageMetadata.{PackageMetadata};
ghost use Rattle.filterset_matchers.specs.Matcher.{MatchesName};

use crate::tests::support::{id, package};
use nextest_filtering::{
    BinaryQuery, BuildPlatform, EvalContext, Filterset, FiltersetKind, FiltersetParseErrors,
    FlatExpr, GLOBAL_TEST_GROUP, GroupLookup, KnownGroups, NameMatcher, NotOperator, PackageGraph,
    PackageId, ParseContext, ParsedExpr, RustBinaryId, RustTestBinaryKind, SourceSpan,
    TestCaseName, TestQuery, laws,
};
use std::alloc::{AllocError, Global};
use std::fmt::Write;
use std::test::Fail;

/// The group of some tests.
const GROUP: &str = "network";

/// The filtersets. The first two have faults.
static FILTERSETS: [&str; 4] = [
    "NOT test(slow)",
    "package(téxt) or group(=disk)",
    "default() - package(text)",
    "group(=network) or test(=parse::slow_sum)",
];

/// What is written of them.
const WRITTEN: &str = "\
NOT test(slow)
error: ExprFoundUnaryOp
  NOT test(slow)
  ^^^ `NOT` is not a recognized operator
  help: use `not <expr>` instead
error: ExpectedEndOfExpression
  NOT test(slow)
     ^^^^^^^^^^^ unparsed input
package(téxt) or group(=disk)
error: NoPackageMatch
  package(téxt) or group(=disk)
          ^^^^ no packages matched this
error: NoGroupMatch
  package(téxt) or group(=disk)
                         ^^^^^ no test groups matched this
default() - package(text)
  live_slow_get: no
  text: not started
  net:
    get
    live_get
  others: not (default() - package(text))
group(=network) or test(=parse::slow_sum)
  live_slow_get: yes
  text:
    parse::slow_sum
  net:
    live_get
    live_slow_get
  others: not (group(=network) or test(=parse::slow_sum))
";

/// Returns spaces up to the span, and a `^` for each of its characters, or one if it is empty. A span counts bytes; each
/// character takes one column here.
fn underline(alloc: Global, text: &str, span: SourceSpan) -> Result<String, AllocError> {
    let begin = span.offset();
    let before = text.char_indices().filter(|(at, _)| *at < begin).count();
    let within = text
        .char_indices()
        .filter(|(at, _)| begin <= *at && *at - begin < span.len())
        .count();
    let spaces = " ".repeat(alloc, before)?;
    let carets = "^".repeat(alloc, within.max(1))?;
    format!(in alloc; "{spaces}{carets}")
}

/// Writes each fault of a text: its code, the text underlined, its label and its help.
fn write_faults(
    written: &mut String,
    alloc: Global,
    refused: &FiltersetParseErrors,
) -> Result<(), AllocError> {
    for fault in &refused.errors {
        writeln!(written, "error: {}", fault.code())?;
        if let (Some(span), Some(label)) = (fault.span(), fault.label()) {
            let underlined = underline(alloc, refused.input.as_str(), span)?;
            writeln!(written, "  {}\n  {underlined} {label}", refused.input)?;
        }
        if let Some(help) = fault.help() {
            writeln!(written, "  help: {help}")?;
        }
    }
    Ok(())
}

/// The lookup of groups: the tests that a filterset picks are in a group, and all others in `@global`. The filterset has
/// no `group(..)`, as none of kind `OverrideFilter` has: so no group depends on groups.
#[derive(Clone, Copy, Debug)]
struct Groups<'a> {
    filterset: &'a Filterset,
    group: &'a str,
    eval_context: EvalContext<'a>,
    ghost no_group: { has_leaf is_group filterset.now.compiled ≡ false },
}

impl GroupLookup for Groups<'_> {
    ghost matches_group = { λ groups test matcher.
        let IsInGroup : Type 0 = Holds groups.filterset.now.compiled test (default_of groups.eval_context) no_groups in
        (IsInGroup → MatchesName matcher groups.group.now)
        × ((¬ IsInGroup) → MatchesName matcher (codes "@global")) };

    fn is_member_test(
        &self,
        alloc: Global,
        test: &TestQuery<'_>,
        matcher: &NameMatcher,
    ) -> Result<bool, AllocError> {
        let is_in_group = self
            .filterset
            .matches_test(alloc, test, &self.eval_context)?;
        if is_in_group {
            matcher.is_match(alloc, self.group)
        } else {
            matcher.is_match(alloc, GLOBAL_TEST_GROUP)
        }
    }
}

/// The test binary of a library.
#[derive(Drop)]
struct TestBinary {
    package_id: PackageId,
    id: RustBinaryId,
    name: String,
    kind: RustTestBinaryKind,
    tests: Vec<TestCaseName>,
}

impl TestBinary {
    /// Makes the binary of the package of this name, with these tests.
    fn new(alloc: Global, name: &str, test_names: &[&str]) -> Result<TestBinary, AllocError> {
        let mut tests = Vec::new(alloc);
        for test_name in test_names {
            tests.push(TestCaseName::new(alloc, test_name)?)?;
        }
        let kind = RustTestBinaryKind::LIB;
        Ok(TestBinary {
            package_id: id(alloc, name)?,
            id: RustBinaryId::from_parts(alloc, name, &kind, name)?,
            name: String::from_str(alloc, name)?,
            kind,
            tests,
        })
    }

    /// Returns the question about the binary.
    fn query(&self) -> BinaryQuery<'_> {
        BinaryQuery {
            package_id: &self.package_id,
            binary_id: &self.id,
            binary_name: self.name.as_str(),
            kind: &self.kind,
            platform: BuildPlatform::Target,
        }
    }
}

/// Returns those tests of a binary that the filterset picks, or `None` if the binary need not be started: the filterset
/// picks none of its tests, whatever their names and groups are.
fn plan<'t>(
    alloc: Global,
    flat: &FlatExpr<'_>,
    groups: &dyn GroupLookup,
    binary: &BinaryQuery<'_>,
    tests: &'t [TestCaseName],
) -> Result<Option<Vec<&'t TestCaseName>>, AllocError>
    ensures { IfOk result (λ plan. (packages : List PackageMetadata) (e : Tree SourceSpan) (default : CompiledExpr)
        (test : TestQuery) → IsFlatOfTree flat.now packages e default → test.binary_query ≡ binary.now
        → IfNone plan (¬ Meaning e packages test default (matches_group groups.now))) }
{
    laws::skipping_loses_no_test(groups);
    let told = flat.matches_binary(alloc, binary)?;
    if told == Some(false) {
        return Ok(None);
    }
    let mut picked = Vec::new(alloc);
    for test_name in tests {
        let test = TestQuery {
            binary_query: *binary,
            test_name,
        };
        if flat.matches_test_of_told(alloc, told, &test, groups)? {
            picked.push(test_name)?;
        }
    }
    Ok(Some(picked))
}

/// Writes whether the filterset picks the test, which tests of each binary are run, and the filterset of all that are not
/// picked.
fn write_picked(
    written: &mut String,
    alloc: Global,
    filterset: &Filterset,
    groups: &Groups<'_>,
    test: &TestQuery<'_>,
    binaries: &[TestBinary],
) -> Result<(), AllocError> {
    let is_picked = filterset.matches_test_with_groups(alloc, test, &groups.eval_context, groups)?;
    let answer = if is_picked { "yes" } else { "no" };
    writeln!(written, "  {}: {answer}", test.test_name.as_str())?;
    let flat = FlatExpr::new(alloc, &filterset.compiled, &groups.eval_context)?;
    for binary in binaries {
        let query = binary.query();
        let id = query.binary_id.as_str();
        match plan(alloc, &flat, groups, &query, &binary.tests)? {
            None => writeln!(written, "  {id}: not started")?,
            Some(picked) => {
                writeln!(written, "  {id}:")?;
                for name in &picked {
                    writeln!(written, "    {}", name.as_str())?;
                }
            }
        }
    }
    let tree = Box::new(alloc, filterset.parsed.try_clone(alloc)?)?;
    let others = ParsedExpr::Not(NotOperator::LiteralNot, tree).with_parens(alloc)?;
    writeln!(written, "  others: {others}")
}

#[test]
fn a_runner_picks_tests(rt: HostRuntime) -> Result<(), Fail> {
    let alloc = rt.alloc();
    let text = package(alloc, "text", true, &[])?;
    let net = package(alloc, "net", true, &["text"])?;
    let graph = PackageGraph::new(alloc, vec![in alloc; text, net]?)?;
    let parse_context = ParseContext::new(alloc, &graph)?;
    let unknown = KnownGroups::Unavailable;

    let kind = FiltersetKind::DefaultFilter;
    let text = String::from_str(alloc, "not test(slow)")?;
    let default_filter = Filterset::parse(alloc, text, &parse_context, kind, &unknown)?;
    let kind = FiltersetKind::OverrideFilter;
    let text = String::from_str(alloc, "package(net) and test(/^live_/)")?;
    let group_filter = Filterset::parse(alloc, text, &parse_context, kind, &unknown)?;
    let groups = Groups {
        filterset: &group_filter,
        group: GROUP,
        eval_context: EvalContext::new(&default_filter.compiled),
    };
    let known_groups = KnownGroups::of(alloc, vec![in alloc; String::from_str(alloc, GROUP)?]?)?;

    let binaries = [
        TestBinary::new(alloc, "text", &["parse::reads_a_list", "parse::slow_sum"])?,
        TestBinary::new(alloc, "net", &["get", "live_get", "live_slow_get"])?,
    ];
    let test = TestQuery {
        binary_query: binaries[1].query(),
        test_name: &TestCaseName::new(alloc, "live_slow_get")?,
    };
    let mut written = String::new(alloc);
    for text in &FILTERSETS {
        writeln!(written, "{text}")?;
        let kind = FiltersetKind::Test;
        let text = String::from_str(alloc, text)?;
        match Filterset::parse(alloc, text, &parse_context, kind, &known_groups) {
            Ok(filterset) => {
                write_picked(&mut written, alloc, &filterset, &groups, &test, &binaries)?;
            }
            Err(refusal) => write_faults(&mut written, alloc, &refusal.into_faults()?)?,
        }
    }
    assert_eq!(rt; written.as_str(), WRITTEN);
    Ok(())
}

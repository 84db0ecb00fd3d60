//! Rows of filtersets, and of workspaces: the faults of a filterset, or its steps and its answers.
ghost use Rattle.nextest_filtering.specs.Groups.{IsKnown};

use crate::asked::{Binary, Test};
use crate::graphs::read_packages;
use crate::reading::{given_text, list_or_none, list_under, read_text, value_under};
use crate::report::Report;
use crate::texts::{Refusal, list_faults};
use filterset_json::{EntryRefusal, check_keys, given, optional, text_of};
use nextest_filtering::{
    EvalContext, Filterset, FiltersetKind, FiltersetLeaf, FlatExpr, FlatStep, GraphRefusal,
    KnownGroups, PackageGraph, PackageMetadata, ParseContext, ParseSingleError,
};
use serde_json::Value;
use std::alloc::{AllocError, Global};
use std::fmt::Write;

/// Puts the filtersets of a workspace to the library, each as a row.
pub fn try_workspace(report: &mut Report, row: &Value) -> Result<(), EntryRefusal> {
    let alloc = report.alloc;
    check_keys(alloc, row, &["packages", "groups", "filtersets"])?;
    let packages = read_packages(alloc, row)?;
    let groups = optional(alloc, row, "groups", Vec::new(alloc))?;
    try_filtersets(report, packages, groups, row)
}

/// Puts the rows under `filtersets` to the library, with these packages and custom groups.
pub fn try_filtersets(
    report: &mut Report,
    packages: Vec<PackageMetadata>,
    groups: Vec<String>,
    object: &Value,
) -> Result<(), EntryRefusal> {
    let alloc = report.alloc;
    let rows = list_under(alloc, object, "filtersets")?;
    let graph = match PackageGraph::new(alloc, packages) {
        Ok(graph) => graph,
        Err(GraphRefusal::OutOfMemory(refused)) => return Err(EntryRefusal::from(refused)),
        Err(_) => {
            report.begin("workspace");
            return Ok(report.note(false, "packages", "", "no graph")?);
        }
    };
    let context = ParseContext::new(alloc, &graph)?;
    let groups = KnownGroups::of(alloc, groups)?;
    for row in rows {
        try_filterset(report, &context, &groups, row)?;
    }
    Ok(())
}

fn read_kind(alloc: Global, row: &Value) -> Result<FiltersetKind, EntryRefusal> {
    let Some(kind) = row.get("kind") else {
        return Ok(FiltersetKind::Test);
    };
    match text_of(alloc, kind)? {
        "test" => Ok(FiltersetKind::Test),
        "archive-filter" => Ok(FiltersetKind::TestArchive),
        "override-filter" => Ok(FiltersetKind::OverrideFilter),
        "default-filter" => Ok(FiltersetKind::DefaultFilter),
        _ => Err(EntryRefusal::wrong(alloc, "a kind of filtersets")),
    }
}

fn try_filterset(
    report: &mut Report,
    context: &ParseContext<'_>,
    groups: &KnownGroups,
    row: &Value,
) -> Result<(), EntryRefusal>
    requires { IsKnown groups.now }
{
    let alloc = report.alloc;
    report.begin("filterset");
    let names = [
        "filterset",
        "kind",
        "faults",
        "told",
        "default",
        "steps",
        "binaries",
        "matches",
        "misses",
    ];
    check_keys(alloc, row, &names)?;
    let input = read_text(alloc, value_under(alloc, row, "filterset")?, 0)?;
    let kind = read_kind(alloc, row)?;
    let wanted = Refusal::read(alloc, row)?;
    let text = input.as_str();
    match Filterset::parse(alloc, input.clone()?, context, kind, groups) {
        Ok(filterset) => {
            report.note(wanted.faults.is_none(), "faults", text, "none")?;
            report.note(
                filterset.input == input,
                "input",
                text,
                filterset.input.as_str(),
            )?;
            try_accepted(report, context, groups, row, &filterset)
        }
        Err(refusal) => {
            let refused = refusal.into_faults()?;
            report.note(
                refused.input == input,
                "input",
                text,
                refused.input.as_str(),
            )?;
            if wanted.faults.is_none() {
                note_faults(report, "faults", text, &refused.errors)?;
            }
            Ok(wanted.compare(report, text, &refused.errors)?)
        }
    }
}

/// Notes these faults, which no row wants.
fn note_faults(
    report: &mut Report,
    what: &str,
    text: &str,
    faults: &[ParseSingleError],
) -> Result<(), AllocError> {
    let shown = format!(in report.alloc; "{:?}", list_faults(report.alloc, faults)?)?;
    report.note(false, what, text, shown.as_str())
}

/// Asks an accepted filterset under the default filter of its row.
fn try_accepted(
    report: &mut Report,
    context: &ParseContext<'_>,
    groups: &KnownGroups,
    row: &Value,
    filterset: &Filterset,
) -> Result<(), EntryRefusal> {
    let alloc = report.alloc;
    let default = match given_text(alloc, row, "default")? {
        Some(default) => default,
        None => String::from_str(alloc, "all()")?,
    };
    let kind = FiltersetKind::DefaultFilter;
    match Filterset::parse(alloc, default, context, kind, groups) {
        Ok(default) => ask(report, filterset, EvalContext::new(&default.compiled), row),
        Err(refusal) => {
            let errors = refusal.into_faults()?.errors;
            let text = filterset.input.as_str();
            Ok(note_faults(report, "default filter", text, &errors)?)
        }
    }
}

/// Notes where the steps or the answers of a filterset differ, by its own calls and by those of its steps.
fn ask(
    report: &mut Report,
    filterset: &Filterset,
    cx: EvalContext<'_>,
    row: &Value,
) -> Result<(), EntryRefusal> {
    let alloc = report.alloc;
    let text = filterset.input.as_str();
    let flat = FlatExpr::new(alloc, &filterset.compiled, &cx)?;
    let steps = given(alloc, row, "steps")?;
    report.compare("steps", text, &list_steps(alloc, flat.steps())?, &steps)?;

    if let Some(binaries) = row.get("binaries") {
        check_keys(alloc, binaries, &["yes", "no", "unknown"])?;
        for (key, wanted) in [("yes", Some(true)), ("no", Some(false)), ("unknown", None)] {
            for value in list_or_none(alloc, binaries, key)? {
                check_keys(
                    alloc,
                    value,
                    &["package", "id", "binary", "kind", "platform"],
                )?;
                let binary = Binary::read(alloc, value)?;
                let own = filterset.matches_binary(alloc, &binary.query(), &cx)?;
                let kept = flat.matches_binary(alloc, &binary.query())?;
                let shown = binary.show(alloc)?;
                report.note(own == wanted && kept == wanted, key, text, shown.as_str())?;
            }
        }
    }
    for (key, what, wanted) in [("matches", "match", true), ("misses", "miss", false)] {
        for value in list_or_none(alloc, row, key)? {
            let test = Test::read(alloc, value)?;
            let same = ask_of_test(alloc, filterset, &flat, &cx, &test)? == Some(wanted);
            report.note(same, what, text, test.show(alloc)?.as_str())?;
        }
    }
    Ok(())
}

/// Returns the answer for a test in its group. Returns `None` if two calls differ; those that take no lookup are made
/// only if there is no `group`.
fn ask_of_test(
    alloc: Global,
    filterset: &Filterset,
    flat: &FlatExpr<'_>,
    cx: &EvalContext<'_>,
    test: &Test,
) -> Result<Option<bool>, AllocError> {
    let query = test.query();
    let told = flat.matches_binary(alloc, &query.binary_query)?;
    let answer = filterset.matches_test_with_groups(alloc, &query, cx, test)?;
    let mut same = answer == flat.matches_test_with_groups(alloc, &query, test)?
        && answer == flat.matches_test_of_told(alloc, told, &query, test)?;
    if !filterset.compiled.has_group_matchers() {
        same = same && answer == filterset.matches_test(alloc, &query, cx)?;
    }
    if !flat.has_group_matchers() {
        same = same && answer == flat.matches_test(alloc, &query)?;
    }
    Ok(same.then_some(answer))
}

/// Lists the steps as rows do.
fn list_steps(alloc: Global, steps: &[FlatStep<'_>]) -> Result<Vec<String>, AllocError> {
    let mut all = Vec::new(alloc);
    for step in steps {
        let FlatStep::Leaf(leaf) = step else {
            all.push(format!(in alloc; "{step:?}")?)?;
            continue;
        };
        all.push(match leaf {
            FiltersetLeaf::Packages(ids) => {
                let mut text = String::from_str(alloc, "packages(")?;
                for (index, id) in ids.iter().enumerate() {
                    let blank = if index > 0 { " " } else { "" };
                    write!(text, "{blank}{}", id.repr())?;
                }
                text.push(')')?;
                text
            }
            FiltersetLeaf::Kind(matcher, _) => format!(in alloc; "kind({matcher})")?,
            FiltersetLeaf::Platform(platform, _) => format!(in alloc; "platform({platform})")?,
            FiltersetLeaf::Binary(matcher, _) => format!(in alloc; "binary({matcher})")?,
            FiltersetLeaf::BinaryId(matcher, _) => format!(in alloc; "binary_id({matcher})")?,
            FiltersetLeaf::Test(matcher, _) => format!(in alloc; "test({matcher})")?,
            FiltersetLeaf::Group(matcher, _) => format!(in alloc; "group({matcher})")?,
            FiltersetLeaf::Default => String::from_str(alloc, "default()")?,
            FiltersetLeaf::All => String::from_str(alloc, "all()")?,
            FiltersetLeaf::None => String::from_str(alloc, "none()")?,
        })?;
    }
    Ok(all)
}

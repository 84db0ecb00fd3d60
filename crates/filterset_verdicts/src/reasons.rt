//! Why filtersets pick a test or not.
ghost use Rattle.std.specs.Prelude.{◌≡◌, ◌++◌, IfOk, OnOk, map, string_bytes};
ghost use Rattle.std.specs.{List.AllZip, List.flat_map, Str.Lines.lines};
ghost use Rattle.filterset_answers.specs.Picking.{compiled_of, parsed_of};
ghost use Rattle.filterset_display.specs.Columns.{Text};
ghost use Rattle.filterset_expression.specs.{Contexts.default_of, Meaning.IsCompiled};
ghost use Rattle.filterset_verdicts.specs.Reasons.{AreReasons, IsReasonOf, PutsAll, indented_line, reason_lines};

use filterset_deciding::Verdict;
use filterset_graph::PackageGraph;
use filterset_listing::{Candidate, CompiledTree, GroupOverride, explain, explain_text};
use nextest_filtering::{EvalContext, Filterset, TestQuery};
use std::alloc::{AllocError, Global};
use std::fmt::Write;
use std::slice;

/// Returns an override that puts every test in this group.
fn put_all(group: &str) -> GroupOverride<'_>
    ensures { PutsAll group.now result }
{
    GroupOverride {
        path: "",
        filter: None,
        for_target: Some(true),
        for_host: Some(true),
        group,
    }
}

/// Moves each line in by two blanks.
fn indent(alloc: Global, text: &str) -> Result<String, AllocError>
    ensures { IfOk result (λ moved. string_bytes moved ≡ flat_map indented_line (lines text.now)) }
{
    let mut moved = String::new(alloc);
    for line in text.lines() {
        writeln!(moved, "  {line}")?;
    }
    Ok(moved)
}

/// Writes why a filterset picks the test in this group or not, as `explain` does, but moved in by two blanks.
fn explain_in<'x>(
    alloc: Global,
    graph: &PackageGraph,
    context: &EvalContext<'x>,
    query: &TestQuery<'x>,
    group: &'x str,
    filterset: &Filterset,
) -> Result<String, AllocError>
    ensures { IfOk result (λ text.
        IsReasonOf graph.now (default_of context.now) query.now group.now filterset.now (string_bytes text)) }
{
    let over = put_all(group);
    let overrides = slice::from_ref(&over);
    let compiled = CompiledTree {
        tree: &filterset.parsed,
        compiled: &filterset.compiled,
    };
    let candidate = Candidate::Test(*query);
    let explanation = explain(alloc, graph, compiled, context, overrides, candidate)?;
    let text = explain_text(alloc, &explanation)?;
    indent(alloc, text.as_str())
}

/// Writes for each filterset why it picks the test in this group or not.
fn explain_all(
    alloc: Global,
    graph: &PackageGraph,
    context: &EvalContext<'_>,
    query: &TestQuery<'_>,
    group: &str,
    filtersets: &[Filterset],
) -> Result<Vec<String>, AllocError>
    ensures { IfOk result (λ texts. AllZip (λ f text.
        IsReasonOf graph.now (default_of context.now) query.now group.now f (string_bytes text)) filtersets.now texts.items) }
{
    let mut texts = Vec::with_capacity(alloc, filtersets.len())?;
    for filterset in filtersets {
        texts.push(explain_in(alloc, graph, context, query, group, filterset)?)?;
    }
    Ok(texts)
}

/// Writes the reasons of each filterset below its number, from 1.
fn push_reasons(output: &mut String, reasons: &[String]) -> Result<(), AllocError>
    ensures { OnOk result (string_bytes output.new
        ≡ string_bytes output.old ++ reason_lines 1 (map (λ s. string_bytes s) reasons.now)) }
{
    for (i, reason) in reasons.iter().enumerate() {
        let (number, reason) = (i + 1, reason.as_str());
        write!(output, "argument {number}:\n{reason}")?;
    }
    Ok(())
}

/// Writes below a verdict why each filterset picks its test or not, if it has a test.
pub(crate) fn push_reasons_of(
    output: &mut String,
    alloc: Global,
    graph: &PackageGraph,
    context: &EvalContext<'_>,
    filtersets: &[Filterset],
    verdict: &Verdict<'_>,
) -> Result<(), AllocError>
    ensures { OnOk result ((rest : Text) × (string_bytes output.new ≡ string_bytes output.old ++ rest)
        × (AllZip (IsCompiled graph.now) (map parsed_of filtersets.now) (map compiled_of filtersets.now)
        → AreReasons graph.now (default_of context.now) (map parsed_of filtersets.now) verdict.now rest)) }
{
    match verdict {
        Verdict::Fails(witness) => {
            let query = witness.test.query();
            let group = witness.test.group.as_str();
            let reasons = explain_all(alloc, graph, context, &query, group, filtersets)?;
            push_reasons(output, reasons.as_slice())
        }
        Verdict::Always | Verdict::Unknown(_) | Verdict::Stopped => Ok(()),
    }
}

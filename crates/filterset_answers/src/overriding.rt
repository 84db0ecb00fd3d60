//! How the overrides of a setting apply to tests, and which of their settings they give.
ghost use Rattle.std.specs.Prelude.{◌≡◌, ◌++◌, [], IfOk, List, OnOk, false, map, string_bytes};
ghost use Rattle.std.specs.List.{AllZip, count_by};
ghost use Rattle.filterset_expression.specs.{Contexts.default_of, Expression.has_leaf, Expression.is_default};
ghost use Rattle.filterset_expression.specs.Meaning.{IsCompiled};
ghost use Rattle.filterset_faults.specs.declared.span.SourceSpan.{SourceSpan};
ghost use Rattle.filterset_grammar.specs.Tree.{Tree};
ghost use Rattle.filterset_listing.specs.{ListText.is_open, declared.explaining.candidate.Candidate.TheVariants.Test};
ghost use Rattle.filterset_listing.specs.declared.explaining.Explanation as explanations;
ghost use Rattle.filterset_answers.specs.Compiled.{AreFiltersets, Basis, IsAskedFor, IsTreeOf};
ghost use Rattle.filterset_answers.specs.Overriding.{AnswersOverrides, CountsOverrides, IsListed, IsReasonFor, TellsOverrides, is_unknown, uncounted_text};
ghost use Rattle.filterset_answers.specs.Picking.{compiled_of};
ghost use Rattle.filterset_entries.specs.declared.setting.Setting as settings;

use crate::compiling::{CompiledTexts, QuestionFiltersets, compile_texts};
use crate::grouping::asked_overrides;
use crate::picks::{AskedTests, expressions_of, picks_of};
use filterset_display::Form;
use filterset_entries::{Answer, Ending, Setting, unknown_ending};
use filterset_listing::{
    BinaryPicks, Candidate, CompiledTree, explain, explain_text, lists_unknown, push_some,
    uncounted_count, unknown_count,
};
use filterset_overrides::{
    AskedOverride, ListedBinary, OverrideTable, any_unknown, any_unknown_test, count_overrides,
    explain_overrides, override_table_text, test_overrides_text,
};
use nextest_filtering::{EvalContext, Filterset, TestQuery};
use std::alloc::{AllocError, Global};

/// Returns each binary with the tests that are picked of it.
fn listed_binaries<'a>(
    alloc: Global,
    all: &'a [BinaryPicks<'_, '_>],
) -> Result<Vec<ListedBinary<'a>>, AllocError>
    ensures { IfOk result (λ listed. AllZip IsListed all.entry.now listed.items) }
{
    let mut listed = Vec::with_capacity(alloc, all.len())?;
    for picks in all {
        listed.push(ListedBinary {
            query: picks.binary.query,
            tests: picks.tests.as_slice(),
        })?;
    }
    Ok(listed)
}

/// Counts the binaries that nextest skipped, and that are not left out.
fn skipped_count(all: &[BinaryPicks<'_, '_>]) -> usize
    ensures { result ≡ count_by is_open all.now }
{
    all.iter().filter(|picks| picks.is_open()).count()
}

/// Writes which tests are not counted, though they may be picked.
fn push_uncounted(output: &mut String, all: &[BinaryPicks<'_, '_>]) -> Result<(), AllocError>
    ensures { OnOk result (string_bytes output.new ≡ string_bytes output.old ++ uncounted_text all.now) }
{
    let unknown = unknown_count(all)?;
    let skipped = skipped_count(all);
    let uncounted = uncounted_count(all)?;
    push_some(
        output,
        "not counted: ",
        unknown,
        " tests that -E may pick\n",
    )?;
    push_some(
        output,
        "not counted: tests of ",
        skipped,
        " skipped binaries\n",
    )?;
    push_some(
        output,
        "not counted: ",
        uncounted,
        " tests left out by --run-ignored\n",
    )?;
    Ok(())
}

/// Returns whether it is unknown of a test whether one of the overrides applies to it, or whether it is picked.
fn is_unknown(table: &OverrideTable<'_>, all: &[BinaryPicks<'_, '_>]) -> bool
    ensures { result ≡ is_unknown table.now all.now }
{
    any_unknown_test(table) || lists_unknown(all)
}

/// Answers how overrides apply to the tests that at least one of these filtersets picks, or to all tests if there is no
/// filterset.
pub fn answer_overrides(
    alloc: Global,
    filters: Vec<Filterset>,
    asked: &[AskedOverride<'_>],
    tests: AskedTests<'_, '_>,
) -> Result<Answer, AllocError>
    ensures { IfOk result (λ answer. (setting : settings.Setting) (basis : Basis setting)
        (trees : List (Tree SourceSpan)) → basis.default ≡ default_of tests.entry.context.now
        → basis.overrides ≡ tests.entry.overrides.now
        → has_leaf is_default basis.default ≡ false
        → AllZip (IsCompiled setting.graph.now) trees (map compiled_of filters.items)
        → AllZip (IsAskedFor setting) setting.overrides.now asked.now
        → CountsOverrides setting tests.entry.binaries.now basis trees answer.ending (string_bytes answer.text)) }
{
    let exprs = expressions_of(alloc, filters)?;
    let all = picks_of(alloc, exprs, true, tests)?;
    let all = all.as_slice();
    let listed = listed_binaries(alloc, all)?;
    let table = count_overrides(alloc, asked, tests.context, listed.as_slice())?;
    let mut text = override_table_text(alloc, &table)?;
    push_uncounted(&mut text, all)?;
    Ok(Answer {
        text,
        ending: unknown_ending(is_unknown(&table, all)),
    })
}

/// Explains the filter of an override for a test, if it has one.
fn reason_of<'x>(
    alloc: Global,
    setting: &Setting<'_>,
    made: &Option<Filterset>,
    context: &EvalContext<'x>,
    query: &TestQuery<'x>,
) -> Result<String, AllocError>
    ensures { IfOk result (λ reason.
        IsReasonFor query.now setting.now (default_of context.now) made.now (string_bytes reason)) }
{
    match made {
        Some(filter) => {
            let compiled = CompiledTree {
                tree: &filter.parsed,
                compiled: &filter.compiled,
            };
            let graph = setting.graph;
            let candidate = Candidate::Test(*query);
            let explanation = explain(alloc, graph, compiled, context, &[], candidate)?;
            explain_text(alloc, &explanation)
        }
        None => Ok(String::new(alloc)),
    }
}

/// Explains the filter of each override for a test, if it has one.
fn reasons_of(
    alloc: Global,
    setting: &Setting<'_>,
    filters: &[Option<Filterset>],
    context: &EvalContext<'_>,
    query: &TestQuery<'_>,
) -> Result<Vec<String>, AllocError>
    ensures { IfOk result (λ reasons. AllZip
        (λ made reason. IsReasonFor query.now setting.now (default_of context.now) made (string_bytes reason))
        filters.now reasons.items) }
{
    let mut reasons = Vec::with_capacity(alloc, filters.len())?;
    for made in filters {
        reasons.push(reason_of(alloc, setting, made, context, query)?)?;
    }
    Ok(reasons)
}

/// Explains how the overrides apply to a test.
fn explain_compiled(
    alloc: Global,
    setting: &Setting<'_>,
    filtersets: &QuestionFiltersets,
    query: &TestQuery<'_>,
) -> Result<Answer, AllocError>
    requires { AreFiltersets setting.now.graph.now setting.now.groups.now setting.now [] filtersets.now }
    ensures { IfOk result (λ answer. (basis : Basis setting.now) × (trees : List (Tree SourceSpan))
        × AllZip (IsTreeOf setting.now) [] trees
        × TellsOverrides query.now setting.now basis trees answer.ending (string_bytes answer.text)) }
{
    let context = EvalContext::new(&filtersets.setting.default.compiled);
    let filters = filtersets.setting.overrides.as_slice();
    let asked = asked_overrides(alloc, setting.overrides, filters)?;
    let asked = asked.as_slice();
    let explained = explain_overrides(alloc, asked, setting.profiles, &context, query)?;
    let reasons = reasons_of(alloc, setting, filters, &context, query)?;
    Ok(Answer {
        text: test_overrides_text(alloc, &explained, reasons.as_slice())?,
        ending: unknown_ending(any_unknown(&explained)),
    })
}

/// Explains how each override of a setting applies to a test and what gives the test each of its settings, or writes the
/// faults of the setting's texts.
///
/// Below each override is why its filter picks the test or not. Returns an error only if out of memory.
pub fn explain_test_overrides(
    alloc: Global,
    form: Form,
    setting: &Setting<'_>,
    query: &TestQuery<'_>,
) -> Result<Answer, AllocError>
    ensures { IfOk result (λ answer.
        AnswersOverrides form setting.now query.now answer.ending (string_bytes answer.text)) }
{
    match compile_texts(alloc, form, setting, &[])? {
        CompiledTexts::Filtersets(filtersets) => {
            explain_compiled(alloc, setting, &filtersets, query)
        }
        CompiledTexts::Faults(text) => Ok(Answer {
            text,
            ending: Ending::Faulty,
        }),
    }
}

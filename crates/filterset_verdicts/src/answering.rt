//! Answers to questions about filtersets that are given as texts.
ghost use Rattle.std.specs.Prelude.{◌≡◌, ◌<◌, [], IfOk, List, length, map, string_bytes};
ghost use Rattle.std.specs.List.{AllZip};
ghost use Rattle.filterset_answers.specs.{Compiled.Basis, Picking.compiled_of, Picking.parsed_of};
ghost use Rattle.filterset_entries.specs.declared.setting.Setting as settings;
ghost use Rattle.filterset_expression.specs.{Contexts.default_of, Meaning.IsCompiled};
ghost use Rattle.filterset_expression.specs.declared.query.TestQuery.{TestQuery};
ghost use Rattle.filterset_verdicts.specs.{ListedTests.AreTestsOf, VerdictForm.IsExplainedIn, VerdictText.ending_of};
ghost use Rattle.filterset_verdicts.specs.Verdicts.{AnswersQuestion, Decides, IsShown};

use crate::listed::{group_names, listed_tests};
use crate::reasons::push_reasons_of;
use crate::text::{Decided, answer_text, ending_of};
use filterset_answers::{CompiledTexts, compile_texts};
use filterset_deciding::{ListedTests, Question, Verdict, Witness, decide, find_listed};
use filterset_display::Form;
use filterset_entries::{Answer, Ending, Setting, TextEntry};
use filterset_sources::Suite;
use nextest_filtering::{CompiledExpr, EvalContext, Filterset, KnownGroups, PackageGraph};
use std::alloc::{AllocError, Global};

/// A question about filtersets and every possible test.
#[derive(Clone, Copy, Debug)]
pub struct TextQuestion<'t> {
    pub question: Question,
    /// The filterset of the tests that the question is about, and then the filtersets.
    pub entries: &'t [TextEntry<'t>],
    /// The test binaries of nextest's list; empty without a list. If the answer is no for a test of them, that is shown.
    pub suites: &'t [Suite],
    /// How many steps the search may take.
    pub budget: u64,
}

/// Returns the compiled expressions of filtersets.
fn expressions_of(alloc: Global, filtersets: &[Filterset]) -> Result<Vec<&CompiledExpr>, AllocError>
    ensures { IfOk result (λ exprs. map (λ e. e.now) exprs.items ≡ map compiled_of filtersets.now) }
{
    let mut exprs = Vec::with_capacity(alloc, filtersets.len())?;
    for filterset in filtersets {
        exprs.push(&filterset.compiled)?;
    }
    Ok(exprs)
}

/// Finds the first test of the list for which the answer is no in a known group, if there is one.
fn find_shown<'x>(
    alloc: Global,
    groups: &KnownGroups,
    asked: &TextQuestion<'_>,
    context: &EvalContext<'x>,
    within: &'x CompiledExpr,
    exprs: &[&'x CompiledExpr],
) -> Result<Option<Witness>, AllocError>
    ensures { IfOk result (λ found. (tests : List TestQuery) × AreTestsOf asked.now.suites.now tests
        × IsShown asked.now.question within.now (default_of context.now) exprs.now groups.now tests found) }
{
    let tests = listed_tests(alloc, asked.suites)?;
    let names = group_names(alloc, groups)?;
    let listed = ListedTests::of(tests.as_slice(), names.as_slice());
    find_listed(alloc, within, exprs, context, asked.question, listed)
}

/// Makes the answer of a verdict: in lines for people with the reasons of each filterset below its test.
fn answer_verdict(
    alloc: Global,
    form: Form,
    graph: &PackageGraph,
    context: &EvalContext<'_>,
    filtersets: &[Filterset],
    decided: &Decided<'_>,
) -> Result<Answer, AllocError>
    ensures text { IfOk result (λ answer.
        AllZip (IsCompiled graph.now) (map parsed_of filtersets.now) (map compiled_of filtersets.now)
        → IsExplainedIn form decided.now.question decided.now.is_listed graph.now (default_of context.now)
        (map parsed_of filtersets.now) decided.now.verdict (string_bytes answer.text)) }
    ensures ending { IfOk result (λ answer. answer.ending ≡ ending_of decided.now.verdict) }
{
    let mut text = answer_text(alloc, form, graph, decided)?;
    match form {
        Form::Json => {}
        Form::Drawn(_) | Form::Github => {
            push_reasons_of(
                &mut text,
                alloc,
                graph,
                context,
                filtersets,
                &decided.verdict,
            )?;
        }
    }
    Ok(Answer {
        text,
        ending: ending_of(&decided.verdict),
    })
}

/// Decides a question about filtersets, first by the tests of the list, and writes the verdict. The first filterset is the one
/// of the tests that the question is about.
fn decide_filtersets<'x>(
    alloc: Global,
    form: Form,
    setting: &Setting<'_>,
    asked: &TextQuestion<'_>,
    context: &EvalContext<'x>,
    filtersets: &'x [Filterset],
) -> Result<Answer, AllocError>
    requires { 0 < length filtersets.now }
    ensures { IfOk result (λ answer. (basis : Basis setting.now) → basis.default ≡ default_of context.now
        → AllZip (IsCompiled setting.now.graph.now) (map parsed_of filtersets.now) (map compiled_of filtersets.now)
        → Decides form asked.now setting.now basis (map parsed_of filtersets.now)
        answer.ending (string_bytes answer.text)) }
{
    let question = asked.question;
    let within = &filtersets[0].compiled;
    let others = &filtersets[1..];
    let exprs = expressions_of(alloc, others)?;
    let exprs = exprs.as_slice();
    let graph = setting.graph;
    match find_shown(alloc, setting.groups, asked, context, within, exprs)? {
        Some(witness) => {
            let verdict = Verdict::Fails(witness);
            let decided = Decided {
                question,
                is_listed: true,
                verdict,
            };
            answer_verdict(alloc, form, graph, context, others, &decided)
        }
        None => {
            let verdict = decide(alloc, within, exprs, context, question, asked.budget)?;
            let decided = Decided {
                question,
                is_listed: false,
                verdict,
            };
            answer_verdict(alloc, form, graph, context, others, &decided)
        }
    }
}

/// Answers a question about filtersets and every possible test, or writes the faults of their texts and of the default
/// filter. If the answer is no for a test of the list in a known group, the first such test is shown, and else a possible test.
/// The setting has no overrides, since a test counts in every group.
pub fn answer_texts(
    alloc: Global,
    form: Form,
    setting: &Setting<'_>,
    asked: &TextQuestion<'_>,
) -> Result<Answer, AllocError>
    requires some { 0 < length asked.now.entries.now }
    requires plain { setting.now.overrides.now ≡ [] }
    ensures { IfOk result (λ answer. AnswersQuestion form setting.now asked.now
        answer.ending (string_bytes answer.text)) }
{
    match compile_texts(alloc, form, setting, asked.entries)? {
        CompiledTexts::Filtersets(compiled) => {
            let context = EvalContext::new(&compiled.setting.default.compiled);
            let filters = compiled.filters.as_slice();
            decide_filtersets(alloc, form, setting, asked, &context, filters)
        }
        CompiledTexts::Faults(text) => Ok(Answer {
            text,
            ending: Ending::Faulty,
        }),
    }
}

//! Which tests of a workspace filtersets pick, and how two differ.
ghost use Rattle.std.specs.Prelude.{◌≡◌, IfOk, List, false, length, map, option_map, string_bytes};
ghost use Rattle.std.specs.List.{AllZip};
ghost use Rattle.serde_json.specs.View.{view};
ghost use Rattle.filterset_expression.specs.{Contexts.default_of, Expression.has_leaf, Expression.is_default};
ghost use Rattle.filterset_expression.specs.Meaning.{IsCompiled};
ghost use Rattle.filterset_faults.specs.declared.span.SourceSpan.{SourceSpan};
ghost use Rattle.filterset_grammar.specs.Tree.{Tree};
ghost use Rattle.filterset_answers.specs.Compiled.{AreFiltersets, Basis, IsTreeOf};
ghost use Rattle.filterset_answers.specs.Picking.{AnswersQuestion, Compares, Lists, Tells, compiled_of, parsed_of};
ghost use Rattle.filterset_entries.specs.Entries.{question_rows};
ghost use Rattle.filterset_entries.specs.declared.setting.Setting as settings;

use crate::compiling::{CompiledTexts, QuestionFiltersets, compile_texts};
use crate::grouping::{asked_overrides, group_overrides};
use crate::overriding::answer_overrides;
use crate::picks::{AskedTests, copy_expressions, expressions_of, picks_of};
use filterset_display::Form;
use filterset_entries::{
    Answer, Ending, Question, Setting, differing_ending, question_entries, unknown_ending,
};
use filterset_listing::{
    AskedBinary, any_unknown, compare, comparison_text, differ, list_json, list_text, lists_unknown,
};
use nextest_filtering::{EvalContext, Filterset};
use serde_json::Value;
use std::alloc::{AllocError, Global};

/// Answers which tests a runner runs, given these filtersets.
fn answer_list(
    alloc: Global,
    filters: Vec<Filterset>,
    ignores_default: bool,
    kept: Option<Value>,
    tests: AskedTests<'_, '_>,
) -> Result<Answer, AllocError>
    ensures { IfOk result (λ answer. (setting : settings.Setting) (basis : Basis setting)
        (trees : List (Tree SourceSpan)) → basis.default ≡ default_of tests.entry.context.now
        → basis.overrides ≡ tests.entry.overrides.now → has_leaf is_default basis.default ≡ false
        → AllZip (IsCompiled setting.graph.now) trees (map compiled_of filters.items)
        → Lists setting ignores_default (option_map view kept) tests.entry.binaries.now basis trees
        answer.ending (string_bytes answer.text)) }
{
    let Some(list) = kept else {
        let exprs = expressions_of(alloc, filters)?;
        let all = picks_of(alloc, exprs, ignores_default, tests)?;
        let all = all.as_slice();
        return Ok(Answer {
            text: list_text(alloc, all)?,
            ending: unknown_ending(lists_unknown(all)),
        });
    };
    let copies = copy_expressions(alloc, filters.as_slice())?;
    let beyond = picks_of(alloc, copies, true, tests)?;
    let exprs = expressions_of(alloc, filters)?;
    let all = picks_of(alloc, exprs, ignores_default, tests)?;
    let all = all.as_slice();
    Ok(Answer {
        text: list_json(alloc, list, all, beyond.as_slice())?,
        ending: unknown_ending(lists_unknown(all)),
    })
}

/// Answers how two filtersets differ.
fn answer_compare(
    alloc: Global,
    filters: &[Filterset],
    has_names: bool,
    tests: AskedTests<'_, '_>,
) -> Result<Answer, AllocError>
    requires { length filters.now ≡ 2 }
    ensures { IfOk result (λ answer. (setting : settings.Setting) (basis : Basis setting)
        → basis.default ≡ default_of tests.entry.context.now → basis.overrides ≡ tests.entry.overrides.now
        → AllZip (IsCompiled setting.graph.now) (map parsed_of filters.now) (map compiled_of filters.now)
        → Compares setting has_names tests.entry.binaries.now basis (map parsed_of filters.now)
        answer.ending (string_bytes answer.text)) }
{
    let (first, second) = (&filters[0].compiled, &filters[1].compiled);
    let AskedTests {
        context,
        overrides,
        binaries,
    } = tests;
    let all = compare(alloc, first, second, context, overrides, binaries)?;
    let all = all.as_slice();
    Ok(Answer {
        text: comparison_text(alloc, all, has_names)?,
        ending: differing_ending(differ(all), any_unknown(all)),
    })
}

/// Answers a question by its filtersets.
fn answer_question<'t>(
    alloc: Global,
    setting: &Setting<'_>,
    question: &Question<'_>,
    filtersets: QuestionFiltersets,
    kept: Option<Value>,
    binaries: &'t [AskedBinary<'t>],
) -> Result<Answer, AllocError>
    requires { AreFiltersets setting.now.graph.now setting.now.groups.now setting.now
        (question_rows question.now) filtersets }
    ensures { IfOk result (λ answer. (basis : Basis setting.now) × (trees : List (Tree SourceSpan))
        × AllZip (IsTreeOf setting.now) (question_rows question.now) trees
        × Tells setting.now question.now (option_map view kept) binaries.now basis trees
        answer.ending (string_bytes answer.text)) }
{
    let QuestionFiltersets {
        setting: compiled,
        filters,
    } = filtersets;
    let context = EvalContext::new(&compiled.default.compiled);
    let made = group_overrides(alloc, setting.overrides, compiled.overrides.as_slice())?;
    let tests = AskedTests {
        context: &context,
        overrides: made.as_slice(),
        binaries,
    };
    match question {
        Question::List {
            ignores_default,
            ..
        } => answer_list(alloc, filters, *ignores_default, kept, tests),
        Question::Compare { has_names, .. } => {
            answer_compare(alloc, filters.as_slice(), *has_names, tests)
        }
        Question::Overrides { .. } => {
            let asked = asked_overrides(alloc, setting.overrides, compiled.overrides.as_slice())?;
            answer_overrides(alloc, filters, asked.as_slice(), tests)
        }
    }
}

/// Answers a question about a workspace, or writes the faults of its texts and those of the setting.
///
/// `kept` is nextest's list, if the answer has its shape. Returns an error only if out of memory.
pub fn ask_workspace(
    alloc: Global,
    form: Form,
    setting: &Setting<'_>,
    question: &Question<'_>,
    kept: Option<Value>,
    binaries: &[AskedBinary<'_>],
) -> Result<Answer, AllocError>
    ensures { IfOk result (λ answer. AnswersQuestion form setting.now question.now (option_map view kept)
        binaries.now answer.ending (string_bytes answer.text)) }
{
    let entries = question_entries(alloc, question)?;
    match compile_texts(alloc, form, setting, entries.as_slice())? {
        CompiledTexts::Filtersets(filtersets) => {
            answer_question(alloc, setting, question, filtersets, kept, binaries)
        }
        CompiledTexts::Faults(text) => Ok(Answer {
            text,
            ending: Ending::Faulty,
        }),
    }
}

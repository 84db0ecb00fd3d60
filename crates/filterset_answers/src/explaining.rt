//! Why a filterset picks a test or not.
ghost use Rattle.std.specs.Prelude.{◌≡◌, ◌∷◌, [], IfOk, List, false, string_bytes};
ghost use Rattle.std.specs.List.{AllZip};
ghost use Rattle.filterset_expression.specs.Expression.{has_leaf, is_default, is_group};
ghost use Rattle.filterset_expression.specs.Meaning.{IsCompiled};
ghost use Rattle.filterset_faults.specs.declared.span.SourceSpan.{SourceSpan};
ghost use Rattle.filterset_grammar.specs.Tree.{Tree};
ghost use Rattle.filterset_language.specs.Views.{tree_of};
ghost use Rattle.filterset_entries.specs.Checked.{TextRow};
ghost use Rattle.filterset_answers.specs.Compiled.{AreFiltersets, Basis, IsTreeOf};
ghost use Rattle.filterset_answers.specs.Explained.{AnswersExplanation, Explains, ExplainsTree, ignored_line};

use crate::compiling::{CompiledTexts, QuestionFiltersets, compile_texts};
use crate::grouping::group_overrides;
use filterset_display::Form;
use filterset_entries::{Answer, Ending, Setting, entry_of, unknown_ending};
use filterset_listing::{Candidate, CompiledTree, GroupOverride, explain, explain_text};
use nextest_filtering::{EvalContext, Filterset, FiltersetKind};
use std::alloc::{AllocError, Global};
use std::slice;

/// Explains a filterset, where the first filterset is the value of `default()`, and the overrides set groups.
fn explain_parsed(
    alloc: Global,
    setting: &Setting<'_>,
    default: &Filterset,
    filter: &Filterset,
    overrides: &[GroupOverride<'_>],
    candidate: Candidate<'_>,
) -> Result<Answer, AllocError>
    requires no_default { has_leaf is_default default.now.compiled ≡ false }
    requires no_group { has_leaf is_group default.now.compiled ≡ false }
    requires compiled { IsCompiled setting.now.graph.now (tree_of filter.now.parsed) filter.now.compiled }
    ensures { IfOk result (λ answer. (basis : Basis setting.now) → basis.default ≡ default.now.compiled
        → basis.overrides ≡ overrides.now → ExplainsTree candidate.entry setting.now basis (tree_of filter.now.parsed)
        answer.ending (string_bytes answer.text)) }
{
    let context = EvalContext::new(&default.compiled);
    let compiled = CompiledTree {
        tree: &filter.parsed,
        compiled: &filter.compiled,
    };
    let graph = setting.graph;
    let explanation = explain(alloc, graph, compiled, &context, overrides, candidate)?;
    Ok(Answer {
        text: explain_text(alloc, &explanation)?,
        ending: unknown_ending(explanation.is_unknown()),
    })
}

/// Returns what is written below an explanation for a test that is ignored or not.
fn ignored_line(is_ignored: bool) -> &'static str
    ensures { result.now ≡ ignored_line is_ignored }
{
    if is_ignored {
        "ignored: not run without --run-ignored\n"
    } else {
        ""
    }
}

/// Explains the one filterset of these.
fn explain_compiled(
    alloc: Global,
    setting: &Setting<'_>,
    filtersets: &QuestionFiltersets,
    candidate: Candidate<'_>,
    is_ignored: bool,
) -> Result<Answer, AllocError>
    requires { (row : TextRow) × AreFiltersets setting.now.graph.now setting.now.groups.now setting.now
        (row ∷ []) filtersets.now }
    ensures { IfOk result (λ answer. (row : TextRow) → AreFiltersets setting.now.graph.now setting.now.groups.now
        setting.now (row ∷ []) filtersets.now → (basis : Basis setting.now) × (trees : List (Tree SourceSpan))
        × AllZip (IsTreeOf setting.now) (row ∷ []) trees
        × Explains candidate.entry is_ignored setting.now basis trees answer.ending (string_bytes answer.text)) }
{
    let compiled = &filtersets.setting;
    let filter = &filtersets.filters[0];
    let overrides = group_overrides(alloc, setting.overrides, compiled.overrides.as_slice())?;
    let mut answer = explain_parsed(
        alloc,
        setting,
        &compiled.default,
        filter,
        overrides.as_slice(),
        candidate,
    )?;
    answer.text.push_str(ignored_line(is_ignored))?;
    Ok(answer)
}

/// Explains a filterset for a binary or a test, or writes the faults of its text and of those of the setting. Below the
/// explanation it says so if the test `is_ignored`.
pub fn explain_filterset(
    alloc: Global,
    form: Form,
    setting: &Setting<'_>,
    filter: &str,
    candidate: Candidate<'_>,
    is_ignored: bool,
) -> Result<Answer, AllocError>
    ensures { IfOk result (λ answer. AnswersExplanation form setting.now filter.now candidate.entry is_ignored
        answer.ending (string_bytes answer.text)) }
{
    let entry = entry_of(alloc, "-E", FiltersetKind::Test, filter)?;
    match compile_texts(alloc, form, setting, slice::from_ref(&entry))? {
        CompiledTexts::Filtersets(filtersets) => {
            explain_compiled(alloc, setting, &filtersets, candidate, is_ignored)
        }
        CompiledTexts::Faults(text) => Ok(Answer {
            text,
            ending: Ending::Faulty,
        }),
    }
}

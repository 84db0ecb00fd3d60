//! The tests that a runner runs under a setting.
ghost use Rattle.std.specs.{Prelude.◌≡◌, Prelude.IfOk, Prelude.List, Prelude.false, Prelude.map, List.AllZip};
ghost use Rattle.filterset_expression.specs.Contexts.{default_of};
ghost use Rattle.filterset_expression.specs.Expression.{formula, has_leaf, is_default};
ghost use Rattle.filterset_expression.specs.Meaning.{IsCompiled};
ghost use Rattle.filterset_faults.specs.declared.span.SourceSpan.{SourceSpan};
ghost use Rattle.filterset_grammar.specs.Tree.{Tree};
ghost use Rattle.filterset_answers.specs.{Compiled.Basis, Picking.compiled_of, Picks.ArePicks};
ghost use Rattle.filterset_entries.specs.declared.setting.Setting as settings;

use filterset_listing::{AskedBinary, BinaryPicks, GroupOverride, list, selection_of};
use nextest_filtering::{CompiledExpr, EvalContext, Filterset};
use std::alloc::{AllocError, Global};

/// The tests that filtersets are asked about.
#[derive(Clone, Copy)]
pub struct AskedTests<'a, 't> {
    /// The default filter.
    pub context: &'a EvalContext<'a>,
    /// The overrides that say in which groups tests are.
    pub overrides: &'a [GroupOverride<'a>],
    pub binaries: &'t [AskedBinary<'t>],
}

/// Takes the compiled expressions of filtersets.
pub fn expressions_of(
    alloc: Global,
    filtersets: Vec<Filterset>,
) -> Result<Vec<CompiledExpr>, AllocError>
    ensures { IfOk result (λ exprs. exprs.items ≡ map compiled_of filtersets.items) }
{
    let mut exprs = Vec::with_capacity(alloc, filtersets.len())?;
    for filterset in filtersets {
        exprs.push(filterset.compiled)?;
    }
    Ok(exprs)
}

/// Copies the compiled expressions of filtersets.
pub fn copy_expressions(
    alloc: Global,
    filtersets: &[Filterset],
) -> Result<Vec<CompiledExpr>, AllocError>
    ensures { IfOk result (λ exprs. map formula exprs.items ≡ map formula (map compiled_of filtersets.now)) }
{
    let mut exprs = Vec::with_capacity(alloc, filtersets.len())?;
    for filterset in filtersets {
        exprs.push(filterset.compiled.try_clone(alloc)?)?;
    }
    Ok(exprs)
}

/// Returns the tests of each binary that a runner runs, given these filtersets.
pub fn picks_of<'g, 't>(
    alloc: Global,
    exprs: Vec<CompiledExpr>,
    ignores_default: bool,
    tests: AskedTests<'g, 't>,
) -> Result<Vec<BinaryPicks<'t, 'g>>, AllocError>
    ensures { IfOk result (λ all. (setting : settings.Setting) (basis : Basis setting) (trees : List (Tree SourceSpan))
        → basis.default ≡ default_of tests.entry.context.now → basis.overrides ≡ tests.entry.overrides.now
        → has_leaf is_default basis.default ≡ false
        → AllZip (IsCompiled setting.graph.now) trees exprs.items
        → ArePicks setting ignores_default tests.entry.binaries.now basis trees all.items) }
{
    let selection = selection_of(alloc, exprs, ignores_default)?;
    list(
        alloc,
        &selection,
        tests.context,
        tests.overrides,
        tests.binaries,
    )
}

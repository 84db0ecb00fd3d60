//! The values of a tree's nodes for each subject.
ghost use Rattle.std.specs.Prelude.{◌≡◌, IfOk, List, map, zip};
ghost use Rattle.filterset_expression.specs.Connectives.{kleene, kleene_not};
ghost use Rattle.filterset_expression.specs.{Contexts.default_of, Meaning.IsCompiled};
ghost use Rattle.filterset_faults.specs.declared.span.SourceSpan.{SourceSpan};
ghost use Rattle.filterset_grammar.specs.Tree.{Tree};
ghost use Rattle.filterset_graph.specs.declared.package.PackageMetadata.{PackageMetadata};
ghost use Rattle.filterset_language.specs.Views.{tree_of};
ghost use Rattle.filterset_listing.specs.Columns.{first_of, second_of, values_of, Fits, IsConnected};
ghost use Rattle.filterset_listing.specs.SubjectValues.{HasColumn};

use crate::operands::{negated_by, operands_of};
use crate::subjects::Subject;
use filterset_expression::{CompiledExpr, Connective, EvalContext, FlatExpr, Logic};
use filterset_language::ParsedExpr;
use std::alloc::{AllocError, Global};

/// What a tree is evaluated by and for.
#[derive(Clone, Copy)]
pub struct Asked<'a> {
    pub context: EvalContext<'a>,
    pub subjects: &'a [Subject<'a>],
}

/// The values of a tree for each subject, and those of its operands, or of a predicate what it is compiled to. Parentheses
/// have none of their own.
#[derive(Drop)]
pub enum Columns<'e> {
    Leaf(Vec<Option<bool>>, &'e CompiledExpr),
    One(Vec<Option<bool>>, Box<Columns<'e>>),
    Two(Vec<Option<bool>>, Box<Columns<'e>>, Box<Columns<'e>>),
}

impl<'e> Columns<'e> {
    /// Returns the values of the tree.
    pub fn values(&self) -> &[Option<bool>]
        ensures { result.now ≡ values_of self.now }
    {
        match self {
            Columns::Leaf(values, _) | Columns::One(values, _) | Columns::Two(values, _, _) =>
                values,
        }
    }

    /// Returns the columns of the first operand, and of a predicate its own.
    pub fn first(&self) -> &Columns<'e>
        ensures { result.now ≡ first_of self.now }
    {
        match self {
            Columns::One(_, operand) | Columns::Two(_, operand, _) => operand,
            Columns::Leaf(_, _) => self,
        }
    }

    /// Returns the columns of the second operand, and its own if there is none.
    pub fn second(&self) -> &Columns<'e>
        ensures { result.now ≡ second_of self.now }
    {
        match self {
            Columns::Two(_, _, operand) => operand,
            Columns::Leaf(_, _) | Columns::One(_, _) => self,
        }
    }
}

/// Returns the values of a predicate.
fn evaluate(
    alloc: Global,
    asked: &Asked<'_>,
    compiled: &CompiledExpr,
) -> Result<Vec<Option<bool>>, AllocError>
    ensures { IfOk result (λ values. (packages : List PackageMetadata) (e : Tree SourceSpan)
        → IsCompiled packages e compiled.now
        → HasColumn (record { packages = packages; default = default_of asked.now.context }) asked.now.subjects.now e values.items) }
{
    let all = CompiledExpr::ALL;
    let context = if compiled.has_default_leaf() {
        asked.context
    } else {
        // This is cheaper, and the values are the same.
        EvalContext::new(&all)
    };
    let flat = FlatExpr::new(alloc, compiled, &context)?;
    let mut values = Vec::with_capacity(alloc, asked.subjects.len())?;
    for subject in asked.subjects {
        values.push(subject.ask(alloc, &flat)?)?;
    }
    Ok(values)
}

/// Returns the values of a negation.
fn negated(alloc: Global, values: &[Option<bool>]) -> Result<Vec<Option<bool>>, AllocError>
    ensures { IfOk result (λ made. made.items ≡ map kleene_not values.now) }
{
    values.iter().map(|value| value.logic_not()).collect(alloc)
}

/// Returns what a connective makes of the values of two operands.
fn connected(
    alloc: Global,
    connective: Connective,
    left: &[Option<bool>],
    right: &[Option<bool>],
) -> Result<Vec<Option<bool>>, AllocError>
    ensures { IfOk result (λ made. made.items ≡ map (λ p. kleene connective p.0 p.1) (zip left.now right.now)) }
{
    let pairs = left.iter().zip(right);
    match connective {
        Connective::Conjunction => pairs
            .map(|(left, right)| left.logic_and(*right))
            .collect(alloc),
        Connective::Disjunction => pairs
            .map(|(left, right)| left.logic_or(*right))
            .collect(alloc),
        Connective::ExclusiveDisjunction => pairs
            .map(|(left, right)| left.logic_xor(*right))
            .collect(alloc),
    }
}

/// Returns the columns of an operator that connects these operands.
fn connect<'e>(
    alloc: Global,
    connective: Connective,
    left: Box<Columns<'e>>,
    right: Box<Columns<'e>>,
) -> Result<Box<Columns<'e>>, AllocError>
    ensures { IfOk result (λ columns. IsConnected connective left.entry.value right.entry.value columns.value) }
{
    let values = connected(alloc, connective, left.values(), right.values())?;
    Ok(Box::new(alloc, Columns::Two(values, left, right))?)
}

/// Evaluates a tree, which is compiled to the expression, and each of its operands. Each predicate is laid out once, and an
/// operator's values are computed from those of its operands.
pub fn columns_of<'e>(
    alloc: Global,
    asked: &Asked<'_>,
    tree: &ParsedExpr,
    compiled: &'e CompiledExpr,
) -> Result<Box<Columns<'e>>, AllocError>
    ensures { IfOk result (λ columns. (packages : List PackageMetadata) → IsCompiled packages (tree_of tree.now) compiled.now
        → Fits (record { packages = packages; default = default_of asked.now.context }) asked.now.subjects.now
        (tree_of tree.now) columns.value) }
{
    match tree {
        ParsedExpr::Not(_, operand) => {
            let operand = columns_of(alloc, asked, operand, negated_by(compiled))?;
            let values = negated(alloc, operand.values())?;
            Ok(Box::new(alloc, Columns::One(values, operand))?)
        }
        ParsedExpr::Union(_, left, right) => {
            let (first, second) = operands_of(compiled);
            let left = columns_of(alloc, asked, left, first)?;
            let right = columns_of(alloc, asked, right, second)?;
            connect(alloc, Connective::Disjunction, left, right)
        }
        ParsedExpr::Intersection(_, left, right) => {
            let (first, second) = operands_of(compiled);
            let left = columns_of(alloc, asked, left, first)?;
            let right = columns_of(alloc, asked, right, second)?;
            connect(alloc, Connective::Conjunction, left, right)
        }
        ParsedExpr::Difference(_, left, right) => {
            let (first, second) = operands_of(compiled);
            let left = columns_of(alloc, asked, left, first)?;
            let right = columns_of(alloc, asked, right, negated_by(second))?;
            let others = negated(alloc, right.values())?;
            let values = connected(alloc, Connective::Conjunction, left.values(), &others)?;
            Ok(Box::new(alloc, Columns::Two(values, left, right))?)
        }
        ParsedExpr::SymmetricDifference(_, left, right) => {
            let (first, second) = operands_of(compiled);
            let left = columns_of(alloc, asked, left, first)?;
            let right = columns_of(alloc, asked, right, second)?;
            connect(alloc, Connective::ExclusiveDisjunction, left, right)
        }
        ParsedExpr::Parens(inner) => columns_of(alloc, asked, inner, compiled),
        ParsedExpr::Set(_) => {
            let values = evaluate(alloc, asked, compiled)?;
            Ok(Box::new(alloc, Columns::Leaf(values, compiled))?)
        }
    }
}

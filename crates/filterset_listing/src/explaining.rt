//! Why a filterset picks a test or not: the value of each node of its tree.
ghost use Rattle.std.specs.{Prelude.◌≡◌, Prelude.IfOk, Prelude.OnOk, Prelude.is_some, Prelude.not, List.list_all};
ghost use Rattle.filterset_expression.specs.{Contexts.default_of, Meaning.IsCompiled};
ghost use Rattle.filterset_language.specs.Views.{tree_of};
ghost use Rattle.filterset_listing.specs.Columns.{values_of};
ghost use Rattle.filterset_listing.specs.Explaining.{AddsNode, Explains, IsExplanation, has_unknown, shared_value};
ghost use Rattle.filterset_listing.specs.SubjectValues.{may_be};

pub mod candidate;
pub mod packages;
pub mod text;

use crate::columns::{Asked, Columns, columns_of};
use crate::counting::add_count;
use crate::explaining::candidate::Candidate;
use crate::explaining::packages::NamedPackages;
use crate::groups::GroupOverride;
use crate::needless::may_be;
use crate::subjects::subjects_for;
use filterset_expression::{CompiledExpr, EvalContext};
use filterset_graph::PackageGraph;
use filterset_language::{ParsedExpr, ParsedNode};
use std::alloc::{AllocError, Global};

/// A tree, and what it is compiled to.
#[derive(Clone, Copy, Debug)]
pub struct CompiledTree<'t> {
    pub tree: &'t ParsedExpr,
    pub compiled: &'t CompiledExpr,
}

/// A node of a tree: a predicate, or an operator with its operands.
#[derive(Debug, Drop)]
pub struct ExplainedNode<'t> {
    /// The number of the operators above it.
    pub depth: usize,
    pub node: &'t ParsedExpr,
    /// For a test whether the node matches it, and for a binary what `matches_binary` returns. `None` is unknown: of a
    /// test, because of the platform of an override.
    pub value: Option<bool>,
    /// The packages that a predicate of packages matches.
    pub packages: Option<NamedPackages<'t>>,
}

/// Why a filterset picks a binary or a test, or not.
#[derive(Debug, Drop)]
pub struct Explanation<'t, 'g> {
    /// The nodes of the filterset's tree, each before its operands.
    pub nodes: Vec<ExplainedNode<'t>>,
    /// If a node of a test is unknown, the path of the override that this depends on: the first one that picks the test and
    /// whose platforms are unknown.
    pub unknown_platform: Option<&'g str>,
}

impl Explanation<'_, '_> {
    /// Returns whether a node is unknown because of the platform of an override.
    pub fn is_unknown(&self) -> bool
        ensures { result ≡ is_some self.now.unknown_platform }
    {
        self.unknown_platform.is_some()
    }
}

/// Returns whether none of these values may turn out to be this one.
fn none_may_be(values: &[Option<bool>], other: bool) -> bool
    ensures { result ≡ list_all (λ v. not (may_be v other)) values.now }
{
    values.iter().all(|value| !may_be(*value, other))
}

/// Returns the value that all of these are, or `None` if one is unknown or they differ.
fn shared_value(values: &[Option<bool>]) -> Option<bool>
    ensures { result ≡ shared_value values.now }
{
    if none_may_be(values, false) {
        return Some(true);
    }
    if none_may_be(values, true) {
        return Some(false);
    }
    None
}

/// Adds a node with the value that it has for all subjects.
fn push_node<'t>(
    nodes: &mut Vec<ExplainedNode<'t>>,
    depth: usize,
    node: &'t ParsedExpr,
    columns: &Columns<'_>,
    packages: Option<NamedPackages<'t>>,
) -> Result<(), AllocError>
    ensures { OnOk result (AddsNode depth (tree_of node.now) (shared_value (values_of columns.now)) packages.entry
        nodes.old.items nodes.new.items) }
{
    nodes.push(ExplainedNode {
        depth,
        node,
        value: shared_value(columns.values()),
        packages,
    })?;
    Ok(())
}

/// Adds the nodes of a tree, each before its operands, with the values that they have for all subjects.
fn push_nodes<'t>(
    alloc: Global,
    graph: &'t PackageGraph,
    depth: usize,
    node: &'t ParsedExpr,
    columns: &Columns<'_>,
    nodes: &mut Vec<ExplainedNode<'t>>,
) -> Result<(), AllocError>
    ensures { OnOk result (Explains graph.now depth (tree_of node.now) columns.now nodes.old.items nodes.new.items) }
{
    let below = add_count(depth, 1)?;
    match node.node() {
        ParsedNode::Not(_, operand) => {
            push_node(nodes, depth, node, columns, None)?;
            push_nodes(alloc, graph, below, operand, columns.first(), nodes)
        }
        ParsedNode::Union(_, left, right) | ParsedNode::Join(_, left, right) => {
            push_node(nodes, depth, node, columns, None)?;
            push_nodes(alloc, graph, below, left, columns.first(), nodes)?;
            push_nodes(alloc, graph, below, right, columns.second(), nodes)
        }
        ParsedNode::Parens(inner) => push_nodes(alloc, graph, depth, inner, columns, nodes),
        ParsedNode::Set(_) => {
            let packages = columns.packages(alloc, graph)?;
            push_node(nodes, depth, node, columns, packages)
        }
    }
}

/// Returns whether the value of a node is unknown.
fn has_unknown(nodes: &[ExplainedNode<'_>]) -> bool
    ensures { result ≡ has_unknown nodes.now }
{
    nodes.iter().any(|explained| explained.value.is_none())
}

/// Explains a filterset for a binary or a test: returns the nodes of its tree, each before its operands, with its value.
///
/// For a test a value is unknown if it depends on the group of the test, and that depends on the platform of an override.
/// Returns an error only if out of memory.
pub fn explain<'t, 'g>(
    alloc: Global,
    graph: &'t PackageGraph,
    filterset: CompiledTree<'t>,
    context: &EvalContext<'g>,
    overrides: &[GroupOverride<'g>],
    candidate: Candidate<'g>,
) -> Result<Explanation<'t, 'g>, AllocError>
    ensures { IfOk result (λ explanation. let tree = tree_of filterset.entry.tree.now in
        IsCompiled graph.now tree filterset.entry.compiled.now
        → IsExplanation candidate.entry overrides.now graph.now (default_of context.now) tree explanation) }
{
    let CompiledTree { tree, compiled } = filterset;
    let (subjects, path) = subjects_for(alloc, overrides, context, candidate)?;
    let asked = Asked {
        context: *context,
        subjects: &subjects,
    };
    let columns = columns_of(alloc, &asked, tree, compiled)?;
    let mut nodes = Vec::new(alloc);
    push_nodes(alloc, graph, 0, tree, &columns, &mut nodes)?;
    let unknown_platform = if has_unknown(&nodes) { path } else { None };
    Ok(Explanation {
        nodes,
        unknown_platform,
    })
}

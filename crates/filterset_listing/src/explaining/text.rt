//! Explanations as text.
ghost use Rattle.std.specs.Prelude.{◌≡◌, ◌++◌, ◌-◌, IfOk, OnOk, string_bytes};
ghost use Rattle.std.specs.List.{flat_map};
ghost use Rattle.filterset_language.specs.Views.{tree_of};
ghost use Rattle.filterset_listing.specs.ExplanationText.{explained_line, explanation_text, head, indented_by, packages_part};

use crate::counting::push_some;
use crate::explaining::packages::NamedPackages;
use crate::explaining::{ExplainedNode, Explanation};
use filterset_language::ParsedExpr;
use std::alloc::{AllocError, Global};
use std::fmt::Write;

/// Prints a node without its operands: an operator as the text spells it, or a predicate.
fn head(alloc: Global, node: &ParsedExpr) -> Result<String, AllocError>
    ensures { IfOk result (λ text. string_bytes text ≡ head (tree_of node.now)) }
{
    match node {
        ParsedExpr::Not(operator, _) => format!(in alloc; "{operator}"),
        ParsedExpr::Union(operator, _, _) => format!(in alloc; "{operator}"),
        ParsedExpr::Intersection(operator, _, _) => format!(in alloc; "{operator}"),
        ParsedExpr::Difference(operator, _, _) => format!(in alloc; "{operator}"),
        ParsedExpr::SymmetricDifference(operator, _, _) => format!(in alloc; "{operator}"),
        ParsedExpr::Parens(inner) => head(alloc, inner),
        ParsedExpr::Set(leaf) => format!(in alloc; "{leaf}"),
    }
}

/// Writes the packages that a predicate matches, if it is one of packages.
fn push_packages(
    output: &mut String,
    alloc: Global,
    packages: &Option<NamedPackages<'_>>,
) -> Result<(), AllocError>
    ensures { OnOk result (string_bytes output.new ≡ string_bytes output.old ++ packages_part packages.now) }
{
    if let Some(packages) = packages {
        let names = packages.names.join(alloc, ", ")?;
        write!(output, " (packages: {names}")?;
        push_some(output, " and ", packages.others, " more")?;
        output.push_str(")")?;
    }
    Ok(())
}

/// Writes what precedes a node.
fn indentation(alloc: Global, depth: usize) -> Result<String, AllocError>
    ensures { IfOk result (λ text. string_bytes text ≡ indented_by depth (depth - 32)) }
{
    match depth.saturating_sub(32) {
        0 => "  ".repeat(alloc, depth),
        _ => {
            let blanks = "  ".repeat(alloc, 32)?;
            format!(in alloc; "{blanks}[{depth}] ")
        }
    }
}

/// Writes the line of a node.
fn push_explained(
    output: &mut String,
    alloc: Global,
    explained: &ExplainedNode<'_>,
) -> Result<(), AllocError>
    ensures { OnOk result (string_bytes output.new ≡ string_bytes output.old ++ explained_line explained.now) }
{
    let indentation = indentation(alloc, explained.depth)?;
    let head = head(alloc, explained.node)?;
    let value = match explained.value {
        Some(true) => "yes",
        Some(false) => "no",
        None => "unknown",
    };
    write!(output, "{indentation}{head}: {value}")?;
    push_packages(output, alloc, &explained.packages)?;
    output.push('\n')
}

/// Writes the lines of nodes.
fn nodes_text(alloc: Global, nodes: &[ExplainedNode<'_>]) -> Result<String, AllocError>
    ensures { IfOk result (λ text. string_bytes text ≡ flat_map explained_line nodes.now) }
{
    let mut text = String::new(alloc);
    for explained in nodes {
        push_explained(&mut text, alloc, explained)?;
    }
    Ok(text)
}

/// Writes an explanation, a line a node: two blanks for each operator above the node, the operator as the text spells it
/// or the predicate as it prints, and the value, `yes`, `no` or `unknown`. A predicate of packages is followed by the
/// names of the first ten that it matches and the number of the others. If a node of a test is unknown, the last line says
/// because of the platform of which override.
///
/// A node under more than 32 operators is indented as one under 32, after their number in brackets. So the text of a long
/// chain grows with the number of its operands, and not with the square.
pub fn explain_text(alloc: Global, explanation: &Explanation<'_, '_>) -> Result<String, AllocError>
    ensures { IfOk result (λ text. string_bytes text ≡ explanation_text explanation.now) }
{
    let mut text = nodes_text(alloc, explanation.nodes.as_slice())?;
    if let Some(path) = explanation.unknown_platform {
        writeln!(text, "unknown: platform of {path}")?;
    }
    Ok(text)
}

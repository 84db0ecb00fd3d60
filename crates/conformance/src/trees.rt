//! Trees as rows write them.
use filterset_language::{ParsedExpr, ParsedLeaf};
use filterset_matchers::NameMatcher;
use std::alloc::{AllocError, Global};
use std::fmt::Write;

/// Whether the spans of predicates are written.
#[derive(Clone, Copy, PartialEq, Eq)]
pub enum Spans {
    Written,
    LeftOut,
}

/// Returns what a tree prints, or `no tree`.
pub fn print_tree(alloc: Global, tree: &Option<ParsedExpr>) -> Result<String, AllocError> {
    match tree {
        Some(tree) => format!(in alloc; "{tree}"),
        None => String::from_str(alloc, "no tree"),
    }
}

/// Returns all that a tree holds, as `Union(Pipe, all, Test[13,2] contains 'é' implicit)`, or `no tree`.
pub fn show_tree(
    alloc: Global,
    tree: &Option<ParsedExpr>,
    spans: Spans,
) -> Result<String, AllocError> {
    let mut text = String::new(alloc);
    match tree {
        Some(tree) => write_tree(&mut text, tree, spans)?,
        None => text.push_str("no tree")?,
    }
    Ok(text)
}

fn write_tree(text: &mut String, tree: &ParsedExpr, spans: Spans) -> Result<(), AllocError> {
    match tree {
        ParsedExpr::Set(leaf) => return write_leaf(text, leaf, spans),
        ParsedExpr::Not(operator, _) => write!(text, "Not({operator:?}, ")?,
        ParsedExpr::Parens(_) => text.push_str("Parens(")?,
        ParsedExpr::Union(operator, _, _) => write!(text, "Union({operator:?}, ")?,
        ParsedExpr::Intersection(operator, _, _) => write!(text, "Intersection({operator:?}, ")?,
        ParsedExpr::Difference(operator, _, _) => write!(text, "Difference({operator:?}, ")?,
        ParsedExpr::SymmetricDifference(operator, _, _) => {
            write!(text, "SymmetricDifference({operator:?}, ")?
        }
    }
    match tree {
        ParsedExpr::Set(_) => {}
        ParsedExpr::Not(_, operand) | ParsedExpr::Parens(operand) => {
            write_tree(text, operand, spans)?
        }
        ParsedExpr::Union(_, left, right)
        | ParsedExpr::Intersection(_, left, right)
        | ParsedExpr::Difference(_, left, right)
        | ParsedExpr::SymmetricDifference(_, left, right) => {
            write_tree(text, left, spans)?;
            text.push_str(", ")?;
            write_tree(text, right, spans)?;
        }
    }
    text.push(')')
}

fn write_leaf(text: &mut String, leaf: &ParsedLeaf, spans: Spans) -> Result<(), AllocError> {
    let (name, span, matcher) = match leaf {
        ParsedLeaf::Package(matcher, span) => ("Package", span, Some(matcher)),
        ParsedLeaf::Deps(matcher, span) => ("Deps", span, Some(matcher)),
        ParsedLeaf::Rdeps(matcher, span) => ("Rdeps", span, Some(matcher)),
        ParsedLeaf::Kind(matcher, span) => ("Kind", span, Some(matcher)),
        ParsedLeaf::Binary(matcher, span) => ("Binary", span, Some(matcher)),
        ParsedLeaf::BinaryId(matcher, span) => ("BinaryId", span, Some(matcher)),
        ParsedLeaf::Test(matcher, span) => ("Test", span, Some(matcher)),
        ParsedLeaf::Group(matcher, span) => ("Group", span, Some(matcher)),
        ParsedLeaf::Platform(_, span) => ("Platform", span, None),
        ParsedLeaf::Default(span) => ("Default", span, None),
        ParsedLeaf::All => return text.push_str("all"),
        ParsedLeaf::None => return text.push_str("none"),
    };
    text.push_str(name)?;
    if spans == Spans::Written {
        write!(text, "[{},{}]", span.offset(), span.len())?;
    }
    match (leaf, matcher) {
        (ParsedLeaf::Platform(platform, _), _) => write!(text, " {platform}"),
        (_, Some(matcher)) => write_matcher(text, matcher),
        _ => Ok(()),
    }
}

fn write_matcher(text: &mut String, matcher: &NameMatcher) -> Result<(), AllocError> {
    let (way, value, implicit) = match matcher {
        NameMatcher::Equal { value, implicit } => ("equal", value.as_str(), *implicit),
        NameMatcher::Contains { value, implicit } => ("contains", value.as_str(), *implicit),
        NameMatcher::Glob { glob, implicit } => ("glob", glob.as_str(), *implicit),
        NameMatcher::Regex(pattern) => ("regex", pattern.as_str(), false),
    };
    let sign = if implicit { " implicit" } else { "" };
    write!(text, " {way} '{value}'{sign}")
}

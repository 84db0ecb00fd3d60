//! Trees that are made in code: what they print, which are well formed, and the parentheses that they need.
use nextest_filtering::{
    AndOperator, BuildPlatform, DifferenceOperator, GenericGlob, NameMatcher, NotOperator,
    OrOperator, ParsedExpr, ParsedLeaf, PatternRegex, SourceSpan, SymmetricDifferenceOperator,
};
use std::alloc::{AllocError, Global};
use std::process::Abort;
use std::rc::Rc;
use std::test::Fail;

/// Returns whether the text is parsed to the tree, without a fault.
fn is_parsed_to(alloc: Global, text: &str, tree: &ParsedExpr) -> Result<bool, AllocError> {
    let parsed = ParsedExpr::parse_with_faults(alloc, text)?;
    Ok(match &parsed.tree {
        Some(found) => found == tree && parsed.faults.is_empty(),
        None => false,
    })
}

/// Returns whether the tree prints so, and both is well formed and comes back from its print, or neither.
fn is_printed(
    alloc: Global,
    tree: &ParsedExpr,
    print: &str,
    is_well_formed: bool,
) -> Result<bool, AllocError> {
    let found = format!(in alloc; "{tree}")?;
    Ok(
        found.as_str() == print
            && tree.is_well_formed() == is_well_formed
            && is_parsed_to(alloc, print, tree)? == is_well_formed,
    )
}

/// Makes a matcher by its sign.
fn make_matcher(
    alloc: Global,
    sign: char,
    value: &str,
    implicit: bool,
) -> Result<NameMatcher, Fail> {
    let value = String::from_str(alloc, value)?;
    Ok(match sign {
        '=' => NameMatcher::Equal { value, implicit },
        '~' => NameMatcher::Contains { value, implicit },
        '#' => NameMatcher::Glob {
            glob: GenericGlob::new(alloc, value)?,
            implicit,
        },
        _ => NameMatcher::Regex(Rc::new(alloc, PatternRegex::new(alloc, value)?)?),
    })
}

/// Makes a predicate by its name. `platform` is that of the host, and has no matcher.
fn make_leaf(name: &str, matcher: NameMatcher, span: SourceSpan) -> ParsedLeaf {
    match name {
        "package" => ParsedLeaf::Package(matcher, span),
        "deps" => ParsedLeaf::Deps(matcher, span),
        "rdeps" => ParsedLeaf::Rdeps(matcher, span),
        "kind" => ParsedLeaf::Kind(matcher, span),
        "binary" => ParsedLeaf::Binary(matcher, span),
        "binary_id" => ParsedLeaf::BinaryId(matcher, span),
        "test" => ParsedLeaf::Test(matcher, span),
        "group" => ParsedLeaf::Group(matcher, span),
        _ => ParsedLeaf::Platform(BuildPlatform::Host, span),
    }
}

/// A predicate by its name, the sign and the value of its matcher, and whether that has no sign; what it prints, and whether
/// it is well formed.
type PredicateRow = (&'static str, char, &'static str, bool, &'static str, bool);

static PREDICATES: [PredicateRow; 17] = [
    ("test", '~', "a", true, "test(a)", true),
    ("test", '~', "a", false, "test(~a)", true),
    ("test", '~', "", false, "test(~)", false),
    ("test", '#', "a", true, "test(a)", false),
    ("test", '/', "", false, "test(//)", true),
    ("test", '/', r"a\\", false, r"test(/a\\/)", false),
    ("kind", '=', "=/~", true, r"kind(\u{3d}\/~)", true),
    ("kind", '=', "", true, "kind()", false),
    ("kind", '~', "a", true, "kind(a)", false),
    ("package", '#', "{a,b}", true, r"package({a\,b})", true),
    ("package", '=', "a", true, "package(a)", false),
    ("deps", '#', "", false, "deps(#)", false),
    ("rdeps", '#', " *)", true, r"rdeps(\u{20}*\))", true),
    ("binary", '=', "é\t\\", false, r"binary(=\u{e9}\t\\)", true),
    ("binary_id", '~', ":", false, "binary_id(~:)", true),
    ("group", '/', "a/b", false, r"group(/a\/b/)", true),
    ("platform", '=', "", false, "platform(host)", true),
];

/// Returns whether the predicate of a row prints so, and is well formed if it is to be. Its span is the argument's.
fn is_right_predicate(alloc: Global, row: PredicateRow) -> Result<bool, Fail> {
    let (name, sign, value, implicit, print, is_well_formed) = row;
    let before = name.len().saturating_add(1);
    let around = before.saturating_add(1);
    let span = SourceSpan::new(before, print.len().saturating_sub(around));
    let matcher = make_matcher(alloc, sign, value, implicit)?;
    let tree = ParsedExpr::Set(make_leaf(name, matcher, span));
    Ok(is_printed(alloc, &tree, print, is_well_formed)?)
}

#[test]
fn predicates_are_well_formed_if_they_parse_back(rt: HostRuntime) -> Result<(), Fail> {
    for row in &PREDICATES {
        let is_right = is_right_predicate(rt.alloc(), *row)?;
        assert!(rt; is_right, "{}", row.4);
    }
    Ok(())
}

/// Joins two operands by an operator.
fn join(operator: &str, left: Box<ParsedExpr>, right: Box<ParsedExpr>) -> ParsedExpr {
    match operator {
        "or" => ParsedExpr::Union(OrOperator::LiteralOr, left, right),
        "|" => ParsedExpr::Union(OrOperator::Pipe, left, right),
        "+" => ParsedExpr::Union(OrOperator::Plus, left, right),
        "and" => ParsedExpr::Intersection(AndOperator::LiteralAnd, left, right),
        "&" => ParsedExpr::Intersection(AndOperator::Ampersand, left, right),
        "-" => ParsedExpr::Difference(DifferenceOperator::Minus, left, right),
        _ => ParsedExpr::SymmetricDifference(SymmetricDifferenceOperator::Caret, left, right),
    }
}

/// Makes the tree of a word, of the last of the trees before it. Returns `None` if there are too few.
fn make_node(word: &str, trees: &mut Vec<Box<ParsedExpr>>) -> Option<ParsedExpr> {
    match word {
        "all" => return Some(ParsedExpr::Set(ParsedLeaf::All)),
        "none" => return Some(ParsedExpr::Set(ParsedLeaf::None)),
        _ => {}
    }
    let operand = trees.pop()?;
    Some(match word {
        "not" => ParsedExpr::Not(NotOperator::LiteralNot, operand),
        "!" => ParsedExpr::Not(NotOperator::Exclamation, operand),
        "()" => ParsedExpr::Parens(operand),
        _ => join(word, trees.pop()?, operand),
    })
}

/// Makes the tree of a list of words, with each operator after its operands.
fn make_tree(alloc: Global, words: &str) -> Result<Option<Box<ParsedExpr>>, AllocError> {
    let mut trees = Vec::new(alloc);
    for word in words.split(" ") {
        let Some(tree) = make_node(word, &mut trees) else {
            return Ok(None);
        };
        trees.push(Box::new(alloc, tree)?)?;
    }
    Ok(trees.pop())
}

/// Trees, what each prints, and if it needs parentheses, what it prints with them.
const TREES: &str = "all ! not -> not ! all()
all none or not -> not all() or none() -> not (all() or none())
all none & ! -> ! all() & none() -> ! (all() & none())
all none - () not -> not (all() - none())
all none ^ all and -> all() ^ none() and all()
all none all - - -> all() - none() - all() -> all() - (none() - all())
all none all and ^ -> all() ^ none() and all() -> all() ^ (none() and all())
all none + all & -> all() + none() & all() -> (all() + none()) & all()
all none all | - -> all() - none() | all() -> all() - (none() | all())
all none or all | -> all() or none() | all()
all none all | + -> all() + none() | all() -> all() + (none() | all())
all none all ^ or -> all() or none() ^ all()
all none & all or -> all() & none() or all()
all not none - -> not all() - none()
all () () -> ((all()))
all none or not none all | all - ^ ! -> ! not all() or none() ^ none() | all() - all() -> \
! (not (all() or none()) ^ ((none() | all()) - all()))";

/// Returns whether the tree prints so, with and without the parentheses that it needs, and is well formed if it needs none.
fn is_right_tree(
    alloc: Global,
    tree: &ParsedExpr,
    print: &str,
    with_parens: &str,
) -> Result<bool, AllocError> {
    let new = tree.with_parens(alloc)?;
    Ok(
        is_printed(alloc, tree, print, print == with_parens)?
            && is_printed(alloc, &new, with_parens, true)?,
    )
}

#[test]
fn trees_are_well_formed_if_they_need_no_parentheses(rt: HostRuntime) -> Result<(), Fail> {
    for line in TREES.lines() {
        let mut parts = line.split(" -> ");
        let words = parts.next().unwrap_or(line);
        let print = parts.next().unwrap_or(line);
        let with_parens = parts.next().unwrap_or(print);
        let is_right = match make_tree(rt.alloc(), words)? {
            Some(tree) => is_right_tree(rt.alloc(), &tree, print, with_parens)?,
            None => false,
        };
        assert!(rt; is_right, "{line}");
    }
    Ok(())
}

//! What predicates mean, in words, as Markdown.
ghost use Rattle.std.specs.Prelude.{◌≡◌, ◌++◌, IfOk, string_bytes};
ghost use Rattle.filterset_language.specs.Views.{leaf_of};
ghost use Rattle.filterset_matchers.specs.Matchers.{matcher_of};
ghost use Rattle.filterset_offers.specs.Words.{backticks, code_span, leaf_text, leaf_words, margin, matcher_words, matching_words, words_before, words_behind};

use filterset_language::{ParsedLeaf, Predicate};
use filterset_matchers::NameMatcher;
use std::alloc::{AllocError, Global};

/// Returns the backticks of a text.
fn backticks_of(alloc: Global, text: &[u8]) -> Result<String, AllocError>
    ensures { IfOk result (λ ticks. string_bytes ticks ≡ backticks text.now) }
{
    let mut ticks = String::new(alloc);
    for byte in text {
        if *byte == b'`' {
            ticks.push_str("`")?;
        }
    }
    Ok(ticks)
}

/// Returns what is between a text and the delimiters of its code span.
fn margin_of(ticks: &str, text: &[u8]) -> &'static str
    ensures { result.now ≡ margin ticks.now text.now }
{
    if ticks.is_empty() && (text.is_empty() || text[0] != b' ') {
        ""
    } else {
        " "
    }
}

/// Makes the code span of a text.
pub(crate) fn code_span(alloc: Global, text: &str) -> Result<String, AllocError>
    ensures { IfOk result (λ code. string_bytes code ≡ code_span text.now) }
{
    let ticks = backticks_of(alloc, text.as_bytes())?;
    let blank = margin_of(ticks.as_str(), text.as_bytes());
    format!(in alloc; "`{ticks}{blank}{text}{blank}{ticks}`")
}

/// Returns what comes before the text of a matcher, and that text.
fn matcher_parts(matcher: &NameMatcher) -> (&'static str, &str)
    ensures { matcher_words (matcher_of matcher.now) ≡ result.0.now ++ code_span result.1.now }
{
    match matcher {
        NameMatcher::Equal { value, .. } => ("is ", value.as_str()),
        NameMatcher::Contains { value, .. } => ("contains ", value.as_str()),
        NameMatcher::Glob { glob, .. } => ("matches the glob ", glob.as_str()),
        NameMatcher::Regex(pattern) => (
            "contains a match of the regular expression ",
            pattern.as_str(),
        ),
    }
}

/// Returns what comes before the words of a matcher.
fn words_before(predicate: Predicate) -> &'static str
    ensures { result.now ≡ words_before predicate }
{
    match predicate {
        Predicate::Package | Predicate::Deps | Predicate::Rdeps => {
            "Tests of workspace packages whose name "
        }
        Predicate::Kind => "Tests of binaries whose kind ",
        Predicate::Binary => "Tests of binaries whose name ",
        Predicate::BinaryId => "Tests of binaries whose id ",
        Predicate::Test => "Tests whose name ",
        Predicate::Group => "Tests in groups whose name ",
    }
}

/// Returns what comes after the words of a matcher.
fn words_behind(predicate: Predicate) -> &'static str
    ensures { result.now ≡ words_behind predicate }
{
    match predicate {
        Predicate::Deps => ", and of workspace packages that these depend on, directly or not.",
        Predicate::Rdeps => ", and of workspace packages that depend on these, directly or not.",
        Predicate::Package
        | Predicate::Kind
        | Predicate::Binary
        | Predicate::BinaryId
        | Predicate::Test
        | Predicate::Group => ".",
    }
}

/// Says which tests a predicate with a matcher picks.
fn matching_words(
    alloc: Global,
    predicate: Predicate,
    matcher: &NameMatcher,
) -> Result<String, AllocError>
    ensures { IfOk result (λ words. string_bytes words ≡ matching_words predicate (matcher_of matcher.now)) }
{
    let (verb, text) = matcher_parts(matcher);
    let code = code_span(alloc, text)?;
    let (before, behind) = (words_before(predicate), words_behind(predicate));
    format!(in alloc; "{before}{verb}{code}{behind}")
}

/// Says which tests a predicate picks.
fn leaf_words(alloc: Global, leaf: &ParsedLeaf) -> Result<String, AllocError>
    ensures { IfOk result (λ words. string_bytes words ≡ leaf_words (leaf_of leaf.now)) }
{
    match leaf {
        ParsedLeaf::Package(matcher, _) => matching_words(alloc, Predicate::Package, matcher),
        ParsedLeaf::Deps(matcher, _) => matching_words(alloc, Predicate::Deps, matcher),
        ParsedLeaf::Rdeps(matcher, _) => matching_words(alloc, Predicate::Rdeps, matcher),
        ParsedLeaf::Kind(matcher, _) => matching_words(alloc, Predicate::Kind, matcher),
        ParsedLeaf::Binary(matcher, _) => matching_words(alloc, Predicate::Binary, matcher),
        ParsedLeaf::BinaryId(matcher, _) => matching_words(alloc, Predicate::BinaryId, matcher),
        ParsedLeaf::Test(matcher, _) => matching_words(alloc, Predicate::Test, matcher),
        ParsedLeaf::Group(matcher, _) => matching_words(alloc, Predicate::Group, matcher),
        ParsedLeaf::Platform(platform, _) => {
            format!(in alloc; "Tests of binaries that are built for the {platform}.")
        }
        ParsedLeaf::Default(_) => String::from_str(alloc, "Tests that the default filter picks."),
        ParsedLeaf::All => String::from_str(alloc, "All tests."),
        ParsedLeaf::None => String::from_str(alloc, "No tests."),
    }
}

/// Writes a predicate as it prints, and below it which tests it picks.
pub(crate) fn leaf_text(alloc: Global, leaf: &ParsedLeaf) -> Result<String, AllocError>
    ensures { IfOk result (λ text. string_bytes text ≡ leaf_text (leaf_of leaf.now)) }
{
    let printed = format!(in alloc; "{leaf}")?;
    let code = code_span(alloc, printed.as_str())?;
    let words = leaf_words(alloc, leaf)?;
    format!(in alloc; "**{code}**\n\n{words}")
}

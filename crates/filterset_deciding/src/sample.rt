//! Texts that matchers are likely to match. No clause says that they do: whoever makes one asks the matcher.
use filterset_glob::GlobToken;
use filterset_matchers::NameMatcher;
use std::alloc::AllocError;

/// How samples of several matchers become one text.
#[derive(Clone, Copy)]
pub(crate) struct Style {
    /// The text between two samples.
    pub separator: &'static str,
    /// The text that a `*` matches, and that follows a text that has to be contained.
    pub filler: &'static str,
}

/// Where a pattern is read.
#[derive(Clone, Copy)]
enum Place {
    Plain,
    /// Behind a backslash.
    Escape,
    /// Behind the `[` of a class.
    Class,
    /// In a part that is skipped, up to this character.
    Skipped(char),
}

/// Appends a sample of a glob.
fn push_from_glob(text: &mut String, tokens: &[GlobToken], style: Style) -> Result<(), AllocError> {
    for token in tokens {
        match token {
            GlobToken::Literal(c) => text.push(*c)?,
            GlobToken::AnyChar => text.push('_')?,
            GlobToken::Star => text.push_str(style.filler)?,
            GlobToken::DeepFirst => {}
            // the first of its ranges, or an underscore if the class is negated
            GlobToken::Class { negated, ranges } => match ranges.first() {
                Some((low, _)) if !*negated => text.push(*low)?,
                _ => text.push('_')?,
            },
            GlobToken::Alternates(branches) => {
                if let Some(branch) = branches.first() {
                    push_from_glob(text, &branch.tokens, style)?;
                }
            }
            GlobToken::DeepMid | GlobToken::DeepLast => text.push('/')?,
        }
    }
    Ok(())
}

/// Returns the character of a sample for a character of a pattern, if there is one, and where the next character is.
fn step_pattern(place: Place, c: char) -> (Option<char>, Place) {
    match (place, c) {
        (Place::Plain, '\\') => (None, Place::Escape),
        (Place::Plain, '[') => (None, Place::Class),
        (Place::Plain, '{') => (None, Place::Skipped('}')),
        (Place::Plain, '|') => (None, Place::Skipped(')')),
        (Place::Plain, '.') => (Some('x'), Place::Plain),
        (Place::Plain, '^' | '$' | '(' | ')' | '*' | '+' | '?') => (None, Place::Plain),
        (Place::Escape, 'd') => (Some('0'), Place::Plain),
        (Place::Escape, 'w') => (Some('x'), Place::Plain),
        (Place::Escape, 's') => (Some(' '), Place::Plain),
        (Place::Escape, 'A' | 'b' | 'B' | 'z') => (None, Place::Plain),
        (Place::Plain | Place::Escape, _) => (Some(c), Place::Plain),
        (Place::Class, '^') => (Some('_'), Place::Skipped(']')),
        (Place::Class, _) => (Some(c), Place::Skipped(']')),
        (Place::Skipped(end), _) if c == end => (None, Place::Plain),
        (Place::Skipped(_), _) => (None, place),
    }
}

/// Appends a sample of a pattern: its literals, the first character of each class, and of each choice the first.
fn push_from_pattern(text: &mut String, pattern: &str) -> Result<(), AllocError> {
    let mut place = Place::Plain;
    for c in pattern.chars() {
        let (pushed, next) = step_pattern(place, c);
        if let Some(sample) = pushed {
            text.push(sample)?;
        }
        place = next;
    }
    Ok(())
}

/// Appends a sample of a matcher.
pub(crate) fn push_sample(
    text: &mut String,
    matcher: &NameMatcher,
    style: Style,
) -> Result<(), AllocError> {
    match matcher {
        NameMatcher::Equal { value, .. } => text.push_str(value.as_str()),
        NameMatcher::Contains { value, .. } => {
            text.push_str(value.as_str())?;
            text.push_str(style.filler)
        }
        NameMatcher::Glob { glob, .. } => push_from_glob(text, glob.tokens(), style),
        NameMatcher::Regex(pattern) => push_from_pattern(text, pattern.as_str()),
    }
}

//! Globs and patterns.
use crate::tests::copies::copy;
use crate::tests::filtersets::ask;
use nextest_filtering::{GenericGlob, GlobRefusal, NameMatcher, PatternRefusal, PatternRegex};
use std::alloc::AllocError;
use std::process::Abort;
use std::rc::Rc;
use std::test::Fail;

/// Matches a text that repeats a piece by a copy of a glob.
fn match_glob(
    rt: &(impl AllocGlobal + Abort),
    text: &str,
    piece: &str,
    count: usize,
    wanted: bool,
) -> Result<(), AllocError> {
    let alloc = rt.alloc();
    let name = piece.repeat(alloc, count)?;
    match GenericGlob::new(alloc, String::from_str(alloc, text)?) {
        Ok(glob) => {
            let copy = glob.try_clone(alloc)?;
            assert!(rt; copy.is_match(alloc, name.as_str())? == wanted, "{text}");
            assert!(rt; copy == glob && copy.as_str() == text);
            Ok(())
        }
        Err(GlobRefusal::Fault(fault)) => panic!(rt; "{text}: {fault:?}"),
        Err(GlobRefusal::OutOfMemory(error)) => Err(error),
    }
}

/// Globs, texts that repeat a piece so many times, and whether they match: texts of one word of bits and of several,
/// with characters of several bytes, and globs with groups, of which each character of the text has several readings.
static GLOBS: [(&str, &str, usize, bool); 8] = [
    ("{a/**,[b-c]}/d*", "a/x/de", 1, true),
    ("*xx?[w-y]*", "x", 63, true),
    ("*xx?[w-y]*a", "x", 64, false),
    ("*/**/x[!x]", "/x", 100, false),
    ("*é€[~-é]*", "é€", 40, true),
    ("?é€[~-é]", "é€", 2, false),
    ("{*ab,{a*,}b}{a,ab}*", "ab", 100, true),
    ("{*ab,{a*,}b}c", "ab", 20, false),
];

/// Matches a name by a pattern that matches it, in each way, and copies the matcher.
fn match_pattern(rt: &(impl AllocGlobal + Abort), text: &str) -> Result<(), AllocError> {
    let alloc = rt.alloc();
    assert!(rt; PatternRegex::is_pattern(alloc, text)?, "{text}");
    match PatternRegex::new(alloc, String::from_str(alloc, text)?) {
        Ok(pattern) => {
            assert!(rt; pattern.is_match(alloc, "xa/cy")?, "{text}");
            assert!(rt; pattern.is_match_at_once("xa/cy") != Some(false), "{text}");
            let mut kept = pattern.matcher(alloc)?;
            assert!(rt; kept.is_match("xa/cy") && !kept.is_match("") && kept.is_match("xa/cy"));
            drop(kept);
            let matcher = NameMatcher::Regex(Rc::new(alloc, pattern)?);
            assert!(rt; matcher.try_clone(alloc)? == matcher, "{text}");
            Ok(())
        }
        Err(PatternRefusal::NotBuilt) => panic!(rt; "{text} is a pattern"),
        Err(PatternRefusal::OutOfMemory(_)) => Err(AllocError),
    }
}

/// Matches by globs and by patterns.
fn match_names(rt: &(impl AllocGlobal + Abort)) -> Result<(), AllocError> {
    for (text, piece, count, wanted) in &GLOBS {
        match_glob(rt, text, piece, *count, *wanted)?;
    }
    for text in [
        "a/(b|c)", "^xa", "cy$", "xa/[a-z]", "a/b|a/c", "a/c", "a\\/c",
    ] {
        match_pattern(rt, text)?;
    }
    for text in ["(", "a{", "[b-a]", "\\"] {
        assert!(rt; !PatternRegex::is_pattern(rt.alloc(), text)?, "{text}");
    }
    Ok(())
}

#[test]
fn matches_or_wants_memory(rt: HostRuntime) {
    let _ = match_names(&rt);
}

#[test]
fn calls_return_if_there_is_memory(rt: HostRuntime) -> Result<(), Fail> {
    match_names(&rt)?;
    copy(&rt)?;
    ask(&rt)?;
    Ok(())
}

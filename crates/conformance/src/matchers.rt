//! Rows of matchers: how a matcher prints, and the names that it matches.
use crate::report::Report;
use filterset_glob::{GenericGlob, GlobRefusal};
use filterset_json::{EntryRefusal, check_keys, given, optional, required};
use filterset_matchers::{NameMatcher, PatternRefusal, PatternRegex};
use serde_json::Value;
use std::alloc::Global;
use std::rc::Rc;

/// Puts a row to the library: its matcher, and a copy of it.
pub fn try_matcher(report: &mut Report, row: &Value) -> Result<(), EntryRefusal> {
    let alloc = report.alloc;
    report.begin("matcher");
    let names = [
        "matcher", "value", "implicit", "refused", "print", "matches", "misses",
    ];
    check_keys(alloc, row, &names)?;
    let value = required::<String>(alloc, row, "value")?;
    let refused = optional(alloc, row, "refused", false)?;
    let print = given::<String>(alloc, row, "print")?;
    let matches = optional::<Vec<String>>(alloc, row, "matches", Vec::new(alloc))?;
    let misses = optional::<Vec<String>>(alloc, row, "misses", Vec::new(alloc))?;

    let text = value.as_str();
    let Some(matcher) = make_matcher(alloc, row, value.clone()?)? else {
        return Ok(report.note(refused, "value", text, "refused")?);
    };
    report.note(!refused, "value", text, "not refused")?;
    let copy = matcher.try_clone(alloc)?;
    let shown = format!(in alloc; "{matcher}")?;
    report.compare("print", shown.as_str(), &shown, &print)?;
    let copied = format!(in alloc; "{copy}")?;
    report.note(copied == shown, "copy", shown.as_str(), copied.as_str())?;
    for (what, names, wanted) in [("match", &matches, true), ("miss", &misses, false)] {
        for name in names {
            let answer = matcher.is_match(alloc, name.as_str())?;
            let copied = copy.is_match(alloc, name.as_str())?;
            let same = answer == wanted && copied == wanted;
            report.note(same, what, shown.as_str(), name.as_str())?;
        }
    }
    Ok(())
}

/// Makes the matcher of the row. Returns `None` if its value is refused.
fn make_matcher(
    alloc: Global,
    row: &Value,
    value: String,
) -> Result<Option<NameMatcher>, EntryRefusal> {
    let implicit = optional(alloc, row, "implicit", false)?;
    match required::<String>(alloc, row, "matcher")?.as_str() {
        "equal" => Ok(Some(NameMatcher::Equal { value, implicit })),
        "contains" => Ok(Some(NameMatcher::Contains { value, implicit })),
        "glob" => match GenericGlob::new(alloc, value) {
            Ok(glob) => Ok(Some(NameMatcher::Glob { glob, implicit })),
            Err(GlobRefusal::Fault(_)) => Ok(None),
            Err(GlobRefusal::OutOfMemory(refused)) => Err(EntryRefusal::from(refused)),
        },
        "regex" => match PatternRegex::new(alloc, value) {
            Ok(pattern) => Ok(Some(NameMatcher::Regex(Rc::new(alloc, pattern)?))),
            Err(PatternRefusal::NotBuilt) => Ok(None),
            Err(PatternRefusal::OutOfMemory(refused)) => Err(EntryRefusal::from(refused)),
        },
        _ => Err(EntryRefusal::wrong(alloc, "a kind of matchers")),
    }
}

//! Texts that meet demands: whether there is one.
ghost use Rattle.std.specs.Prelude.{◌≡◌, ◌↔◌, ◌<◌, ◌++◌, ℕ, List, Contains, IfNone, IfOk, IfSome, IsTrue, IsUtf8, OnOk, string_bytes, false, true};
ghost use Rattle.filterset_deciding.specs.Texts.{AreComparisons, AreSimple, IsSimple, Meets, NoneEqual, joined, part_of};
ghost use Rattle.filterset_deciding.specs.Sought.{IsSoughtOf};

use crate::demand::{Demand, TestField};
use crate::literals::literal_of;
use crate::sample::{Style, push_sample};
use crate::seeking::{Effort, seek_text};
use filterset_matchers::NameMatcher;
use std::alloc::{AllocError, Global};

/// The styles in which samples are tried.
const STYLES: [Style; 7] = [
    Style {
        separator: "",
        filler: "",
    },
    Style {
        separator: "_",
        filler: "",
    },
    Style {
        separator: "::",
        filler: "",
    },
    Style {
        separator: " ",
        filler: "",
    },
    Style {
        separator: "_",
        filler: "x",
    },
    Style {
        separator: "::",
        filler: "::x",
    },
    Style {
        separator: "_",
        filler: "_0",
    },
];

/// The kinds of test binaries.
const KINDS: [&str; 6] = ["lib", "test", "bin", "example", "bench", "proc-macro"];

/// The groups that are tried if no leaf asks for one.
const GROUPS: [&str; 2] = ["@global", "other"];

/// The names that are tried if no leaf asks for one.
const NAMES: [&str; 6] = ["other", "x", "q_1", "-", "0", "~"];

/// What was found about texts that meet demands.
#[derive(Drop)]
pub(crate) enum Sought {
    /// This one does.
    Text(String),
    /// None does.
    Nothing,
    /// It is not known whether one does: some matcher is not searched.
    Unknown,
    /// The search was stopped before its end.
    Stopped,
}

/// Returns the texts that are tried first.
fn fillers(field: TestField) -> &'static [&'static str] {
    match field {
        TestField::Kind => KINDS.as_slice(),
        TestField::Group => GROUPS.as_slice(),
        TestField::BinaryName | TestField::BinaryId | TestField::TestName => NAMES.as_slice(),
    }
}

/// Returns whether the text meets all demands.
fn meets(alloc: Global, text: &str, demands: &[Demand<'_>]) -> Result<bool, AllocError>
    ensures { IfOk result (λ met. IsTrue met ↔ Meets text.now demands.now) }
{
    for demand in demands {
        let is_matched = demand.matcher.is_match(alloc, text)?;
        if is_matched != demand.is_matched {
            return Ok(false);
        }
    }
    Ok(true)
}

/// Returns the only text that can meet the demands, if some matcher that has to match matches that one alone.
fn only_text<'x>(alloc: Global, demands: &[Demand<'x>]) -> Result<Option<&'x str>, AllocError>
    ensures only { IfOk result (λ found. IfSome found (λ only. (text : List ℕ) → IsUtf8 text
        → Meets text demands.now → text ≡ only.now)) }
    ensures none { IfOk result (λ found. IfNone found (NoneEqual demands.now)) }
{
    for demand in demands {
        if !demand.is_matched {
            continue;
        }
        if let Some(text) = literal_of(alloc, demand.matcher)? {
            return Ok(Some(text));
        }
    }
    Ok(None)
}

/// Returns the first of the texts that are tried first that meets the demands.
fn try_fillers(
    alloc: Global,
    field: TestField,
    demands: &[Demand<'_>],
) -> Result<Option<String>, AllocError>
    ensures { IfOk result (λ found. IfSome found (λ text. Meets (string_bytes text) demands.now)) }
{
    for filler in fillers(field) {
        if meets(alloc, filler, demands)? {
            return Ok(Some(String::from_str(alloc, filler)?));
        }
    }
    Ok(None)
}

/// Joins samples of the matchers that have to match.
fn join_samples(alloc: Global, demands: &[Demand<'_>], style: Style) -> Result<String, AllocError> {
    let mut text = String::new(alloc);
    for demand in demands {
        if demand.is_matched && !demand.matcher.is_match(alloc, text.as_str())? {
            if !text.is_empty() {
                text.push_str(style.separator)?;
            }
            push_sample(&mut text, demand.matcher, style)?;
        }
    }
    Ok(text)
}

/// Returns the first text of samples that meets the demands.
fn try_samples(alloc: Global, demands: &[Demand<'_>]) -> Result<Option<String>, AllocError>
    ensures { IfOk result (λ found. IfSome found (λ text. Meets (string_bytes text) demands.now)) }
{
    for style in STYLES {
        let text = join_samples(alloc, demands, style)?;
        if meets(alloc, text.as_str(), demands)? {
            return Ok(Some(text));
        }
    }
    Ok(None)
}

/// Returns whether the text has not this ASCII character, unless it has to match.
fn is_free(is_matched: bool, text: &str, c: u8) -> bool
    ensures { IsTrue result ↔ (is_matched ≡ false → ¬ Contains text.now c) }
{
    if is_matched {
        return true;
    }
    !text.as_bytes().contains(&c)
}

/// Returns whether the matcher compares texts, and has not this character where it must not match.
fn is_simple(demand: Demand<'_>, c: u8) -> bool
    ensures { IsTrue result ↔ IsSimple c demand.entry }
{
    match demand.matcher {
        NameMatcher::Equal { value, .. } => is_free(demand.is_matched, value.as_str(), c),
        NameMatcher::Contains { value, .. } => is_free(demand.is_matched, value.as_str(), c),
        NameMatcher::Glob { .. } => false,
        NameMatcher::Regex(_) => false,
    }
}

/// Returns whether all demands are simple for this character.
fn are_simple(demands: &[Demand<'_>], c: u8) -> bool
    ensures { IsTrue result ↔ AreSimple c demands.now }
{
    for demand in demands {
        if !is_simple(*demand, c) {
            return false;
        }
    }
    true
}

/// Returns a printable character that no matcher has which must not match, if all matchers compare texts.
fn find_separator(demands: &[Demand<'_>]) -> Option<u8>
    ensures some { IfSome result (λ c. (c < 128) × AreSimple c demands.now) }
    ensures none { IfNone result (¬ AreComparisons demands.now) }
{
    for c in 33..127 {
        if are_simple(demands, c) {
            return Some(c);
        }
    }
    None
}

/// Appends the character and the text that has to be contained, if one has.
fn push_part(text: &mut String, c: u8, demand: Demand<'_>) -> Result<(), AllocError>
    requires { c < 128 }
    ensures { OnOk result (string_bytes text.new ≡ string_bytes text.old ++ part_of c demand.entry) }
{
    let NameMatcher::Contains { value, .. } = demand.matcher else {
        return Ok(());
    };
    if !demand.is_matched {
        return Ok(());
    }
    text.push(c as char)?;
    text.push_str(value.as_str())
}

/// Joins all texts that have to be contained, with the character before each and after the last.
fn join_parts(alloc: Global, demands: &[Demand<'_>], c: u8) -> Result<String, AllocError>
    requires { c < 128 }
    ensures { IfOk result (λ text. string_bytes text ≡ joined c demands.now) }
{
    let mut text = String::new(alloc);
    for demand in demands {
        push_part(&mut text, c, *demand)?;
    }
    text.push(c as char)?;
    Ok(text)
}

/// Returns the text if it meets the demands, as it does if any text does.
fn take_if_met(alloc: Global, text: String, demands: &[Demand<'_>]) -> Result<Sought, AllocError>
    requires { (any : List ℕ) → IsUtf8 any → Meets any demands.now → Meets (string_bytes text) demands.now }
    ensures { IfOk result (IsSoughtOf demands.now) }
{
    if !meets(alloc, text.as_str(), demands)? {
        return Ok(Sought::Nothing);
    }
    Ok(Sought::Text(text))
}

/// Looks for a text that meets the demands, first among those that are easy to read. The only error is out of memory.
pub(crate) fn find_text(
    alloc: Global,
    field: TestField,
    demands: &[Demand<'_>],
    effort: &mut Effort,
) -> Result<Sought, AllocError>
    ensures { IfOk result (IsSoughtOf demands.now) }
{
    if let Some(text) = only_text(alloc, demands)? {
        let only = String::from_str(alloc, text)?;
        return take_if_met(alloc, only, demands);
    }
    if let Some(text) = try_fillers(alloc, field, demands)? {
        return Ok(Sought::Text(text));
    }
    if let Some(text) = try_samples(alloc, demands)? {
        return Ok(Sought::Text(text));
    }
    let Some(c) = find_separator(demands) else {
        return seek_text(alloc, demands, effort);
    };
    let parts = join_parts(alloc, demands, c)?;
    take_if_met(alloc, parts, demands)
}

//! How overrides apply to a test, as text.
ghost use Rattle.std.specs.Prelude.{◌≡◌, ◌++◌, IfOk, OnOk, map, string_bytes};
ghost use Rattle.filterset_overrides.specs.ExplainedText.{application_text, giver_text, indented, override_lines, reason_at, test_overrides_text};

use crate::applying::{Application, ExplainedOverride};
use crate::explaining::{ExplainedSetting, Giver, TestOverrides};
use std::alloc::{AllocError, Global};
use std::fmt::Write;

/// Returns the words for how an override applies.
fn application_text(application: Application) -> &'static str
    ensures { result.now ≡ application_text application }
{
    match application {
        Application::Applies => "applies",
        Application::NotPicked => "does not apply: filter",
        Application::OtherPlatform => "does not apply: platform",
        Application::UnknownPlatform => "unknown: platform",
    }
}

/// Writes each line of a text, moved right by two blanks.
fn push_indented(output: &mut String, text: &str) -> Result<(), AllocError>
    ensures { OnOk result (string_bytes output.new ≡ string_bytes output.old ++ indented text.now) }
{
    for line in text.lines() {
        writeln!(output, "  {line}")?;
    }
    Ok(())
}

/// Returns the reason at this place, or an empty text if there are not as many.
fn reason_at(reasons: &[String], at: usize) -> &str
    ensures { result.now ≡ reason_at reasons.now at }
{
    match reasons.get(at) {
        Some(reason) => reason.as_str(),
        None => "",
    }
}

/// Writes how each override applies, a line each, and its reason below.
fn push_overrides(
    output: &mut String,
    all: &[ExplainedOverride<'_>],
    reasons: &[String],
) -> Result<(), AllocError>
    ensures { OnOk result (string_bytes output.new
        ≡ string_bytes output.old ++ override_lines all.now (map (λ s. string_bytes s) reasons.now)) }
{
    for (at, explained) in all.iter().enumerate() {
        let path = explained.asked.path;
        let application = application_text(explained.application);
        writeln!(output, "{path}: {application}")?;
        push_indented(output, reason_at(reasons, at))?;
    }
    Ok(())
}

/// Returns the words for what gives a setting: a name, and what is before it.
fn giver_words<'o>(giver: Giver<'o>) -> (&'static str, &'o str)
    ensures { result.0.now ++ result.1.now ≡ giver_text giver.entry }
{
    match giver {
        Giver::Override(path) => ("", path),
        Giver::Unknown(path) => ("unknown: platform of ", path),
        Giver::Profile(name) => ("profile.", name),
        Giver::Nextest => ("nextest's default", ""),
    }
}

/// Writes how each override applies to a test, and below that what gives the test each setting, a line each.
///
/// The lines of the override's reason, each moved right by two blanks, follow its own. `reasons` has a text for each
/// override, in their order; an empty one adds nothing. An override beyond them has no reason, and a text beyond the
/// overrides is ignored. Returns an error only if out of memory.
pub fn test_overrides_text(
    alloc: Global,
    explained: &TestOverrides<'_>,
    reasons: &[String],
) -> Result<String, AllocError>
    ensures { IfOk result (λ text. string_bytes text
        ≡ test_overrides_text explained.now (map (λ s. string_bytes s) reasons.now)) }
{
    let mut text = String::new(alloc);
    push_overrides(&mut text, explained.overrides.as_slice(), reasons)?;
    for setting in &explained.settings {
        let key = setting.key;
        let (before, name) = giver_words(setting.giver);
        writeln!(text, "{key}: {before}{name}")?;
    }
    Ok(text)
}

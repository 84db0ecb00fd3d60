//! Verdicts as text.
ghost use Rattle.std.specs.{Prelude.◌≡◌, Prelude.◌++◌, Prelude.IfOk, Prelude.OnOk, Prelude.string_bytes, List.flat_map};
ghost use Rattle.filterset_graph.specs.Platforms.{platform_text};
ghost use Rattle.filterset_verdicts.specs.VerdictForm.{IsVerdictIn};
ghost use Rattle.filterset_verdicts.specs.VerdictText.{IsPackageText, IsVerdictText, IsWitnessText, demand_text, doubt_text, ending_of, failed_text, field_line, field_word, held_text, open_text, origin_line, picked_line, picked_text, test_text};

use crate::json::verdict_line;
use filterset_deciding::{Demand, Doubt, PossibleTest, Question, TestField, Verdict, Witness};
use filterset_display::Form;
use filterset_entries::Ending;
use filterset_graph::{BuildPlatform, PackageGraph, PackageId};
use std::alloc::{AllocError, Global};
use std::fmt::Write;

/// Returns what is written if the answer is always yes.
fn held_text(question: Question) -> &'static str
    ensures { result.now ≡ held_text question }
{
    match question {
        Question::AllAlike => "same\n",
        Question::AtLeastOne => "covered\n",
        Question::AtMostOne => "disjoint\n",
        Question::ExactlyOne => "partition\n",
    }
}

/// Returns the first line if the answer is no for some test.
fn failed_text(question: Question) -> &'static str
    ensures { result.now ≡ failed_text question }
{
    match question {
        Question::AllAlike => "differ\n",
        Question::AtLeastOne => "not covered\n",
        Question::AtMostOne => "not disjoint\n",
        Question::ExactlyOne => "no partition\n",
    }
}

/// Returns the first line if the answer is unknown.
fn open_text(question: Question) -> &'static str
    ensures { result.now ≡ open_text question }
{
    match question {
        Question::AllAlike => {
            "unknown: whether there is a test that some of them pick and others do not\n"
        }
        Question::AtLeastOne => "unknown: whether there is a test that none of them picks\n",
        Question::AtMostOne => "unknown: whether there is a test that two of them pick\n",
        Question::ExactlyOne => {
            "unknown: whether there is a test that none of them picks, or that two of them pick\n"
        }
    }
}

/// Returns the name of the package with this id, or the id if there is none.
pub(crate) fn package_text<'a>(graph: &'a PackageGraph, id: &'a PackageId) -> &'a str
    ensures { IsPackageText graph.entry.now id.entry.now result.now }
{
    match graph.metadata(id) {
        Some(package) => package.name.as_str(),
        None => id.repr(),
    }
}

/// Writes one line about a test.
fn push_field(output: &mut String, name: &str, value: &str) -> Result<(), AllocError>
    ensures { OnOk result (string_bytes output.new ≡ string_bytes output.old ++ field_line name.now value.now) }
{
    writeln!(output, "  {name}: {value}")?;
    Ok(())
}

/// Returns the word for a platform.
pub(crate) fn platform_word(platform: BuildPlatform) -> &'static str
    ensures { result.now ≡ platform_text platform }
{
    match platform {
        BuildPlatform::Target => "target",
        BuildPlatform::Host => "host",
    }
}

/// Returns the line that says where a test comes from.
fn origin_line(is_listed: bool) -> &'static str
    ensures { result.now ≡ origin_line is_listed }
{
    if is_listed {
        "a test of the list:\n"
    } else {
        "a possible test, which need not be in any list:\n"
    }
}

/// Writes a test of the list or a possible test, of the package with this name.
fn push_test(
    output: &mut String,
    is_listed: bool,
    name: &str,
    test: &PossibleTest,
) -> Result<(), AllocError>
    ensures { OnOk result (string_bytes output.new ≡ string_bytes output.old ++ test_text is_listed name.now test.now) }
{
    output.push_str(origin_line(is_listed))?;
    push_field(output, "package", name)?;
    push_field(output, "binary id", test.binary_id.as_str())?;
    push_field(output, "binary", test.binary_name.as_str())?;
    push_field(output, "kind", test.kind.as_str())?;
    push_field(output, "platform", platform_word(test.platform))?;
    push_field(output, "test", test.test_name.as_str())?;
    push_field(output, "group", test.group.as_str())?;
    Ok(())
}

/// Writes a line for the filterset of this number, if it picks the test.
fn push_pick(output: &mut String, number: usize, is_picked: bool) -> Result<(), AllocError>
    ensures { OnOk result (string_bytes output.new ≡ string_bytes output.old ++ picked_line number is_picked) }
{
    if is_picked {
        writeln!(output, "picked by argument {number}")?;
    }
    Ok(())
}

/// Writes which filtersets pick the test.
fn push_picks(output: &mut String, picks: &[bool]) -> Result<(), AllocError>
    ensures { OnOk result (string_bytes output.new ≡ string_bytes output.old ++ picked_text picks.now) }
{
    if picks.iter().filter(|is_picked| **is_picked).count() == 0 {
        return output.push_str("picked by none\n");
    }
    for (i, is_picked) in picks.iter().enumerate() {
        push_pick(output, i + 1, *is_picked)?;
    }
    Ok(())
}

/// A verdict about a question.
#[derive(Drop)]
pub(crate) struct Decided<'d> {
    pub question: Question,
    /// Whether its test, if it has one, is one of the list.
    pub is_listed: bool,
    pub verdict: Verdict<'d>,
}

/// Writes a test for which the answer to a question is no.
fn witness_text(
    alloc: Global,
    question: Question,
    is_listed: bool,
    graph: &PackageGraph,
    witness: &Witness,
) -> Result<String, AllocError>
    ensures { IfOk result (λ text. IsWitnessText question is_listed graph.now witness.now (string_bytes text)) }
{
    let mut text = String::from_str(alloc, failed_text(question))?;
    let name = package_text(graph, &witness.test.package_id);
    push_test(&mut text, is_listed, name, &witness.test)?;
    push_picks(&mut text, witness.picks.as_slice())?;
    Ok(text)
}

/// Returns the name of the predicate that asks about the text.
fn field_word(field: TestField) -> &'static str
    ensures { result.now ≡ field_word field }
{
    match field {
        TestField::Kind => "kind",
        TestField::BinaryName => "binary",
        TestField::BinaryId => "binary_id",
        TestField::TestName => "test",
        TestField::Group => "group",
    }
}

/// Writes what is demanded of a text as a predicate.
pub(crate) fn demand_text(
    alloc: Global,
    field: TestField,
    demand: &Demand<'_>,
) -> Result<String, AllocError>
    ensures { IfOk result (λ text. string_bytes text ≡ demand_text field demand.now) }
{
    let sign = if demand.is_matched { "" } else { "not " };
    let word = field_word(field);
    let matcher = demand.matcher;
    format!(in alloc; "{sign}{word}({matcher})")
}

/// Writes that the answer is unknown, and what it depends on.
fn doubt_text(alloc: Global, question: Question, doubt: &Doubt<'_>) -> Result<String, AllocError>
    ensures { IfOk result (λ text. string_bytes text ≡ doubt_text question doubt.now) }
{
    let mut text = String::from_str(alloc, open_text(question))?;
    text.push_str("it hangs on whether some test is in all of:\n")?;
    for demand in &doubt.demands {
        let demanded = demand_text(alloc, doubt.field, demand)?;
        writeln!(text, "  {demanded}")?;
    }
    Ok(text)
}

/// Writes a verdict in lines for people. The only error is out of memory.
fn verdict_text(
    alloc: Global,
    graph: &PackageGraph,
    decided: &Decided<'_>,
) -> Result<String, AllocError>
    ensures { IfOk result (λ text. IsVerdictText decided.now.question decided.now.is_listed graph.now decided.now.verdict
        (string_bytes text)) }
{
    let question = decided.question;
    match &decided.verdict {
        Verdict::Always => String::from_str(alloc, held_text(question)),
        Verdict::Fails(witness) => {
            witness_text(alloc, question, decided.is_listed, graph, witness)
        }
        Verdict::Unknown(doubt) => doubt_text(alloc, question, doubt),
        Verdict::Stopped => {
            let mut text = String::from_str(alloc, open_text(question))?;
            text.push_str("the search took all steps of --budget\n")?;
            Ok(text)
        }
    }
}

/// Writes a verdict in a form. The only error is out of memory.
pub(crate) fn answer_text(
    alloc: Global,
    form: Form,
    graph: &PackageGraph,
    decided: &Decided<'_>,
) -> Result<String, AllocError>
    ensures { IfOk result (λ text. IsVerdictIn form decided.now.question decided.now.is_listed graph.now decided.now.verdict
        (string_bytes text)) }
{
    match form {
        Form::Json => verdict_line(alloc, graph, decided),
        Form::Drawn(_) | Form::Github => verdict_text(alloc, graph, decided),
    }
}

/// Returns how a command ends with this verdict.
pub(crate) fn ending_of(verdict: &Verdict<'_>) -> Ending
    ensures { result ≡ ending_of verdict.now }
{
    match verdict {
        Verdict::Always => Ending::Fine,
        Verdict::Fails(_) => Ending::Differing,
        Verdict::Unknown(_) | Verdict::Stopped => Ending::Unknown,
    }
}

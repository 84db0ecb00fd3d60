//! Verdicts as JSON.
ghost use Rattle.std.specs.Prelude.{◌≡◌, ◌++◌, IfOk, codes, false, map, string_bytes};
ghost use Rattle.serde_json.specs.{Data.Data, Data.null, View.view, Written.compact_text};
ghost use Rattle.filterset_verdicts.specs.VerdictJson.{IsVerdictData, demand_item, number_item, picked_numbers, question_word, test_data};

use crate::text::{Decided, demand_text, package_text, platform_word};
use filterset_deciding::{Demand, PossibleTest, Question, TestField, Verdict};
use filterset_graph::PackageGraph;
use serde_json::{Value, json};
use std::alloc::{AllocError, Global};

/// Returns what a question is called.
fn question_word(question: Question) -> &'static str
    ensures { result.now ≡ question_word question }
{
    match question {
        Question::AllAlike => "same",
        Question::AtLeastOne => "cover",
        Question::AtMostOne => "disjoint",
        Question::ExactlyOne => "partition",
    }
}

/// Makes the values of the numbers of the filtersets that pick the test, from 1.
fn pick_values(alloc: Global, picks: &[bool]) -> Result<Vec<Value>, AllocError>
    ensures { IfOk result (λ values. map view values.items ≡ map number_item (picked_numbers 1 picks.now)) }
{
    let mut values = Vec::new(alloc);
    for (i, is_picked) in picks.iter().enumerate() {
        if *is_picked {
            values.push(Value::from(i + 1))?;
        }
    }
    Ok(values)
}

/// Makes the value of a possible test, of the package with this name.
fn test_value(alloc: Global, name: &str, test: &PossibleTest) -> Result<Value, AllocError>
    ensures { IfOk result (λ value. view value ≡ test_data name.now test.now) }
{
    let binary = test.binary_name.as_str();
    let binary_id = test.binary_id.as_str();
    let group = test.group.as_str();
    let kind = test.kind.as_str();
    let test_name = test.test_name.as_str();
    let platform = platform_word(test.platform);
    json!(in alloc; {
        "binary": binary, "binary_id": binary_id, "group": group, "kind": kind, "name": test_name,
        "package": name, "platform": platform
    })
}

/// Makes the values of what is demanded of a text.
fn demand_values(
    alloc: Global,
    field: TestField,
    demands: &[Demand<'_>],
) -> Result<Vec<Value>, AllocError>
    ensures { IfOk result (λ values. map view values.items ≡ map (demand_item field) demands.now) }
{
    let mut values = Vec::with_capacity(alloc, demands.len())?;
    for demand in demands {
        values.push(Value::String(demand_text(alloc, field, demand)?))?;
    }
    Ok(values)
}

/// Makes the value of a verdict.
fn verdict_value(
    alloc: Global,
    graph: &PackageGraph,
    decided: &Decided<'_>,
) -> Result<Value, AllocError>
    ensures { IfOk result (λ value. IsVerdictData decided.now.question decided.now.is_listed graph.now decided.now.verdict
        (view value)) }
{
    let (mut doubts, mut listed, mut picks, mut test) = (
        Value::Null,
        Value::Null,
        Value::Null,
        Value::Null,
    );
    let (answer, is_spent) = match &decided.verdict {
        Verdict::Always => ("yes", false),
        Verdict::Fails(witness) => {
            let name = package_text(graph, &witness.test.package_id);
            listed = Value::Bool(decided.is_listed);
            picks = Value::Array(pick_values(alloc, witness.picks.as_slice())?);
            test = test_value(alloc, name, &witness.test)?;
            ("no", false)
        }
        Verdict::Unknown(doubt) => {
            doubts = Value::Array(demand_values(alloc, doubt.field, doubt.demands.as_slice())?);
            ("unknown", false)
        }
        Verdict::Stopped => ("unknown", true),
    };
    let word = question_word(decided.question);
    json!(in alloc; {
        "answer": answer, "budget_spent": is_spent, "hangs_on": doubts, "listed": listed,
        "picked_by": picks, "question": word, "test": test
    })
}

/// Writes a verdict as a JSON object in a line. The only error is out of memory.
pub(crate) fn verdict_line(
    alloc: Global,
    graph: &PackageGraph,
    decided: &Decided<'_>,
) -> Result<String, AllocError>
    ensures { IfOk result (λ text. (d : Data)
        × IsVerdictData decided.now.question decided.now.is_listed graph.now decided.now.verdict d
        × (string_bytes text ≡ compact_text d ++ codes "\n")) }
{
    let value = verdict_value(alloc, graph, decided)?;
    let mut text = value.to_string(alloc)?;
    text.push_str("\n")?;
    Ok(text)
}

//! The tests of a list that a filterset picks, in the shape in which nextest wrote the list.
ghost use Rattle.std.specs.Prelude.{◌≡◌, [], IfErr, IfOk, List, None, OnOk, drop, string_bytes, take};
ghost use Rattle.std.specs.{BTreeMap.insert_entry, List.flat_map, String.string_cmp};
ghost use Rattle.serde_json.specs.{Data.Data, Data.object, Find.as_object, View.members_view, View.view};
ghost use Rattle.filterset_listing.specs.Asking.{Text};
ghost use Rattle.filterset_listing.specs.ListJson.{AreAnswers, IsListJson, IsSaid, MarksEach, MarksObject, MarksSuites, answer_in, match_data};
ghost use Rattle.filterset_listing.specs.Listing.{tests_of, uncounted_of, unknown_of};

use crate::groups::TestAnswer;
use crate::listing::BinaryPicks;
use serde_json::{Map, Value, json};
use std::alloc::{AllocError, Global};
use std::collections::BTreeMap;

/// A change of the members of a JSON object.
trait Mark {
    /// Whether the value under the name becomes the second one.
    ghost marks: { Self → Text → Data → Data → Type 0 };

    /// Changes the value under the name. Returns an error only if out of memory.
    fn mark(&self, alloc: Global, name: &str, value: Value) -> Result<Value, AllocError>
        ensures { IfOk result (λ marked. marks self.now name.now (view value) (view marked)) };
}

/// Returns the members of an object, or any other value as it is.
fn members_of(value: Value) -> Result<Map<String, Value>, Value>
    ensures members { IfOk result (λ members. view value ≡ object (members_view members.entries)) }
    ensures other { IfErr result (λ other. (other ≡ value) × (as_object (view other) ≡ None)) }
{
    match value {
        Value::Object(members) => Ok(members),
        Value::Null => Err(Value::Null),
        Value::Bool(answer) => Err(Value::Bool(answer)),
        Value::Number(number) => Err(Value::Number(number)),
        Value::String(text) => Err(Value::String(text)),
        Value::Array(values) => Err(Value::Array(values)),
    }
}

/// Inserts a member.
fn put_in(members: &mut Map<String, Value>, key: String, value: Value) -> Result<(), AllocError>
    ensures { OnOk result (members.new.entries ≡ insert_entry string_cmp members.old.entries key value) }
{
    members.insert(key, value)?;
    Ok(())
}

/// Changes each member of an object, and leaves any other value as it is.
fn mark_each<M: Mark>(alloc: Global, value: Value, mark: &M) -> Result<Value, AllocError>
    ensures { IfOk result (λ marked. MarksObject (MarksEach (M.marks mark.now)) (view value) (view marked)) }
{
    let members = match members_of(value) {
        Ok(members) => members,
        Err(other) => return Ok(other),
    };
    let mut marked = Map::new(alloc);
    for (name, value) in members {
        let value = mark.mark(alloc, name.as_str(), value)?;
        put_in(&mut marked, name, value)?;
    }
    Ok(Value::Object(marked))
}

/// What is said of a test.
#[derive(Clone, Copy, Debug)]
pub enum TestMark<'g> {
    /// It does not count.
    Uncounted,
    /// Only the default filter leaves it out.
    Beyond,
    Asked(TestAnswer<'g>),
}

/// Returns what nextest writes of a test.
fn match_value(alloc: Global, mark: TestMark<'_>) -> Result<Value, AllocError>
    ensures { IfOk result (λ value. view value ≡ match_data mark.entry) }
{
    let reason = match mark {
        TestMark::Uncounted => "ignored",
        TestMark::Beyond => "default-filter",
        TestMark::Asked(TestAnswer::Known(false)) => "expression",
        TestMark::Asked(TestAnswer::Known(true)) => {
            return json!(in alloc; {"status": "matches"});
        }
        TestMark::Asked(TestAnswer::Unknown(path)) => {
            let reason = format!(in alloc; "platform of {path}")?;
            return json!(in alloc; {"reason": reason, "status": "unknown"});
        }
    };
    json!(in alloc; {"reason": reason, "status": "mismatch"})
}

/// What is said of the tests of a binary, by their names. A test that is not named is not picked.
#[derive(Drop)]
struct Answers<'s, 'g>(BTreeMap<&'s str, TestMark<'g>>);

/// Returns what is said of the tests of the first binary of these picks, if the default filter leaves them all out.
fn beyond_answers<'s, 'g>(
    alloc: Global,
    beyond: &[BinaryPicks<'s, 'g>],
) -> Result<Answers<'s, 'g>, AllocError>
    ensures { IfOk result (λ answers. AreAnswers [] (flat_map tests_of (take 1 beyond.now)) [] [] answers.0) }
{
    let mut answers = BTreeMap::new(alloc);
    let [picks, ..] = beyond else {
        return Ok(Answers(answers));
    };
    for test in &picks.tests {
        answers.insert(test.as_str(), TestMark::Beyond)?;
    }
    Ok(Answers(answers))
}

impl<'s, 'g> Answers<'s, 'g> {
    /// Puts in what is known of the tests of a binary.
    fn put(&mut self, picks: &BinaryPicks<'s, 'g>) -> Result<(), AllocError>
        ensures { OnOk result ((beyond : List Text) → AreAnswers [] beyond [] [] self.old.0
            → AreAnswers (uncounted_of picks.now) beyond (tests_of picks.now) (unknown_of picks.now) self.new.0) }
    {
        for picked in &picks.tests {
            let mark = TestMark::Asked(TestAnswer::Known(true));
            self.0.insert(picked.as_str(), mark)?;
        }
        for unknown in &picks.unknown {
            let mark = TestMark::Asked(TestAnswer::Unknown(unknown.path));
            self.0.insert(unknown.test.as_str(), mark)?;
        }
        for uncounted in picks.binary.uncounted {
            self.0.insert(uncounted.as_str(), TestMark::Uncounted)?;
        }
        Ok(())
    }
}

/// Returns what is said of the tests of the first binary.
fn first_answers<'s, 'g>(
    alloc: Global,
    all: &[BinaryPicks<'s, 'g>],
    beyond: &[BinaryPicks<'s, 'g>],
) -> Result<Answers<'s, 'g>, AllocError>
    ensures { IfOk result (λ answers.
        (name : Text) → IsSaid (take 1 all.now) (take 1 beyond.now) name (answer_in answers.0 name)) }
{
    let mut answers = beyond_answers(alloc, beyond)?;
    let [picks, ..] = all else {
        return Ok(answers);
    };
    answers.put(picks)?;
    Ok(answers)
}

/// Marks a test by the answer about it.
impl Mark for Answers<'_, '_> {
    ghost use Rattle.filterset_listing.specs.ListJson.{MarksTest, answer_in};

    ghost marks = { λ answers name. MarksTest (answer_in answers.0 name) };

    fn mark(&self, alloc: Global, name: &str, test: Value) -> Result<Value, AllocError> {
        match members_of(test) {
            Ok(mut members) => {
                let mark = self.0.get(name).copied();
                let mark = mark.unwrap_or(TestMark::Asked(TestAnswer::Known(false)));
                let key = String::from_str(alloc, "filter-match")?;
                put_in(&mut members, key, match_value(alloc, mark)?)?;
                Ok(Value::Object(members))
            }
            Err(other) => Ok(other),
        }
    }
}

/// The change of a suite: these are the answers about its tests.
#[derive(Drop)]
struct SuiteMark<'s, 'g> {
    answers: Answers<'s, 'g>,
}

impl Mark for SuiteMark<'_, '_> {
    ghost use Rattle.std.specs.Prelude.{codes};
    ghost use Rattle.filterset_listing.specs.ListJson.{MarksEach, MarksObject, MarksTest, MarksUnder, answer_in};

    ghost marks = { λ m. MarksUnder (codes "testcases")
        (MarksObject (MarksEach (λ name. MarksTest (answer_in m.answers.0 name)))) };

    fn mark(&self, alloc: Global, name: &str, value: Value) -> Result<Value, AllocError> {
        if name == "testcases" {
            mark_each(alloc, value, &self.answers)
        } else {
            Ok(value)
        }
    }
}

/// Returns the picks of the binaries after the first.
fn other_picks<'p, 's, 'g>(all: &'p [BinaryPicks<'s, 'g>]) -> &'p [BinaryPicks<'s, 'g>]
    ensures { result.now ≡ drop 1 all.now }
{
    match all {
        [] => all,
        [_, others @ ..] => others,
    }
}

/// Marks the tests of suites, where the first picks are those of the first suite.
fn mark_suites<'s, 'g>(
    alloc: Global,
    suites: Value,
    all: &[BinaryPicks<'s, 'g>],
    beyond: &[BinaryPicks<'s, 'g>],
) -> Result<Value, AllocError>
    ensures { IfOk result (λ marked. MarksObject (MarksSuites all.now beyond.now) (view suites) (view marked)) }
{
    let suites = match members_of(suites) {
        Ok(suites) => suites,
        Err(other) => return Ok(other),
    };
    let mut marked = Map::new(alloc);
    let mut left = all;
    let mut beyond = beyond;
    for (id, suite) in suites {
        let answers = first_answers(alloc, left, beyond)?;
        let suite = mark_each(alloc, suite, &SuiteMark { answers })?;
        put_in(&mut marked, id, suite)?;
        left = other_picks(left);
        beyond = other_picks(beyond);
    }
    Ok(Value::Object(marked))
}

/// The change of a list: these tests of its suites are picked, and these without the default filter.
#[derive(Clone, Copy)]
struct ListMark<'p, 's, 'g> {
    all: &'p [BinaryPicks<'s, 'g>],
    beyond: &'p [BinaryPicks<'s, 'g>],
}

impl Mark for ListMark<'_, '_, '_> {
    ghost use Rattle.std.specs.Prelude.{codes};
    ghost use Rattle.filterset_listing.specs.ListJson.{MarksObject, MarksSuites, MarksUnder};

    ghost marks = { λ m. MarksUnder (codes "rust-suites") (MarksObject (MarksSuites m.all.now m.beyond.now)) };

    fn mark(&self, alloc: Global, name: &str, value: Value) -> Result<Value, AllocError> {
        if name == "rust-suites" {
            mark_suites(alloc, value, self.all, self.beyond)
        } else {
            Ok(value)
        }
    }
}

/// Writes nextest's list as JSON, where each test has under `filter-match` whether it is picked: `{"status":"matches"}`, or
/// `{"reason":REASON,"status":"mismatch"}`. The first reason that holds is given: `ignored`, of a test that does not count;
/// `expression`; `default-filter`, of a test that is picked `beyond` the default filter. If it is unknown whether a test is
/// picked, it has for example `{"reason":"platform of profile.ci.overrides[1]","status":"unknown"}`. All else is as nextest
/// wrote it. The picks are those of the suites of the list, in the order of their ids.
pub fn list_json<'s, 'g>(
    alloc: Global,
    list: Value,
    all: &[BinaryPicks<'s, 'g>],
    beyond: &[BinaryPicks<'s, 'g>],
) -> Result<String, AllocError>
    ensures { IfOk result (λ text. IsListJson all.now beyond.now (view list) (string_bytes text)) }
{
    mark_each(alloc, list, &ListMark { all, beyond })?.to_string(alloc)
}

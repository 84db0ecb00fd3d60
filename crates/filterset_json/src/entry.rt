//! Entries: values, lists, pairs and triples.
ghost use Rattle.std.specs.Prelude.{◌≡◌, IfErr, IfOk, [], codes};
ghost use Rattle.serde_json.specs.{Data.Data, Data.Items, Data.array, Find.as_array, View.items_view, View.view};
ghost use Rattle.filterset_json.specs.{Paths.step_text, Places.After, Places.Itself, Places.Names, Places.Place};
ghost use Rattle.filterset_json.specs.{Refusals.Refuses, Shape.IsText, Shape.Text};

use crate::path::Step;
use crate::refusal::EntryRefusal;
use serde_json::Value;
use std::alloc::Global;

/// What can be read from a JSON value.
pub trait Entry: Drop {
    /// What contracts see of entries.
    ghost Row: { Type 0 };
    /// What is seen of an entry.
    ghost row_of: { Self → Row };
    /// The value stands for the entry that is seen as this.
    ghost stands_for: { Data → Row → Type 0 };
    /// The value is wrong at this place. By default nothing is said of it.
    ghost is_wrong: { Data → Place → Type 0 } = { λ _ _. Unit {0} };

    /// What a value must be, as it goes after "must be".
    const EXPECTED: &'static str;

    /// Reads the entry that `value` stands for. Fails if it stands for none, or out of memory; the refusal names the
    /// place of the first value that is wrong.
    fn read(alloc: Global, value: &Value) -> Result<Self, EntryRefusal>
    where
        Self: Sized,
        ensures read { IfOk result (λ entry. stands_for (view value.now) (row_of entry)) }
        ensures refused { IfErr result (Refuses ((row : Row) × stands_for (view value.now) row)) }
        ensures place { IfErr result (Names (is_wrong (view value.now))) };
}

/// Reads the entry at `step`, and reports a wrong value by its path from before the step.
pub(crate) fn read_at<T: Entry>(
    alloc: Global,
    step: Step<'_>,
    value: &Value,
) -> Result<T, EntryRefusal>
    ensures read { IfOk result (λ entry. T.stands_for (view value.now) (T.row_of entry)) }
    ensures refused { IfErr result (Refuses ((row : T.Row) × T.stands_for (view value.now) row)) }
    ensures place { IfErr result (Names (After (step_text step.entry) (T.is_wrong (view value.now)))) }
{
    match T::read(alloc, value) {
        Ok(entry) => Ok(entry),
        Err(refusal) => Err(refusal.after(alloc, step)),
    }
}

/// Returns the text that `value` is.
pub fn text_of<'v>(alloc: Global, value: &'v Value) -> Result<&'v str, EntryRefusal>
    ensures read { IfOk result (λ text. IsText (view value.now) text.now) }
    ensures refused { IfErr result (Refuses ((text : Text) × IsText (view value.now) text)) }
    ensures place { IfErr result (Names (Itself IsText (codes "a text") (view value.now))) }
{
    match value.as_str() {
        Some(text) => Ok(text),
        None => Err(EntryRefusal::wrong(alloc, String::EXPECTED)),
    }
}

impl Entry for String {
    ghost use Rattle.std.specs.Prelude.{codes, string_bytes};
    ghost use Rattle.filterset_json.specs.{Places.Itself, Shape.IsText, Shape.Text};

    ghost Row = { Text };

    ghost row_of = { string_bytes };

    ghost stands_for = { IsText };

    ghost is_wrong = { Itself IsText (codes "a text") };

    const EXPECTED: &'static str = "a text";

    fn read(alloc: Global, value: &Value) -> Result<String, EntryRefusal> {
        Ok(String::from_str(alloc, text_of(alloc, value)?)?)
    }
}

impl Entry for bool {
    ghost use Rattle.std.specs.Prelude.{Bool, codes};
    ghost use Rattle.filterset_json.specs.{Places.Itself, Shape.IsBoolean};

    ghost Row = { Bool };

    ghost row_of = { λ b. b };

    ghost stands_for = { IsBoolean };

    ghost is_wrong = { Itself IsBoolean (codes "`true` or `false`") };

    const EXPECTED: &'static str = "`true` or `false`";

    fn read(alloc: Global, value: &Value) -> Result<bool, EntryRefusal> {
        match value.as_bool() {
            Some(b) => Ok(b),
            None => Err(EntryRefusal::wrong(alloc, Self::EXPECTED)),
        }
    }
}

impl Entry for usize {
    ghost use Rattle.std.specs.Prelude.{codes, ℕ};
    ghost use Rattle.filterset_json.specs.{Places.Itself, Shape.IsNumber};

    ghost Row = { ℕ };

    ghost row_of = { λ n. n };

    ghost stands_for = { IsNumber };

    ghost is_wrong = { Itself IsNumber (codes "a whole number") };

    const EXPECTED: &'static str = "a whole number";

    fn read(alloc: Global, value: &Value) -> Result<usize, EntryRefusal> {
        match value.as_u64() {
            Some(number) => Ok(number as usize),
            None => Err(EntryRefusal::wrong(alloc, Self::EXPECTED)),
        }
    }
}

/// Returns the items of the list that `value` is.
fn items_of<'v>(alloc: Global, value: &'v Value) -> Result<&'v [Value], EntryRefusal>
    ensures read { IfOk result (λ values. view value.now ≡ array (items_view values.now)) }
    ensures refused { IfErr result (Refuses ((items : Items) × (view value.now ≡ array items))) }
    ensures place { IfErr result (Names (λ place. (as_array (view value.now) ≡ None) × (place ≡ ([], codes "a list")))) }
{
    match value.as_array() {
        Some(values) => Ok(values.as_slice()),
        None => Err(EntryRefusal::wrong(alloc, "a list")),
    }
}

impl<T: Entry> Entry for Vec<T> {
    ghost use Rattle.std.specs.Prelude.{List, map};
    ghost use Rattle.filterset_json.specs.{Places.WrongList, Shape.IsListOf};

    ghost Row = { List T.Row };

    ghost row_of = { λ all. map T.row_of all.items };

    ghost stands_for = { IsListOf T.stands_for };

    ghost is_wrong = { WrongList T.stands_for T.is_wrong };

    const EXPECTED: &'static str = "a list";

    fn read(alloc: Global, value: &Value) -> Result<Vec<T>, EntryRefusal> {
        let values = items_of(alloc, value)?;
        let mut all = Vec::with_capacity(alloc, values.len())?;
        for (at, value) in values.iter().enumerate() {
            all.push(read_at(alloc, Step::Item(at), value)?)?;
        }
        Ok(all)
    }
}

/// Null, or an entry.
impl<T: Entry> Entry for Option<T> {
    ghost use Rattle.std.specs.Prelude.{Option, option_map};
    ghost use Rattle.filterset_json.specs.Shape.{IsNullOr};

    ghost Row = { Option T.Row };

    ghost row_of = { option_map T.row_of };

    ghost stands_for = { IsNullOr T.stands_for };

    ghost is_wrong = { T.is_wrong };

    const EXPECTED: &'static str = T::EXPECTED;

    fn read(alloc: Global, value: &Value) -> Result<Option<T>, EntryRefusal> {
        if value.is_null() {
            return Ok(None);
        }
        Ok(Some(T::read(alloc, value)?))
    }
}

impl<A: Entry, B: Entry> Entry for (A, B) {
    ghost use Rattle.filterset_json.specs.Shape.{IsPair};

    ghost Row = { A.Row × B.Row };

    ghost row_of = { λ pair. (A.row_of pair.0, B.row_of pair.1) };

    ghost stands_for = { IsPair A.stands_for B.stands_for };

    const EXPECTED: &'static str = "a list of two items";

    fn read(alloc: Global, value: &Value) -> Result<(A, B), EntryRefusal> {
        match items_of(alloc, value)? {
            [first, second] => Ok((
                read_at(alloc, Step::Item(0), first)?,
                read_at(alloc, Step::Item(1), second)?,
            )),
            _ => Err(EntryRefusal::wrong(alloc, Self::EXPECTED)),
        }
    }
}

impl<A: Entry, B: Entry, C: Entry> Entry for (A, B, C) {
    ghost use Rattle.filterset_json.specs.Shape.{IsTriple};

    ghost Row = { A.Row × B.Row × C.Row };

    ghost row_of = { λ triple. (A.row_of triple.0, B.row_of triple.1, C.row_of triple.2) };

    ghost stands_for = { IsTriple A.stands_for B.stands_for C.stands_for };

    const EXPECTED: &'static str = "a list of three items";

    fn read(alloc: Global, value: &Value) -> Result<(A, B, C), EntryRefusal> {
        match items_of(alloc, value)? {
            [first, second, third] => Ok((
                read_at(alloc, Step::Item(0), first)?,
                read_at(alloc, Step::Item(1), second)?,
                read_at(alloc, Step::Item(2), third)?,
            )),
            _ => Err(EntryRefusal::wrong(alloc, Self::EXPECTED)),
        }
    }
}

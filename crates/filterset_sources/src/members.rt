//! Entries that are the members of an object.
ghost use Rattle.std.specs.Prelude.{IfErr, IfOk, List, map};
ghost use Rattle.serde_json.specs.{Data.Data, View.members_view, View.view};
ghost use Rattle.filterset_json.specs.{Places.Names, Places.Place, Refusals.Refuses, Shape.Text};
ghost use Rattle.filterset_sources.specs.Shape.{EachMember, WrongMembers};

use filterset_json::{Entry, EntryRefusal, Step};
use serde_json::{Map, Value};
use std::alloc::Global;

/// What can be read from a key of an object and the value under it.
pub trait Member: Drop {
    /// What contracts see of entries.
    ghost Row: { Type 0 };
    /// What is seen of an entry.
    ghost row_of: { Self → Row };
    /// The key and the value under it stand for the entry that is seen as this.
    ghost stands_for: { Text → Data → Row → Type 0 };
    /// The value under the key is wrong at this place.
    ghost is_wrong: { Text → Data → Place → Type 0 };

    /// Reads the entry of a key and the value under it. Fails if they stand for none, or out of memory; the refusal names
    /// the place of the first value that is wrong, from the value on.
    fn read_under(alloc: Global, key: &str, value: &Value) -> Result<Self, EntryRefusal>
    where
        Self: Sized,
        ensures read { IfOk result (λ entry. stands_for key.now (view value.now) (row_of entry)) }
        ensures refused { IfErr result (Refuses ((row : Row) × stands_for key.now (view value.now) row)) }
        ensures place { IfErr result (Names (is_wrong key.now (view value.now))) };
}

/// Reads the entries that are the members of an object.
fn entries_of<T: Member>(
    alloc: Global,
    members: &Map<String, Value>,
) -> Result<Vec<T>, EntryRefusal>
    ensures read { IfOk result (λ all. EachMember T.stands_for (members_view members.now.entries)
        (map T.row_of all.items)) }
    ensures refused { IfErr result (Refuses ((rows : List T.Row)
        × EachMember T.stands_for (members_view members.now.entries) rows)) }
    ensures place { IfErr result (Names (WrongMembers T.stands_for T.is_wrong (members_view members.now.entries))) }
{
    let mut all = Vec::with_capacity(alloc, members.len())?;
    for (key, value) in members.iter() {
        let key = key.as_str();
        match T::read_under(alloc, key, value) {
            Ok(entry) => all.push(entry)?,
            Err(refusal) => return Err(refusal.after(alloc, Step::Key(key))),
        }
    }
    Ok(all)
}

/// The entries that are the members of an object.
#[derive(Drop)]
pub struct Members<T>(pub Vec<T>);

impl<T: Member> Entry for Members<T> {
    ghost use Rattle.std.specs.Prelude.{List, map};
    ghost use Rattle.filterset_sources.specs.Shape.{IsObjectOf, WrongObject};

    ghost Row = { List T.Row };

    ghost row_of = { λ all. map T.row_of all.0.items };

    ghost stands_for = { IsObjectOf T.stands_for };

    ghost is_wrong = { WrongObject T.stands_for T.is_wrong };

    const EXPECTED: &'static str = "an object";

    fn read(alloc: Global, value: &Value) -> Result<Members<T>, EntryRefusal> {
        match value.as_object() {
            Some(members) => Ok(Members(entries_of(alloc, members)?)),
            None => Err(EntryRefusal::wrong(alloc, "an object")),
        }
    }
}

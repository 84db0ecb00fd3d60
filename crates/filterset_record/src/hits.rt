//! One search over the text of all names, whose matches are put to names.
ghost use Rattle.std.specs.Prelude.{◌≡◌, ◌<◌, ◌≤◌, ◌+◌, MatchOption, length, string_bytes};
ghost use Rattle.filterset_record.specs.{Columns.names_of, Hits.IsNextHit, Hits.IsPlace, Hits.NoneHas, Joined.offset};

use crate::names::Names;
use memchr::memmem::Finder;

/// A place among names: the position of a name, and where it begins in their text.
#[derive(Clone, Copy, Debug)]
pub(crate) struct Place {
    pub(crate) position: usize,
    pub(crate) start: usize,
}

/// A name in which a search found a text.
#[derive(Clone, Copy, Debug)]
pub(crate) struct Hit {
    /// The name's position.
    pub(crate) position: usize,
    /// Where the name ends in the text of all names.
    pub(crate) end: usize,
    /// Whether the text ends within the name too.
    pub(crate) is_within: bool,
}

/// Finds the name that has the byte at `at`, from a place on: its position, and where it ends.
fn name_with_byte(names: &Names<'_>, from: Place, at: usize) -> (usize, usize)
    requires place { IsPlace names.now from }
    requires before { from.start ≤ at }
    requires within { at < length (string_bytes names.now.text) }
    ensures position { (from.position ≤ result.0) × (result.0 < length (names_of names.now)) }
    ensures start { offset (names_of names.now) result.0 ≤ at }
    ensures end { (at < result.1) × (result.1 ≡ offset (names_of names.now) (result.0 + 1)) }
{
    let mut position = from.position;
    let mut end = from.start + names.tests[position].as_str().len();
    while end <= at {
        position += 1;
        end += names.tests[position].as_str().len();
    }
    (position, end)
}

/// Finds the next name, from a place on, in which the needle begins. No name before it contains the needle.
pub(crate) fn next_hit(names: &Names<'_>, finder: &Finder<'_>, from: Place) -> Option<Hit>
    requires some { 0 < length finder.now }
    requires place { IsPlace names.now from }
    ensures { MatchOption result (NoneHas finder.now (names_of names.now) from.position (length (names_of names.now)))
        (λ hit. IsNextHit finder.now (names_of names.now) from.position hit) }
{
    let text = names.text.as_bytes();
    let found = finder.find(&text[from.start..])?;
    let at = from.start + found;
    let (position, end) = name_with_byte(names, from, at);
    Some(Hit {
        position,
        end,
        is_within: at + finder.needle().len() <= end,
    })
}

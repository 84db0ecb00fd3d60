//! Binaries with the names and the lines of their tests, which are made once and used for each filterset.
ghost use Rattle.std.specs.Prelude.{◌≡◌, ◌+◌, ◌-◌, ◌≤◌, ℕ, true, false, IfOk, drop, length, map, slice_index, string_bytes, take};
ghost use Rattle.filterset_record.specs.Columns.{names_of};
ghost use Rattle.filterset_cli.specs.Lines.{lines_of};

use filterset_record::{BinaryEntry, Names};
use std::alloc::{AllocError, Global};
use std::fmt::Write;

/// The lines of a binary's tests if all of them have this answer.
#[derive(Debug, Drop)]
pub struct TestLines<'a> {
    binary: &'a BinaryEntry,
    answer: bool,
    text: String,
    /// Where each line begins, and the last one ends.
    starts: Vec<usize>,
    ghost written: { string_bytes text ≡ lines_of binary.now.id answer binary.now.tests.items },
    ghost counted: { length starts.items ≡ length binary.now.tests.items + 1 },
    ghost placed: { (k : ℕ) → k ≤ length binary.now.tests.items
        → slice_index starts.items k ≡ length (lines_of binary.now.id answer (take k binary.now.tests.items)) },
}

impl<'a> TestLines<'a> {
    /// Writes the lines of a binary's tests. The only error is out of memory.
    fn new(
        alloc: Global,
        binary: &'a BinaryEntry,
        answer: bool,
    ) -> Result<TestLines<'a>, AllocError>
        ensures { IfOk result (λ lines. (lines.binary.now ≡ binary.now) × (lines.answer ≡ answer)) }
    {
        let id = binary.id.as_str();
        let mut text = String::new(alloc);
        let mut starts = Vec::new(alloc);
        for test in &binary.tests {
            starts.push(text.len())?;
            let name = test.name.as_str();
            let shown = if answer { "yes" } else { "no" };
            writeln!(text, "  test {id} {name}: {shown}")?;
        }
        starts.push(text.len())?;
        Ok(TestLines {
            binary,
            answer,
            text,
            starts,
        })
    }

    /// Returns the lines of the tests from a position on and before another.
    fn between(&self, from: usize, to: usize) -> &str
        requires ordered { from ≤ to }
        requires within { to ≤ length self.now.binary.now.tests.items }
        ensures { result.now
            ≡ lines_of self.now.binary.now.id self.now.answer (take (to - from) (drop from self.now.binary.now.tests.items)) }
    {
        &self.text[self.starts[from]..self.starts[to]]
    }
}

/// A binary with the names of its tests, and their lines for each answer.
#[derive(Debug, Drop)]
pub struct ListedBinary<'a> {
    pub binary: &'a BinaryEntry,
    pub names: Names<'a>,
    matched: TestLines<'a>,
    unmatched: TestLines<'a>,
    ghost named: { map (λ name. name.now) (names_of names) ≡ map (λ t. t.name) binary.now.tests.items },
    ghost yes: { (matched.binary.now ≡ binary.now) × (matched.answer ≡ true) },
    ghost no: { (unmatched.binary.now ≡ binary.now) × (unmatched.answer ≡ false) },
}

impl<'a> ListedBinary<'a> {
    /// Lists the names and the lines of a binary's tests. The only error is out of memory.
    fn new(alloc: Global, binary: &'a BinaryEntry) -> Result<ListedBinary<'a>, AllocError>
        ensures { IfOk result (λ listed. listed.binary.now ≡ binary.now) }
    {
        let mut names = Names::new(alloc);
        for test in &binary.tests {
            names.push(&test.name)?;
        }
        Ok(ListedBinary {
            binary,
            names,
            matched: TestLines::new(alloc, binary, true)?,
            unmatched: TestLines::new(alloc, binary, false)?,
        })
    }

    /// Returns the lines of the tests from a position on and before another, if all of them have this answer.
    pub fn lines_between(&self, answer: bool, from: usize, to: usize) -> &str
        requires ordered { from ≤ to }
        requires within { to ≤ length self.now.binary.now.tests.items }
        ensures { result.now
            ≡ lines_of self.now.binary.now.id answer (take (to - from) (drop from self.now.binary.now.tests.items)) }
    {
        if answer {
            self.matched.between(from, to)
        } else {
            self.unmatched.between(from, to)
        }
    }
}

/// Lists binaries. The only error is out of memory.
pub fn list_binaries(
    alloc: Global,
    binaries: &[BinaryEntry],
) -> Result<Vec<ListedBinary<'_>>, AllocError>
    ensures { IfOk result (λ listed. map (λ l. l.binary.now) listed.items ≡ binaries.now) }
{
    let mut listed = Vec::new(alloc);
    for binary in binaries {
        listed.push(ListedBinary::new(alloc, binary)?)?;
    }
    Ok(listed)
}

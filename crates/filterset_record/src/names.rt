//! The names of a binary's tests.
ghost use Rattle.std.specs.Prelude.{◌≡◌, ◌↔◌, ◌++◌, ◌∷◌, [], IsTrue, OnOk, length, string_bytes};
ghost use Rattle.filterset_record.specs.Joined.{joined};

use filterset_graph::TestCaseName;
use std::alloc::{AllocError, Global};

/// The names of a binary's tests, in their order.
#[derive(Debug, Drop)]
pub struct Names<'a> {
    pub(crate) tests: Vec<&'a TestCaseName>,
    /// The names, one after the other.
    pub(crate) text: String,
    ghost laid: { string_bytes text ≡ joined tests.items },
}

impl<'a> Names<'a> {
    ghost use Rattle.filterset_record.specs.Columns.{names_of};

    /// Returns no names.
    pub fn new(alloc: Global) -> Names<'a>
        ensures { names_of result ≡ [] }
    {
        Names {
            tests: Vec::new(alloc),
            text: String::new(alloc),
        }
    }

    /// Appends the name of a test. The only error is out of memory.
    pub fn push(&mut self, name: &'a TestCaseName) -> Result<(), AllocError>
        ensures { OnOk result (names_of self.new ≡ names_of self.old ++ name.entry ∷ []) }
    {
        self.tests.push(name)?;
        let appended = self.text.push_str(name.as_str());
        if appended.is_err() {
            self.tests.pop();
        }
        appended
    }

    /// Returns the number of names.
    pub fn len(&self) -> usize
        ensures { result ≡ length (names_of self.now) }
    {
        self.tests.len()
    }

    /// Returns whether there are no names.
    pub fn is_empty(&self) -> bool
        ensures { IsTrue result ↔ names_of self.now ≡ [] }
    {
        self.tests.is_empty()
    }
}

//! The report of a suite.
use std::alloc::{AllocError, Global};
use std::fmt::{Debug, Write};

/// The lines so far, and the row that is tried: its kind, and its number among all rows, from one on.
#[derive(Drop)]
pub struct Report {
    pub alloc: Global,
    lines: String,
    kind: &'static str,
    number: usize,
}

impl Report {
    /// Returns a report without lines, before the first row.
    pub fn new(alloc: Global) -> Report {
        Report {
            alloc,
            lines: String::new(alloc),
            kind: "",
            number: 0,
        }
    }

    /// Goes on to the next row, which is of this kind.
    pub fn begin(&mut self, kind: &'static str) {
        self.kind = kind;
        self.number = self.number.wrapping_add(1);
    }

    /// Adds a line unless `holds`: what differs, of which text, and what was found.
    pub fn note(
        &mut self,
        holds: bool,
        what: &str,
        subject: &str,
        found: &str,
    ) -> Result<(), AllocError> {
        if holds {
            return Ok(());
        }
        let (number, kind) = (self.number, self.kind);
        writeln!(
            self.lines,
            "at {number}: {what} of the {kind} {subject}: {found}"
        )
    }

    /// Adds a line unless what was found is what the row wants, if it wants something.
    pub fn compare<T: PartialEq + Debug>(
        &mut self,
        what: &str,
        subject: &str,
        found: &T,
        wanted: &Option<T>,
    ) -> Result<(), AllocError> {
        let Some(wanted) = wanted else {
            return Ok(());
        };
        let shown = format!(in self.alloc; "{found:?}")?;
        self.note(found == wanted, what, subject, shown.as_str())
    }

    /// Adds the number of rows. Returns the report and the exit status: 0 if there was no line before, else 1.
    pub fn finish(self) -> Result<(String, u8), AllocError> {
        let Report {
            mut lines,
            number,
            ..
        } = self;
        let status = if lines.is_empty() { 0 } else { 1 };
        writeln!(lines, "{number} rows")?;
        Ok((lines, status))
    }
}

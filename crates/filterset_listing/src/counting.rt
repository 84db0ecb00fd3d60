//! Counts of tests.
ghost use Rattle.std.specs.Prelude.{◌≡◌, ◌+◌, ◌++◌, IfOk, OnOk, string_bytes};
ghost use Rattle.filterset_listing.specs.ListText.{some_text};

use std::alloc::AllocError;
use std::fmt::Write;

/// Adds two counts of tests. A sum that a `usize` cannot hold counts as out of memory: memory cannot hold so many tests.
pub fn add_count(count: usize, further: usize) -> Result<usize, AllocError>
    ensures { IfOk result (λ sum. sum ≡ count + further) }
{
    count.checked_add(further).ok_or(AllocError)
}

/// Writes a count between two texts, or nothing if it is 0. Returns an error only if out of memory.
pub fn push_some(
    output: &mut String,
    before: &str,
    count: usize,
    after: &str,
) -> Result<(), AllocError>
    ensures { OnOk result (string_bytes output.new ≡ string_bytes output.old ++ some_text before.now count after.now) }
{
    if count == 0 {
        return Ok(());
    }
    write!(output, "{before}{count}{after}")
}

//! Binaries that nextest skipped, by the answers of two filtersets about them.
ghost use Rattle.std.specs.Prelude.{◌≡◌, ◌++◌, OnOk, string_bytes};
ghost use Rattle.filterset_listing.specs.ComparisonText.{is_skipped_in, skipped_text};

use crate::comparing::{BinaryDifference, Part};
use std::alloc::AllocError;
use std::fmt::Write;

impl BinaryDifference<'_> {
    /// Returns whether nextest skipped the binary, and the filtersets' answers about it are of the part.
    pub(crate) fn is_skipped_in(&self, part: Part) -> bool
        ensures { result ≡ is_skipped_in part self.now }
    {
        self.binary.is_skipped && part.is_of(self.first_answer, self.second_answer)
    }
}

/// Writes the number of the skipped binaries of a part, and with `has_names` their ids, unless there are none.
pub fn push_skipped(
    output: &mut String,
    all: &[BinaryDifference<'_>],
    heading: &str,
    part: Part,
    has_names: bool,
) -> Result<(), AllocError>
    ensures { OnOk result (string_bytes output.new
        ≡ string_bytes output.old ++ skipped_text has_names heading.now part all.now) }
{
    let count = all
        .iter()
        .filter(|difference| difference.is_skipped_in(part))
        .count();
    if count == 0 {
        return Ok(());
    }
    writeln!(output, "{heading}: {count}")?;
    if has_names {
        for difference in all {
            if difference.is_skipped_in(part) {
                let id = difference.binary.query.binary_id.as_str();
                writeln!(output, "    {id}")?;
            }
        }
    }
    Ok(())
}

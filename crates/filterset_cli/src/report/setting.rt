//! What the filtersets of a record are parsed and evaluated with.
ghost use Rattle.filterset_record.specs.Rows.{binary_row};
ghost use Rattle.filterset_cli.specs.Library.{IsAboutBinary};

use crate::lookup::RecordLookup;
use filterset_record::{BinaryEntry, Command};
use nextest_filtering::{BinaryQuery, EvalContext, KnownGroups, ParseContext};

/// What the filtersets of a record are parsed and evaluated with, and what to write about the accepted ones.
#[derive(Debug, Drop)]
pub struct Setting<'a, 'r> {
    pub command: Command,
    pub parse_context: ParseContext<'a>,
    pub known_groups: KnownGroups,
    pub eval_context: EvalContext<'a>,
    pub lookup: RecordLookup<'r>,
}

/// Returns the query about a binary.
pub fn query_of(binary: &BinaryEntry) -> BinaryQuery<'_>
    ensures { IsAboutBinary result (binary_row binary.now) }
{
    BinaryQuery {
        package_id: &binary.package_id,
        binary_id: &binary.id,
        binary_name: binary.name.as_str(),
        kind: &binary.kind,
        platform: binary.platform,
    }
}

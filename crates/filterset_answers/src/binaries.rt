//! The test binaries of nextest's list, as filtersets are asked about them.
ghost use Rattle.std.specs.{Prelude.IfOk, List.AllZip};
ghost use Rattle.filterset_answers.specs.Binaries.{IsAsked};

use filterset_listing::AskedBinary;
use filterset_sources::{Suite, SuiteStatus};
use nextest_filtering::BinaryQuery;
use std::alloc::{AllocError, Global};

/// Returns the binaries of suites, in their order.
pub fn asked_binaries(alloc: Global, suites: &[Suite]) -> Result<Vec<AskedBinary<'_>>, AllocError>
    ensures { IfOk result (λ binaries. AllZip IsAsked suites.now binaries.items) }
{
    let mut binaries = Vec::with_capacity(alloc, suites.len())?;
    for suite in suites {
        binaries.push(AskedBinary {
            query: BinaryQuery {
                package_id: &suite.package_id,
                binary_id: &suite.binary_id,
                binary_name: suite.binary_name.as_str(),
                kind: &suite.kind,
                platform: suite.platform,
            },
            tests: suite.tests.as_slice(),
            uncounted: suite.uncounted.as_slice(),
            is_skipped: suite.status == SuiteStatus::Skipped,
        })?;
    }
    Ok(binaries)
}

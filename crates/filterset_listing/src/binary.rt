//! Test binaries that a filterset is asked about.
use filterset_expression::BinaryQuery;
use filterset_graph::TestCaseName;

/// A test binary that a filterset is asked about, with its tests.
#[derive(Clone, Copy, Debug)]
pub struct AskedBinary<'s> {
    pub query: BinaryQuery<'s>,
    /// The tests that count.
    pub tests: &'s [TestCaseName],
    /// The tests that nextest's option `--run-ignored` leaves out. No filterset is asked about them.
    pub uncounted: &'s [TestCaseName],
    /// Whether nextest skipped the binary when it listed tests. Its tests are then unknown, and there are none here.
    pub is_skipped: bool,
}

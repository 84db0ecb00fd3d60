//! The binaries and tests that expressions are evaluated for.
use filterset_graph::{BuildPlatform, PackageId, RustBinaryId, RustTestBinaryKind, TestCaseName};

/// A test binary.
#[derive(Clone, Copy, Debug, PartialEq, Eq)]
pub struct BinaryQuery<'a> {
    /// The id of the package that the binary is built from.
    pub package_id: &'a PackageId,
    pub binary_id: &'a RustBinaryId,
    pub binary_name: &'a str,
    pub kind: &'a RustTestBinaryKind,
    /// The platform that the binary is built for.
    pub platform: BuildPlatform,
}

/// A test of a binary.
#[derive(Clone, Copy, Debug, PartialEq, Eq)]
pub struct TestQuery<'a> {
    /// The binary that contains the test.
    pub binary_query: BinaryQuery<'a>,
    pub test_name: &'a TestCaseName,
}

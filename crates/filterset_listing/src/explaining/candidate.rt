//! What a filterset is explained for.
use filterset_expression::{BinaryQuery, TestQuery};

/// What a filterset is explained for.
#[derive(Clone, Copy, Debug)]
pub enum Candidate<'q> {
    /// A test binary, whatever its tests are.
    Binary(BinaryQuery<'q>),
    /// A test.
    Test(TestQuery<'q>),
}

//! Packages of a workspace, their dependencies, and the ids of their test binaries. Packages go in, and are refused if an id
//! repeats or a link names no package; sets of ids come out. For all that reads a workspace or asks about its tests.
#![tactic(auto)]

mod binary;
mod graph;
mod index;
mod package;
mod refusal;
mod search;

pub use binary::{GLOBAL_TEST_GROUP, RustBinaryId, RustTestBinaryKind, TestCaseName};
pub use graph::PackageGraph;
pub use package::{BuildPlatform, BuildTarget, BuildTargetId, PackageId, PackageMetadata};
pub use refusal::{DependsRefusal, GraphRefusal};

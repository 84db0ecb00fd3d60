//! The ids and names of packages, binaries and tests, which JSON has as texts.

use crate::entry::{Entry, text_of};
use crate::refusal::EntryRefusal;
use filterset_graph::{BuildPlatform, PackageId, RustBinaryId, RustTestBinaryKind, TestCaseName};
use serde_json::Value;
use std::alloc::Global;

impl Entry for PackageId {
    ghost use Rattle.std.specs.Prelude.{codes};
    ghost use Rattle.filterset_json.specs.{Places.Itself, Shape.IsText, Shape.Text};

    ghost Row = { Text };

    ghost row_of = { λ text. text };

    ghost stands_for = { IsText };

    ghost is_wrong = { Itself IsText (codes "a text") };

    const EXPECTED: &'static str = "a text";

    fn read(alloc: Global, value: &Value) -> Result<PackageId, EntryRefusal> {
        Ok(PackageId::new(String::read(alloc, value)?))
    }
}

impl Entry for RustBinaryId {
    ghost use Rattle.std.specs.Prelude.{codes};
    ghost use Rattle.filterset_json.specs.{Places.Itself, Shape.IsText, Shape.Text};

    ghost Row = { Text };

    ghost row_of = { λ text. text };

    ghost stands_for = { IsText };

    ghost is_wrong = { Itself IsText (codes "a text") };

    const EXPECTED: &'static str = "a text";

    fn read(alloc: Global, value: &Value) -> Result<RustBinaryId, EntryRefusal> {
        Ok(RustBinaryId::new(alloc, text_of(alloc, value)?)?)
    }
}

impl Entry for RustTestBinaryKind {
    ghost use Rattle.std.specs.Prelude.{codes};
    ghost use Rattle.filterset_json.specs.{Places.Itself, Shape.IsText, Shape.Text};

    ghost Row = { Text };

    ghost row_of = { λ text. text };

    ghost stands_for = { IsText };

    ghost is_wrong = { Itself IsText (codes "a text") };

    const EXPECTED: &'static str = "a text";

    fn read(alloc: Global, value: &Value) -> Result<RustTestBinaryKind, EntryRefusal> {
        Ok(RustTestBinaryKind::new(String::read(alloc, value)?))
    }
}

impl Entry for TestCaseName {
    ghost use Rattle.std.specs.Prelude.{codes};
    ghost use Rattle.filterset_json.specs.{Places.Itself, Shape.IsText, Shape.Text};

    ghost Row = { Text };

    ghost row_of = { λ text. text };

    ghost stands_for = { IsText };

    ghost is_wrong = { Itself IsText (codes "a text") };

    const EXPECTED: &'static str = "a text";

    fn read(alloc: Global, value: &Value) -> Result<TestCaseName, EntryRefusal> {
        Ok(TestCaseName::new(alloc, text_of(alloc, value)?)?)
    }
}

impl Entry for BuildPlatform {
    ghost use Rattle.std.specs.Prelude.{codes};
    ghost use Rattle.filterset_json.specs.{Places.Itself, Shape.IsPlatform};
    ghost use Rattle.filterset_graph.specs.declared.package.BuildPlatform as platforms;

    ghost Row = { platforms.BuildPlatform };

    ghost row_of = { λ platform. platform };

    ghost stands_for = { IsPlatform };

    ghost is_wrong = { Itself IsPlatform (codes "`target` or `host`") };

    const EXPECTED: &'static str = "`target` or `host`";

    fn read(alloc: Global, value: &Value) -> Result<BuildPlatform, EntryRefusal> {
        match value.as_str() {
            Some("host") => Ok(BuildPlatform::Host),
            Some("target") => Ok(BuildPlatform::Target),
            _ => Err(EntryRefusal::wrong(alloc, Self::EXPECTED)),
        }
    }
}

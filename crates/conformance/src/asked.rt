//! Binaries and tests about which filtersets are asked.
ghost use Rattle.std.specs.Prelude.{◌≡◌};
ghost use Rattle.filterset_matchers.specs.Matcher.{MatchesName};

use filterset_graph::{
    BuildPlatform, GLOBAL_TEST_GROUP, PackageId, RustBinaryId, RustTestBinaryKind, TestCaseName,
};
use filterset_json::{EntryRefusal, check_keys, given, optional_text};
use nextest_filtering::{BinaryQuery, GroupLookup, NameMatcher, TestQuery};
use serde_json::Value;
use std::alloc::{AllocError, Global};

/// A test binary.
#[derive(Debug, Drop)]
pub struct Binary {
    package_id: PackageId,
    binary_id: RustBinaryId,
    name: String,
    kind: RustTestBinaryKind,
    platform: BuildPlatform,
}

impl Binary {
    /// Reads the binary from its object, or from that of a test. A missing key is that of the binary `cli` of the
    /// package `p`, built for the host.
    pub fn read(alloc: Global, object: &Value) -> Result<Binary, EntryRefusal> {
        let id = optional_text(alloc, object, "id", "p::bin/cli")?;
        Ok(Binary {
            package_id: PackageId::new(optional_text(alloc, object, "package", "p")?),
            binary_id: RustBinaryId::new(alloc, id.as_str())?,
            name: optional_text(alloc, object, "binary", "cli")?,
            kind: RustTestBinaryKind::new(optional_text(alloc, object, "kind", "bin")?),
            platform: given(alloc, object, "platform")?.unwrap_or(BuildPlatform::Host),
        })
    }

    /// Returns the question about the binary.
    pub fn query(&self) -> BinaryQuery<'_> {
        BinaryQuery {
            package_id: &self.package_id,
            binary_id: &self.binary_id,
            binary_name: self.name.as_str(),
            kind: &self.kind,
            platform: self.platform,
        }
    }

    /// Returns the package, the id, the name, the kind and the platform.
    pub fn show(&self, alloc: Global) -> Result<String, AllocError> {
        let (package, id) = (self.package_id.repr(), self.binary_id.as_str());
        let (name, kind, platform) = (self.name.as_str(), self.kind.as_str(), self.platform);
        format!(in alloc; "{package} {id} {name} {kind} {platform}")
    }
}

/// A test, its binary and its group. As a lookup, it answers for tests of its name.
#[derive(Debug, Drop)]
pub struct Test {
    binary: Binary,
    name: TestCaseName,
    group: String,
}

impl Test {
    /// Reads the test from its name, or from an object, in which a missing name is `t`.
    pub fn read(alloc: Global, value: &Value) -> Result<Test, EntryRefusal> {
        let name = match value.as_str() {
            Some(name) => String::from_str(alloc, name)?,
            None => {
                let names = [
                    "package", "id", "binary", "kind", "platform", "name", "group",
                ];
                check_keys(alloc, value, &names)?;
                optional_text(alloc, value, "name", "t")?
            }
        };
        Ok(Test {
            binary: Binary::read(alloc, value)?,
            name: TestCaseName::new(alloc, name.as_str())?,
            group: optional_text(alloc, value, "group", GLOBAL_TEST_GROUP)?,
        })
    }

    /// Returns the question about the test.
    pub fn query(&self) -> TestQuery<'_> {
        TestQuery {
            binary_query: self.binary.query(),
            test_name: &self.name,
        }
    }

    /// Returns the package, the id of the binary, and the name.
    pub fn show(&self, alloc: Global) -> Result<String, AllocError> {
        let (package, id) = (
            self.binary.package_id.repr(),
            self.binary.binary_id.as_str(),
        );
        let name = self.name.as_str();
        format!(in alloc; "{package} {id} {name}")
    }
}

impl GroupLookup for Test {
    ghost use Rattle.std.specs.Prelude.{string_bytes};

    ghost matches_group = { λ known query matcher.
        (query.test_name.now ≡ known.name) × MatchesName matcher (string_bytes known.group) };

    fn is_member_test(
        &self,
        alloc: Global,
        test: &TestQuery<'_>,
        matcher: &NameMatcher,
    ) -> Result<bool, AllocError> {
        if *test.test_name != self.name {
            return Ok(false);
        }
        matcher.is_match(alloc, self.group.as_str())
    }
}

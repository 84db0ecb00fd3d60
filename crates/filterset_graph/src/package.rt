//! Packages: their ids, build targets and dependencies.
ghost use Rattle.std.specs.Prelude.{◌≡◌, IfOk, string_bytes};
ghost use Rattle.std.proofs.Common.{refl, rules};
ghost use Rattle.std.specs.Cmp.Lexicographic.{slice_cmp, nat_list_cmp_total, nat_list_eq_equiv, texts_po, texts_ties};
ghost use Rattle.std.specs.{Cmp.Rules.comparing, Cmp.Rules.hashing, Ordering.nat_cmp, Str.bytes_eq};
ghost use Rattle.std.specs.Cmp as laws;
ghost use Rattle.std.specs.Hash as fed;

use crate::binary::RustTestBinaryKind;
use std::alloc::{AllocError, Global};
use std::cmp::Ordering;
use std::fmt;
use std::hash::{Hash, Hasher};
use std::marker::Model;

/// The id of a package, any text. Contracts see the text; ids are compared and hashed as the bytes of their texts.
#[derive(Debug, Drop)]
pub struct PackageId {
    repr: String,
}

impl Model for PackageId {
    ghost use Rattle.std.specs.Prelude.{List, ℕ, string_bytes};

    ghost Value = { List ℕ };

    ghost view = { λ id. string_bytes id.repr };
}

impl PackageId {
    /// Returns the id with this text.
    pub fn new(repr: String) -> PackageId
        ensures { result ≡ string_bytes repr }
    {
        PackageId { repr }
    }

    /// Returns the text of the id.
    pub fn repr(&self) -> &str
        ensures { result.now ≡ self.now }
    {
        self.repr.as_str()
    }

    /// Copies the id. The only error is out of memory.
    pub fn try_clone(&self, alloc: Global) -> Result<PackageId, AllocError>
        ensures { IfOk result (λ copy. copy ≡ self.now) }
    {
        Ok(PackageId {
            repr: String::from_str(alloc, self.repr())?,
        })
    }
}

impl PartialEq for PackageId {
    ghost eq = { bytes_eq };

    ghost laws = { laws.partial_equiv_from_equiv nat_list_eq_equiv };

    fn eq(&self, other: &PackageId) -> bool {
        self.repr() == other.repr()
    }
}

impl Eq for PackageId {
    ghost laws = { nat_list_eq_equiv };
}

impl PartialOrd for PackageId {
    ghost use Rattle.std.specs.Cmp.Lexicographic.{slice_cmp, texts_po};
    ghost use Rattle.std.specs.{Ordering.nat_cmp, Prelude.Some};

    ghost partial_cmp = { λ x y. Some (slice_cmp nat_cmp x y) };

    ghost laws = { texts_po };

    fn partial_cmp(&self, other: &PackageId) -> Option<Ordering> {
        Some(self.cmp(other))
    }
}

impl Ord for PackageId {
    ghost cmp = { slice_cmp nat_cmp };

    ghost total = { nat_list_cmp_total };

    ghost matches_partial_cmp = { λ x y. refl };

    ghost matches_eq = { texts_ties };

    fn cmp(&self, other: &PackageId) -> Ordering {
        self.repr().cmp(other.repr())
    }
}

impl Hash for PackageId {
    ghost hash_input = { fed.str };

    ghost respects_eq = { Prim.search (hashing, rules) };

    fn hash<H: Hasher>(&self, state: &mut H) {
        self.repr().hash(state);
    }
}

/// The platform that a test binary is built for. Displays as `target` or `host`.
#[derive(Clone, Copy, Debug, PartialEq, Eq)]
pub enum BuildPlatform {
    /// The platform that the built programs run on.
    Target,
    /// The platform that compiles them, as for procedural macros.
    Host,
}

impl fmt::Display for BuildPlatform {
    ghost use Rattle.std.specs.Prelude.{Some};
    ghost use Rattle.filterset_graph.specs.Platforms.{platform_text};

    ghost output = { λ platform. Some (platform_text platform) };

    fn fmt<W: fmt::Write>(&self, f: &mut fmt::Formatter<W>) -> fmt::Result {
        match self {
            BuildPlatform::Target => f.write_str("target"),
            BuildPlatform::Host => f.write_str("host"),
        }
    }
}

/// The kind of a build target.
#[derive(Clone, Copy, Debug, PartialEq, Eq)]
pub enum BuildTargetId {
    /// The library, or a procedural macro.
    Library,
    /// A program.
    Binary,
    /// A program under `examples/`.
    Example,
    /// An integration test.
    Test,
    /// A benchmark.
    Benchmark,
    /// The build script.
    BuildScript,
}

impl BuildTargetId {
    ghost use Rattle.std.specs.Prelude.{◌≡◌};
    ghost use Rattle.filterset_graph.specs.Binaries.{kind_of};

    /// Returns the kind of the target's test binary: `lib`, `bin`, `example`, `test` or `bench`. A build script has
    /// none.
    pub fn binary_kind(self) -> Option<RustTestBinaryKind>
        ensures { result ≡ kind_of self }
    {
        match self {
            BuildTargetId::Library => Some(RustTestBinaryKind::LIB),
            BuildTargetId::Binary => Some(RustTestBinaryKind::BIN),
            BuildTargetId::Example => Some(RustTestBinaryKind::EXAMPLE),
            BuildTargetId::Test => Some(RustTestBinaryKind::TEST),
            BuildTargetId::Benchmark => Some(RustTestBinaryKind::BENCH),
            BuildTargetId::BuildScript => None,
        }
    }
}

/// A build target of a package.
#[derive(Debug, Drop)]
pub struct BuildTarget {
    /// Its kind.
    pub id: BuildTargetId,
    /// Its name, and the name of its test binary.
    pub name: String,
}

/// A package.
#[derive(Debug, Drop)]
pub struct PackageMetadata {
    /// The id; `links` of other packages name the package by it.
    pub id: PackageId,
    /// The name, which matchers match. Packages may share a name.
    pub name: String,
    /// Whether the package belongs to the workspace.
    pub in_workspace: bool,
    /// Its build targets.
    pub build_targets: Vec<BuildTarget>,
    /// The ids of its direct dependencies.
    pub links: Vec<PackageId>,
}

impl PackageMetadata {
    /// Returns the id.
    pub fn id(&self) -> &PackageId
        ensures { result.now ≡ self.now.id }
    {
        &self.id
    }

    /// Returns the name.
    pub fn name(&self) -> &str
        ensures { result.now ≡ string_bytes self.now.name }
    {
        self.name.as_str()
    }
}

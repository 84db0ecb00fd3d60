//! What C asks about: test binaries and tests, whose texts are slices of bytes.
ghost use Rattle.std.specs.Prelude.{◌≡◌, ◌≤◌, ◌<◌, ◌↔◌, All, Err, IfErr, IfOk, IsTrue, MatchResult};
ghost use Rattle.std.specs.Str.{IsUtf8};
ghost use Rattle.filterset_c.specs.Queries.{matches_named, AreTexts, HasPlatform, HasTexts, IsAbout, IsKnownBinary, IsText, IsWellBinary, IsWellTest};
ghost use Rattle.filterset_c.specs.declared.failure.Failure.TheVariants.{InvalidArgument, NotUtf8, OutOfMemory};
ghost use Rattle.filterset_c.specs.declared.queries.{Binary.Binary as BinaryOfC, Test.Test as TestOfC};

use crate::failure::Failure;
use nextest_filtering::{
    BinaryQuery, BuildPlatform, GroupLookup, NameMatcher, PackageId, RustBinaryId,
    RustTestBinaryKind, TestCaseName, TestQuery,
};
use std::alloc::{AllocError, Global};

/// A test binary. Each slice must be UTF-8.
#[repr(C)]
#[derive(Clone, Copy)]
pub struct Binary<'a> {
    pub package_id: &'a [u8],
    pub binary_id: &'a [u8],
    pub name: &'a [u8],
    pub kind: &'a [u8],
    /// 0 if it is built for the target, 1 if it is built for the host.
    pub platform: u8,
}

/// A test of a binary. Each slice must be UTF-8.
#[repr(C)]
pub struct Test<'a> {
    pub name: &'a [u8],
    /// The name of the group that the test is in.
    pub group: &'a [u8],
}

/// A text, which must be UTF-8.
#[repr(C)]
pub struct Text<'a> {
    pub bytes: &'a [u8],
}

/// Returns the bytes as a text. Fails if they are not UTF-8.
pub fn text_of(bytes: &[u8]) -> Result<&str, Failure>
    ensures { MatchResult result (λ text. (text.now ≡ bytes.now) × IsUtf8 bytes.now)
        (λ failure. (failure ≡ NotUtf8) × (IsUtf8 bytes.now → ⊥)) }
{
    match std::str::from_utf8(bytes) {
        Ok(text) => Ok(text),
        Err(_) => Err(Failure::NotUtf8),
    }
}

/// Returns the platform that has this number.
pub fn platform_of(number: u8) -> Result<BuildPlatform, Failure>
    ensures platform { IfOk result (HasPlatform number) }
    ensures number { 2 ≤ number → result ≡ Err InvalidArgument }
    ensures well { number < 2 → IfErr result (λ failure. ⊥) }
{
    match number {
        0 => Ok(BuildPlatform::Target),
        1 => Ok(BuildPlatform::Host),
        _ => Err(Failure::InvalidArgument),
    }
}

/// Returns whether the bytes are UTF-8.
fn is_utf8(bytes: &[u8]) -> bool
    ensures { IsTrue result ↔ IsUtf8 bytes.now }
{
    text_of(bytes).is_ok()
}

/// Returns whether the texts of a test are UTF-8.
fn is_well_test(test: &Test<'_>) -> bool
    ensures { IsTrue result ↔ IsWellTest test.now }
{
    is_utf8(test.name) && is_utf8(test.group)
}

/// Returns whether the texts of all tests are UTF-8.
pub fn are_texts(tests: &[Test<'_>]) -> bool
    ensures { IsTrue result ↔ All IsWellTest tests.now }
{
    tests.iter().all(|test| is_well_test(test))
}

/// Returns whether all texts are UTF-8.
pub fn are_utf8(texts: &[Text<'_>]) -> bool
    ensures { IsTrue result ↔ All IsText texts.now }
{
    texts.iter().all(|text| is_utf8(text.bytes))
}

/// A test binary in types of the library.
#[derive(Drop)]
pub struct KnownBinary<'a> {
    pub package_id: PackageId,
    pub binary_id: RustBinaryId,
    pub name: &'a str,
    pub kind: RustTestBinaryKind,
    pub platform: BuildPlatform,
}

impl<'a> KnownBinary<'a> {
    /// Reads the description of a binary. Checks the platform, then the texts, then copies.
    pub fn read(alloc: Global, binary: &Binary<'a>) -> Result<KnownBinary<'a>, Failure>
        ensures known { IfOk result (IsKnownBinary binary.now) }
        ensures texts { IfOk result (λ _. HasTexts binary.now) }
        ensures number { 2 ≤ binary.now.platform → result ≡ Err InvalidArgument }
        ensures not_utf8 { binary.now.platform < 2 → (HasTexts binary.now → ⊥) → result ≡ Err NotUtf8 }
        ensures well { IsWellBinary binary.now → IfErr result (λ failure. failure ≡ OutOfMemory) }
    {
        let platform = platform_of(binary.platform)?;
        let package_id = text_of(binary.package_id)?;
        let binary_id = text_of(binary.binary_id)?;
        let name = text_of(binary.name)?;
        let kind = text_of(binary.kind)?;
        Ok(KnownBinary {
            package_id: PackageId::new(String::from_str(alloc, package_id)?),
            binary_id: RustBinaryId::new(alloc, binary_id)?,
            name,
            kind: RustTestBinaryKind::new(String::from_str(alloc, kind)?),
            platform,
        })
    }

    /// Returns the query about the binary.
    pub fn query(&self) -> BinaryQuery<'_>
        ensures { (binary : BinaryOfC) → IsKnownBinary binary self.now → IsAbout binary result }
    {
        BinaryQuery {
            package_id: &self.package_id,
            binary_id: &self.binary_id,
            binary_name: self.name,
            kind: &self.kind,
            platform: self.platform,
        }
    }
}

/// The lookup for one test, whose group C names.
#[derive(Clone, Copy, Debug)]
pub struct NamedGroup<'a> {
    pub name: &'a str,
}

impl GroupLookup for NamedGroup<'_> {
    ghost matches_group = { λ group. matches_named group.name.now };

    fn is_member_test(
        &self,
        alloc: Global,
        _test: &TestQuery<'_>,
        matcher: &NameMatcher,
    ) -> Result<bool, AllocError> {
        matcher.is_match(alloc, self.name)
    }
}

/// A test in types of the library.
#[derive(Drop)]
pub struct KnownTest<'a> {
    pub name: TestCaseName,
    pub group: NamedGroup<'a>,
}

impl<'a> KnownTest<'a> {
    ghost use Rattle.filterset_c.specs.Queries.{IsKnownTest};

    /// Copies the description of a test, whose parts are UTF-8. The only error is out of memory.
    pub fn read(alloc: Global, test: &Test<'a>) -> Result<KnownTest<'a>, AllocError>
        requires { IsWellTest test.now }
        ensures { IfOk result (IsKnownTest test.now) }
    {
        let name = unsafe { str::from_utf8_unchecked(test.name) };
        let group = unsafe { str::from_utf8_unchecked(test.group) };
        Ok(KnownTest {
            name: TestCaseName::new(alloc, name)?,
            group: NamedGroup { name: group },
        })
    }

    /// Returns the query about this test of a binary.
    pub fn query<'q>(&'q self, binary_query: BinaryQuery<'q>) -> TestQuery<'q>
        ensures binary { result.binary_query ≡ binary_query.entry }
        ensures name { result.test_name.now ≡ self.now.name }
    {
        TestQuery {
            binary_query,
            test_name: &self.name,
        }
    }
}

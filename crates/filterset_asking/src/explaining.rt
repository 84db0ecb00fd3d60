//! Which binary or test `explain` and `overrides` are about.
ghost use Rattle.std.specs.{Prelude.◌≡◌, Prelude.IfErr, Prelude.IfOk, Prelude.Option, Prelude.option_map, Borrow.Bor};
ghost use Rattle.filterset_display.specs.Columns.{Text};
ghost use Rattle.filterset_asking.specs.Explaining.{IsCandidate, IsMissing, binary_called, is_uncounted, name_called, test_called};
ghost use Rattle.filterset_loading.specs.Files.{OrMemory};

use filterset_listing::{AskedBinary, Candidate};
use filterset_loading::CommandFault;
use nextest_filtering::{TestCaseName, TestQuery};
use std::alloc::Global;

/// Returns the first binary with this id.
fn binary_called<'b, 's>(binaries: &'b [AskedBinary<'s>], id: &str) -> Option<&'b AskedBinary<'s>>
    ensures { option_map (λ b. b.now) result ≡ binary_called id.now binaries.now }
{
    binaries
        .iter()
        .find(|binary| binary.query.binary_id.as_str() == id)
}

/// Returns the first test with this name.
fn test_called<'s>(tests: &'s [TestCaseName], name: &str) -> Option<&'s TestCaseName>
    ensures { option_map (λ t. t.now) result ≡ name_called name.now tests.now }
{
    tests.iter().find(|test| test.as_str() == name)
}

/// Returns whether the binary with this id has a test with this name that does not count.
pub fn is_uncounted(binaries: &[AskedBinary<'_>], id: &str, test: Option<&str>) -> bool
    ensures { result ≡ is_uncounted binaries.now id.now test.entry }
{
    let Some(test) = test else {
        return false;
    };
    match binary_called(binaries, id) {
        Some(binary) => test_called(binary.uncounted, test).is_some(),
        None => false,
    }
}

/// Returns the first binary with this id. The fault names the list at the path `list`.
pub fn find_binary<'b, 's>(
    alloc: Global,
    list: &str,
    id: &str,
    binaries: &'b [AskedBinary<'s>],
) -> Result<&'b AskedBinary<'s>, CommandFault>
    ensures found { IfOk result (λ binary. binary_called id.now binaries.now ≡ Some binary.now) }
    ensures missing { IfErr result (λ fault. (test : Option (Bor Text))
        → OrMemory (IsMissing list.now binaries.now id.now test) fault) }
{
    let Some(binary) = binary_called(binaries, id) else {
        return Err(CommandFault::NoBinary {
            list: String::from_str(alloc, list)?,
            binary: String::from_str(alloc, id)?,
        });
    };
    Ok(binary)
}

/// Returns the test with this name of the binary with this id. The fault names the list at the path `list`.
pub fn find_test<'s>(
    alloc: Global,
    list: &str,
    id: &str,
    test: &str,
    binaries: &[AskedBinary<'s>],
) -> Result<TestQuery<'s>, CommandFault>
    ensures found { IfOk result (λ query. IsCandidate binaries.now id.now (Some test.entry) (Candidate.Test query)) }
    ensures missing { IfErr result (OrMemory (IsMissing list.now binaries.now id.now (Some test.entry))) }
{
    let binary = find_binary(alloc, list, id, binaries)?;
    let counted = test_called(binary.tests, test);
    let Some(test_name) = counted.or_else(|| test_called(binary.uncounted, test)) else {
        return Err(CommandFault::NoTest {
            list: String::from_str(alloc, list)?,
            binary: String::from_str(alloc, id)?,
            test: String::from_str(alloc, test)?,
        });
    };
    Ok(TestQuery {
        binary_query: binary.query,
        test_name,
    })
}

/// Returns the binary with this id, or its test with this name. The fault names the list at the path `list`.
pub fn candidate_of<'s>(
    alloc: Global,
    list: &str,
    id: &str,
    test: Option<&str>,
    binaries: &[AskedBinary<'s>],
) -> Result<Candidate<'s>, CommandFault>
    ensures found { IfOk result (IsCandidate binaries.now id.now test.entry) }
    ensures missing { IfErr result (OrMemory (IsMissing list.now binaries.now id.now test.entry)) }
{
    match test {
        None => {
            let binary = find_binary(alloc, list, id, binaries)?;
            Ok(Candidate::Binary(binary.query))
        }
        Some(test) => {
            let query = find_test(alloc, list, id, test, binaries)?;
            Ok(Candidate::Test(query))
        }
    }
}

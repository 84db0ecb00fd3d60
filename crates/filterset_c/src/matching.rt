//! Evaluates filtersets for a binary, and for its tests.
ghost use Rattle.std.specs.Prelude.{◌≡◌, ◌≢◌, ◌≤◌, ◌<◌, All, Err, IfErr, IfOk, Some, length};
ghost use Rattle.std.specs.List.{AllZip};
ghost use Rattle.filterset_expression.specs.FlatExpressions.{IsTold};
ghost use Rattle.filterset_c.specs.Answers.{binary_number, yes_or_no, HoldsFilterset, IsBinaryAnswer, IsBinaryNumber, IsFilterset, IsFlatNumber, IsNoFilterset, IsTestNumber};
ghost use Rattle.filterset_c.specs.Queries.{AreAllTexts, HasTexts, IsAbout, IsWellBinary, IsWellTest};
ghost use Rattle.filterset_c.specs.declared.failure.Failure.TheVariants.{InvalidArgument, NotUtf8, OutOfMemory, WrongHandle};
ghost use Rattle.filterset_c.specs.declared.queries.Binary.{Binary as BinaryOfC};

use crate::failure::Failure;
use crate::object::{BoundFilterset, Object};
use crate::queries::{Binary, KnownBinary, KnownTest, Test, are_texts, platform_of};
use nextest_filtering::{BinaryQuery, FlatExpr};
use std::alloc::{AllocError, Global};

/// Returns the number of an answer.
pub fn yes_or_no(answer: bool) -> u8
    ensures { result ≡ yes_or_no answer }
{
    if answer { 1 } else { 0 }
}

/// Returns the number of an answer for a binary.
fn binary_number(answer: Option<bool>) -> u8
    ensures { result ≡ binary_number answer }
{
    match answer {
        Some(answer) => yes_or_no(answer),
        None => 2,
    }
}

/// Returns what the filterset decides for a binary.
fn match_binary(
    alloc: Global,
    bound: &BoundFilterset,
    binary: &Binary<'_>,
) -> Result<Option<bool>, Failure>
    ensures answer { IfOk result (IsBinaryAnswer bound.now binary.now) }
    ensures number { 2 ≤ binary.now.platform → result ≡ Err InvalidArgument }
    ensures not_utf8 { binary.now.platform < 2 → (HasTexts binary.now → ⊥) → result ≡ Err NotUtf8 }
    ensures well { IsWellBinary binary.now → IfErr result (λ failure. failure ≡ OutOfMemory) }
{
    let known = KnownBinary::read(alloc, binary)?;
    let answer = bound
        .filterset
        .matches_binary(alloc, &known.query(), &bound.eval_context())?;
    Ok(answer)
}

/// Returns the number of the answer for a binary.
pub fn number_of_binary(alloc: Global, object: &Object, binary: &Binary<'_>) -> Result<u8, Failure>
    ensures number { IfOk result (λ number.
        HoldsFilterset (λ bound. IsBinaryNumber bound binary.now number) (Some object.now)) }
    ensures well { IsFilterset (Some object.now) → IsWellBinary binary.now
        → IfErr result (λ failure. failure ≡ OutOfMemory) }
    ensures wrong { IsNoFilterset (Some object.now) → result ≡ Err WrongHandle }
    ensures no_platform { IsFilterset (Some object.now) → 2 ≤ binary.now.platform → result ≡ Err InvalidArgument }
    ensures not_utf8 { IsFilterset (Some object.now) → binary.now.platform < 2
        → (HasTexts binary.now → ⊥) → result ≡ Err NotUtf8 }
{
    match object {
        Object::Filterset(bound) => {
            let answer = match_binary(alloc, bound, binary)?;
            Ok(binary_number(answer))
        }
        Object::Workspace(_) | Object::Refused(_) => Err(Failure::WrongHandle),
    }
}

/// Returns the number of the answer for a test, given what was told of its binary. The only error is out of memory.
fn flat_number(
    alloc: Global,
    flat: &FlatExpr<'_>,
    binary_query: &BinaryQuery<'_>,
    told: Option<bool>,
    test: &Test<'_>,
) -> Result<u8, AllocError>
    requires told { IsTold flat.now binary_query.now told }
    requires well { IsWellTest test.now }
    ensures { IfOk result (IsFlatNumber flat.now binary_query.now test.now) }
{
    if let Some(answer) = told {
        return Ok(yes_or_no(answer));
    }
    let known_test = KnownTest::read(alloc, test)?;
    let query = known_test.query(*binary_query);
    let answer = flat.matches_test_with_groups(alloc, &query, &known_test.group)?;
    Ok(yes_or_no(answer))
}

/// Returns the numbers of the answers for all tests of a binary, which is asked about first. The only error is out of
/// memory.
fn numbers_by_steps(
    alloc: Global,
    bound: &BoundFilterset,
    binary_query: &BinaryQuery<'_>,
    tests: &[Test<'_>],
) -> Result<Vec<u8>, AllocError>
    requires { All IsWellTest tests.now }
    ensures { IfOk result (λ numbers. (binary : BinaryOfC) → IsAbout binary binary_query.now
        → AllZip (IsTestNumber bound.now binary) tests.now numbers.items) }
{
    let flat = FlatExpr::new(alloc, &bound.filterset.compiled, &bound.eval_context())?;
    let told = flat.matches_binary(alloc, binary_query)?;
    let mut numbers = Vec::with_capacity(alloc, tests.len())?;
    for test in tests {
        numbers.push(flat_number(alloc, &flat, binary_query, told, test)?)?;
    }
    Ok(numbers)
}

/// Returns the numbers of the answers for all tests of a binary. Checks the platform, then all texts.
fn match_tests(
    alloc: Global,
    bound: &BoundFilterset,
    binary: &Binary<'_>,
    tests: &[Test<'_>],
) -> Result<Vec<u8>, Failure>
    ensures numbers { IfOk result (λ numbers. AllZip (IsTestNumber bound.now binary.now) tests.now numbers.items) }
    ensures number { 2 ≤ binary.now.platform → result ≡ Err InvalidArgument }
    ensures not_utf8 { binary.now.platform < 2 → (AreAllTexts binary.now tests.now → ⊥) → result ≡ Err NotUtf8 }
    ensures well { IsWellBinary binary.now → All IsWellTest tests.now → IfErr result (λ failure. failure ≡ OutOfMemory) }
{
    let _platform = platform_of(binary.platform)?;
    if !are_texts(tests) {
        return Err(Failure::NotUtf8);
    }
    let known = KnownBinary::read(alloc, binary)?;
    let numbers = numbers_by_steps(alloc, bound, &known.query(), tests)?;
    Ok(numbers)
}

/// Returns the numbers of the answers for all tests of a binary, of which there must be so many.
pub fn test_numbers(
    alloc: Global,
    object: &Object,
    binary: &Binary<'_>,
    tests: &[Test<'_>],
    count: usize,
) -> Result<Vec<u8>, Failure>
    ensures numbers { IfOk result (λ numbers.
        HoldsFilterset (λ bound. AllZip (IsTestNumber bound binary.now) tests.now numbers.items) (Some object.now)) }
    ensures count { IfOk result (λ numbers. length numbers.items ≡ count) }
    ensures well { IsFilterset (Some object.now) → IsWellBinary binary.now → All IsWellTest tests.now
        → length tests.now ≡ count → IfErr result (λ failure. failure ≡ OutOfMemory) }
    ensures wrong { IsNoFilterset (Some object.now) → result ≡ Err WrongHandle }
    ensures other_count { IsFilterset (Some object.now) → length tests.now ≢ count → result ≡ Err InvalidArgument }
    ensures no_platform { IsFilterset (Some object.now) → 2 ≤ binary.now.platform → result ≡ Err InvalidArgument }
    ensures not_utf8 { IsFilterset (Some object.now) → binary.now.platform < 2 → length tests.now ≡ count
        → (AreAllTexts binary.now tests.now → ⊥) → result ≡ Err NotUtf8 }
{
    match object {
        Object::Filterset(bound) => {
            if tests.len() != count {
                return Err(Failure::InvalidArgument);
            }
            let numbers = match_tests(alloc, bound, binary, tests)?;
            Ok(numbers)
        }
        Object::Workspace(_) | Object::Refused(_) => Err(Failure::WrongHandle),
    }
}

//! What may be offered at a position of a filterset.
ghost use Rattle.std.specs.Prelude.{◌≡◌, ◌<◌, ◌^◌, IfOk, length, map};
ghost use Rattle.filterset_offers.specs.Candidates as spec;
ghost use Rattle.filterset_offers.specs.Candidates.{row_of};

use crate::named::Named;
use std::alloc::{AllocError, Global};

/// A predicate with an argument of which some values are known.
#[derive(Clone, Copy, Debug, PartialEq, Eq)]
pub enum Owner {
    Kind,
    Platform,
    Group,
}

/// How a text with a candidate shows that the candidate stands where it may.
#[derive(Clone, Copy, Debug, PartialEq, Eq)]
pub enum Mark {
    /// By a predicate of its name, whose span begins so many bytes after where it begins.
    Begins(usize),
    /// By an operand after it: `default()`, so many bytes after where it begins.
    Precedes(usize),
    /// By a predicate in whose argument it is.
    Inside(Owner),
    /// By a predicate of what is named so, whose argument is this name.
    Names(Named),
}

/// What may be offered.
#[derive(Clone, Copy, Debug)]
pub struct Candidate<'n> {
    /// What is shown, and what has to begin with what is typed.
    pub label: &'n str,
    /// What is put after the label.
    pub tail: &'static str,
    /// What makes a filterset of both, where one is to be tried.
    pub sample: &'static str,
    pub mark: Mark,
    /// The protocol's number of what it is.
    pub kind: u8,
    /// What it means.
    pub detail: &'static str,
}

/// Makes the candidate of a predicate with an argument.
fn calling<'n>(label: &'n str, sample: &'static str, detail: &'static str) -> Candidate<'n>
    requires { length label.now < 2 ^ 16 }
    ensures { row_of result ≡ spec.calling label.entry.now sample.now detail.now }
{
    Candidate {
        label,
        tail: "(",
        sample,
        mark: Mark::Begins(label.len() + 1),
        kind: 3,
        detail,
    }
}

/// Makes the candidate of a predicate without an argument.
fn whole<'n>(label: &'n str, detail: &'static str) -> Candidate<'n>
    requires { length label.now < 2 ^ 16 }
    ensures { row_of result ≡ spec.whole label.entry.now detail.now }
{
    Candidate {
        label,
        tail: "()",
        sample: " and default()",
        mark: Mark::Precedes(label.len() + 7),
        kind: 3,
        detail,
    }
}

/// Returns the candidates that are predicates.
fn predicates<'n>(alloc: Global) -> Result<Vec<Candidate<'n>>, AllocError>
    ensures { IfOk result (λ made. map row_of made.items ≡ spec.predicates) }
{
    Ok(vec![in alloc;
        calling(
            "package",
            "x)",
            "Tests of workspace packages, by their names"
        ),
        calling(
            "deps",
            "x)",
            "The same, and tests of the packages that these depend on"
        ),
        calling(
            "rdeps",
            "x)",
            "The same, and tests of the packages that depend on these"
        ),
        calling("kind", "x)", "Tests of binaries, by their kinds"),
        calling("binary", "x)", "Tests of binaries, by their names"),
        calling("binary_id", "x)", "Tests of binaries, by their ids"),
        calling(
            "platform",
            "host)",
            "Tests of binaries, by the platform that they are built for"
        ),
        calling("test", "x)", "Tests, by their names"),
        calling("group", "x)", "Tests, by their groups"),
        Candidate {
            label: "default",
            tail: "()",
            sample: "",
            mark: Mark::Begins(0),
            kind: 3,
            detail: "Tests that the default filter picks",
        },
        whole("all", "All tests"),
        whole("none", "No tests"),
    ]?)
}

/// Makes the candidate of an operator.
fn operator<'n>(label: &'n str, kind: u8, detail: &'static str) -> Candidate<'n>
    requires { length label.now < 2 ^ 16 }
    ensures { row_of result ≡ spec.operator label.entry.now kind detail.now }
{
    Candidate {
        label,
        tail: "",
        sample: " default()",
        mark: Mark::Precedes(label.len() + 1),
        kind,
        detail,
    }
}

/// Returns the candidates that are operators.
fn operators<'n>(alloc: Global) -> Result<Vec<Candidate<'n>>, AllocError>
    ensures { IfOk result (λ made. map row_of made.items ≡ spec.operators) }
{
    Ok(vec![in alloc;
        operator("not", 14, "Tests that the operand does not match"),
        operator("and", 14, "Tests that both operands match"),
        operator("or", 14, "Tests that one operand matches, or both"),
        operator("!", 24, "The same as `not`"),
        operator("&", 24, "The same as `and`"),
        operator("|", 24, "The same as `or`"),
        operator("+", 24, "The same as `or`"),
        operator(
            "-",
            24,
            "Tests that the left operand matches, and not the right one"
        ),
        operator("^", 24, "Tests that one operand matches, and not both"),
    ]?)
}

/// Makes the candidate of a value of an argument.
fn value_of<'n>(owner: Owner, label: &'n str, detail: &'static str) -> Candidate<'n>
    ensures { row_of result ≡ spec.value_of owner label.entry.now detail.now }
{
    Candidate {
        label,
        tail: "",
        sample: "",
        mark: Mark::Inside(owner),
        kind: 20,
        detail,
    }
}

/// Returns the candidates that are values of arguments.
fn values<'n>(alloc: Global) -> Result<Vec<Candidate<'n>>, AllocError>
    ensures { IfOk result (λ made. map row_of made.items ≡ spec.values) }
{
    Ok(vec![in alloc;
        value_of(Owner::Kind, "lib", "Unit tests of a library"),
        value_of(Owner::Kind, "bin", "Unit tests of a program"),
        value_of(Owner::Kind, "test", "Integration tests"),
        value_of(Owner::Kind, "bench", "Benchmarks"),
        value_of(Owner::Kind, "example", "Tests of an example"),
        value_of(
            Owner::Kind,
            "proc-macro",
            "Unit tests of a procedural macro"
        ),
        value_of(Owner::Platform, "host", "Built for the host"),
        value_of(Owner::Platform, "target", "Built for the target"),
        value_of(Owner::Group, "@global", "Tests in no other group"),
    ]?)
}

/// Returns what a name is of.
fn detail_of(named: Named) -> &'static str
    ensures { result.now ≡ spec.detail_of named }
{
    match named {
        Named::Package => "A package of the workspace",
        Named::Binary => "A test binary",
        Named::BinaryId => "The id of a test binary",
        Named::Test => "A test",
    }
}

/// Makes the candidate of a name.
pub fn naming<'n>(named: Named, name: &'n str) -> Candidate<'n>
    ensures { row_of result ≡ spec.naming named name.entry.now }
{
    Candidate {
        label: name,
        tail: "",
        sample: "",
        mark: Mark::Names(named),
        kind: 12,
        detail: detail_of(named),
    }
}

/// Returns whether a byte is one of words of the language.
pub fn is_word_byte(byte: u8) -> bool
    ensures { result ≡ spec.is_word_byte byte }
{
    byte.is_ascii_lowercase() || byte.is_ascii_uppercase() || byte.is_ascii_digit() || byte == b'_'
}

/// Returns whether a byte is one of names.
pub fn is_name_byte(byte: u8) -> bool
    ensures { result ≡ spec.is_name_byte byte }
{
    is_word_byte(byte)
        || byte == b'-'
        || byte == b'.'
        || byte == b'/'
        || byte == b':'
        || byte == b'@'
}

/// Returns all candidates.
pub fn all_candidates<'n>(alloc: Global) -> Result<Vec<Candidate<'n>>, AllocError>
    ensures { IfOk result (λ made. map row_of made.items ≡ spec.all_rows) }
{
    let mut candidates = predicates(alloc)?;
    let mut more = operators(alloc)?;
    candidates.append(&mut more)?;
    let mut last = values(alloc)?;
    candidates.append(&mut last)?;
    Ok(candidates)
}

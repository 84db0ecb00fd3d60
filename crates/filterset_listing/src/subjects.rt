//! What filtersets are asked about for a list of tests.
ghost use Rattle.std.specs.Prelude.{◌≡◌, ◌++◌, IfOk, List, OnOk};
ghost use Rattle.filterset_expression.specs.{Contexts.default_of, FlatExpressions.IsFlatOfTree};
ghost use Rattle.filterset_expression.specs.declared.expression.CompiledExpr as compiled;
ghost use Rattle.filterset_faults.specs.declared.span.SourceSpan.{SourceSpan};
ghost use Rattle.filterset_grammar.specs.Tree.{Tree};
ghost use Rattle.filterset_graph.specs.declared.package.PackageMetadata.{PackageMetadata};
ghost use Rattle.filterset_listing.specs.Overrides.{AreLaid, AreTold};
ghost use Rattle.filterset_listing.specs.Subjects.{AreOfBinary, AreOfCandidate, AreOfTest, AreSubjects, HangsBy};
ghost use Rattle.filterset_listing.specs.Values.{HasValueIn};
ghost use Rattle.filterset_listing.specs.declared.groups.GroupOverride as groups;
ghost use Rattle.filterset_listing.specs.declared.subjects.Subject as declared;

use crate::binary::AskedBinary;
use crate::explaining::candidate::Candidate;
use crate::groups::{FlatOverride, GroupOverride, ToldOverride, lay_out, picks_in, told_overrides};
use crate::lookup::OneGroup;
use filterset_expression::{CompiledExpr, EvalContext, FlatExpr, TestQuery};
use filterset_graph::GLOBAL_TEST_GROUP;
use std::alloc::{AllocError, Global};

/// What a filterset is asked about: a test in a group, or a binary whose tests are unknown.
#[derive(Clone, Copy, Debug)]
pub struct Subject<'s> {
    pub candidate: Candidate<'s>,
    /// The group of the test.
    pub group: &'s str,
}

impl Subject<'_> {
    /// Evaluates a flat expression for the subject. `None` is unknown.
    pub fn ask(&self, alloc: Global, flat: &FlatExpr<'_>) -> Result<Option<bool>, AllocError>
        ensures { IfOk result (λ value. (packages : List PackageMetadata) (e : Tree SourceSpan)
            (default : compiled.CompiledExpr) → IsFlatOfTree flat.now packages e default
            → HasValueIn self.now.group.now self.now.candidate packages default e value) }
    {
        match &self.candidate {
            Candidate::Binary(query) => {
                let answer = flat.matches_binary(alloc, query)?;
                Ok(answer)
            }
            Candidate::Test(query) => {
                let lookup = OneGroup { group: self.group };
                let holds = picks_in(alloc, flat, &lookup, query)?;
                Ok(Some(holds))
            }
        }
    }
}

/// Adds the test in each group that it may be in, where `rows` are the overrides that may apply to tests of its binary. Returns
/// the path of the override that its group depends on: the first one that picks it and whose platforms are unknown.
fn push_test<'s>(
    subjects: &mut Vec<Subject<'s>>,
    alloc: Global,
    rows: &[ToldOverride<'_, 's, '_>],
    test: TestQuery<'s>,
) -> Result<Option<&'s str>, AllocError>
    ensures { IfOk result (λ path. (default : compiled.CompiledExpr) (overrides : List groups.GroupOverride)
        → AreTold default overrides test.entry.binary_query rows.now
        → (added : List declared.Subject) × (subjects.new.items ≡ subjects.old.items ++ added)
        × AreOfTest default overrides test.entry added × HangsBy default overrides test.entry added path) }
{
    let mut path = None;
    for row in rows {
        if row.covers(alloc, &test)? {
            let given = row.laid.given;
            subjects.push(Subject {
                candidate: Candidate::Test(test),
                group: given.group,
            })?;
            if row.is_sure {
                return Ok(path);
            }
            path = Some(path.unwrap_or(given.path));
        }
    }
    subjects.push(Subject {
        candidate: Candidate::Test(test),
        group: GLOBAL_TEST_GROUP,
    })?;
    Ok(path)
}

/// Adds what filtersets are asked about for a binary: the binary if it was skipped, or else each of its tests, in each group
/// that it may be in.
fn push_binary<'s>(
    subjects: &mut Vec<Subject<'s>>,
    alloc: Global,
    laid: &[FlatOverride<'s, '_>],
    binary: &AskedBinary<'s>,
) -> Result<(), AllocError>
    ensures { OnOk result ((default : compiled.CompiledExpr) (overrides : List groups.GroupOverride)
        → AreLaid default overrides laid.now
        → (added : List declared.Subject) × (subjects.new.items ≡ subjects.old.items ++ added)
        × AreOfBinary default overrides binary.now added) }
{
    if binary.is_skipped {
        subjects.push(Subject {
            candidate: Candidate::Binary(binary.query),
            group: GLOBAL_TEST_GROUP,
        })?;
        return Ok(());
    }
    let rows = told_overrides(alloc, laid, &binary.query)?;
    for name in binary.tests {
        let test = TestQuery {
            binary_query: binary.query,
            test_name: name,
        };
        push_test(subjects, alloc, &rows, test)?;
    }
    Ok(())
}

/// Returns what a filterset is asked about for a binary or a test, and for a test that may be in several groups the path of
/// the override that this depends on.
pub fn subjects_for<'s>(
    alloc: Global,
    overrides: &[GroupOverride<'s>],
    context: &EvalContext<'s>,
    candidate: Candidate<'s>,
) -> Result<(Vec<Subject<'s>>, Option<&'s str>), AllocError>
    ensures { IfOk result (λ made.
        AreOfCandidate (default_of context.now) overrides.now candidate.entry made.0.items made.1) }
{
    match candidate {
        Candidate::Binary(_) => {
            let subject = Subject {
                candidate,
                group: GLOBAL_TEST_GROUP,
            };
            Ok((vec![in alloc; subject]?, None))
        }
        Candidate::Test(test) => {
            let all = CompiledExpr::ALL;
            let laid = lay_out(alloc, overrides, &all, context)?;
            let rows = told_overrides(alloc, &laid, &test.binary_query)?;
            let mut subjects = Vec::new(alloc);
            let path = push_test(&mut subjects, alloc, &rows, test)?;
            Ok((subjects, path))
        }
    }
}

/// Returns what filtersets are asked about for binaries: each test of a binary that was listed, in each group that
/// overrides may put it in, and each binary that was skipped. The only error is out of memory.
pub fn subjects_of<'s>(
    alloc: Global,
    overrides: &[GroupOverride<'s>],
    context: &EvalContext<'s>,
    binaries: &[AskedBinary<'s>],
) -> Result<Vec<Subject<'s>>, AllocError>
    ensures { IfOk result (λ subjects.
        AreSubjects (default_of context.now) overrides.now binaries.now subjects.items) }
{
    let all = CompiledExpr::ALL;
    let laid = lay_out(alloc, overrides, &all, context)?;
    let mut subjects = Vec::new(alloc);
    for binary in binaries {
        push_binary(&mut subjects, alloc, &laid, binary)?;
    }
    Ok(subjects)
}

//! Laws of hints. Each law is the contract of a function that does nothing.
ghost use Rattle.std.specs.Prelude.{◌≡◌, ◌↔◌, ℕ, Bool, IsTrue, List};
ghost use Rattle.filterset_expression.specs.declared.query.{BinaryQuery.BinaryQuery, TestQuery.TestQuery};
ghost use Rattle.filterset_faults.specs.declared.span.SourceSpan.{SourceSpan};
ghost use Rattle.filterset_grammar.specs.Tree.{Tree};
ghost use Rattle.filterset_listing.specs.Asking.{TreePicks};
ghost use Rattle.filterset_listing.specs.declared.explaining.candidate.Candidate.TheVariants.{Binary, Test};
ghost use Rattle.filterset_listing.specs.Needless.{ChangesNothing, Frame, constant, placed};
ghost use Rattle.filterset_listing.specs.{SubjectValues.Basis, declared.subjects.Subject.Subject};

/// Proves that a constant changes nothing in place of an operand exactly if the whole tree picks the same tests with it: a
/// test in its group, and each test that a binary whose tests are unknown may have, whatever its name and group are.
pub fn needless_changes_no_test()
    // A test is picked alike.
    ensures tests { (basis : Basis) (subject : Subject) (query : TestQuery) (frames : List Frame) (e : Tree SourceSpan)
        (value answer other : Bool)
        → subject.candidate ≡ Test query → ChangesNothing basis subject frames e value
        → (IsTrue answer ↔ TreePicks basis.packages basis.default (placed frames e) query subject.group.now)
        → (IsTrue other ↔ TreePicks basis.packages basis.default (placed frames (constant value)) query subject.group.now)
        → answer ≡ other }
    // If it is picked alike, the constant changes nothing.
    ensures exact { (basis : Basis) (subject : Subject) (query : TestQuery) (frames : List Frame) (e : Tree SourceSpan)
        (value answer : Bool)
        → subject.candidate ≡ Test query
        → (IsTrue answer ↔ TreePicks basis.packages basis.default (placed frames e) query subject.group.now)
        → (IsTrue answer ↔ TreePicks basis.packages basis.default (placed frames (constant value)) query subject.group.now)
        → ChangesNothing basis subject frames e value }
    // Each test of such a binary is picked alike.
    ensures binaries { (basis : Basis) (subject : Subject) (binary : BinaryQuery) (query : TestQuery) (group : List ℕ)
        (frames : List Frame) (e : Tree SourceSpan) (value answer other : Bool)
        → subject.candidate ≡ Binary binary → query.binary_query ≡ binary → ChangesNothing basis subject frames e value
        → (IsTrue answer ↔ TreePicks basis.packages basis.default (placed frames e) query group)
        → (IsTrue other ↔ TreePicks basis.packages basis.default (placed frames (constant value)) query group)
        → answer ≡ other }
{}

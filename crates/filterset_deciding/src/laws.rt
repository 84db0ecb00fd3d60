//! Laws of what is decided. Each law is the contract of a function that does nothing.
ghost use Rattle.std.specs.Prelude.{◌≡◌, ◌↔◌, ◌∷◌, ◌++◌, [], Bool, List, Contains, IsTrue};
ghost use Rattle.std.specs.Borrow.{Bor};
ghost use Rattle.filterset_expression.specs.declared.expression.CompiledExpr.{CompiledExpr};
ghost use Rattle.filterset_deciding.specs.{AnyTest.AnyTest, AnyTest.Picks, AnyTest.AreAnswers, Deciding.IsAlwaysMet};
ghost use Rattle.filterset_deciding.specs.declared.question.Question.TheVariants.{AllAlike, AtLeastOne, AtMostOne};

/// Proves that two filtersets that are always alike have the same answer for each test of the given filterset.
pub fn alike_answer_the_same()
    ensures { (given default : CompiledExpr) (one other : Bor CompiledExpr)
        → IsAlwaysMet AllAlike given default (one ∷ other ∷ []) → (test : AnyTest) → Picks default test given
        → (x y : Bool) → (IsTrue x ↔ Picks default test one.now) → (IsTrue y ↔ Picks default test other.now)
        → x ≡ y }
{}

/// Proves that if at least one of several filtersets always picks a test, one of them picks each test of the given
/// filterset.
pub fn no_test_is_lost()
    ensures { (given default : CompiledExpr) (exprs : List (Bor CompiledExpr))
        → IsAlwaysMet AtLeastOne given default exprs → (test : AnyTest) → Picks default test given
        → (answers : List Bool) → AreAnswers default test exprs answers
        → (expr : Bor CompiledExpr) × Contains exprs expr × Picks default test expr.now }
{}

/// Proves that if at most one of several filtersets always picks a test, no two of them pick a test of the given filterset.
pub fn no_test_runs_twice()
    ensures { (given default : CompiledExpr) (front middle rest : List (Bor CompiledExpr)) (one other : Bor CompiledExpr)
        → IsAlwaysMet AtMostOne given default (front ++ one ∷ (middle ++ other ∷ rest)) → (test : AnyTest)
        → Picks default test given → (answers : List Bool)
        → AreAnswers default test (front ++ one ∷ (middle ++ other ∷ rest)) answers
        → Picks default test one.now → ¬ Picks default test other.now }
{}

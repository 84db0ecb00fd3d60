//! Compiled expressions as lists of steps, and their evaluation.
ghost use Rattle.std.specs.Prelude.{◌≡◌, ◌↔◌, ◌∷◌, [], ◌+◌, Bool, true, false, List, Ok, Some, None, IfOk, IfSome, IsTrue, ◌≤◌, ◌<◌, drop, length};
ghost use Rattle.filterset_faults.specs.declared.span.SourceSpan.{SourceSpan};
ghost use Rattle.filterset_graph.specs.declared.package.PackageMetadata.{PackageMetadata};
ghost use Rattle.filterset_grammar.specs.Tree.{Tree};
ghost use Rattle.filterset_expression.specs.BinaryMeaning.{IsDefiniteTree, IsUndecidedTree};
ghost use Rattle.filterset_expression.specs.Connectives.{Decides};
ghost use Rattle.filterset_expression.specs.Expression.{compiled_leaf, is_default, is_group, no_groups, CompiledLeaf, HoldsOfTest, Holds, IsDefinite, IsUndecided};
ghost use Rattle.filterset_expression.specs.{Meaning.Meaning, Running.leaves_one, Running.greatest_height};
ghost use Rattle.filterset_expression.specs.FlatSteps.{postfix, steps_of, Push};
ghost use Rattle.filterset_expression.specs.{Folds.Folds, Formula.Formula, Passing.are_passed_over, Passing.Advances};
ghost use Rattle.filterset_expression.specs.declared.expression.CompiledExpr.{CompiledExpr};
ghost use Rattle.filterset_expression.specs.declared.flat.asked.AskedLeaf.{AskedLeaf};

use crate::logic::connect;
use crate::{BinaryQuery, CompiledExpr, EvalContext, FiltersetLeaf, GroupLookup, Logic, TestQuery};
use asked::AskedLeaf;
use kept::{KeptMatcher, keep_matchers};
use passing::{RightOperand, decides, find_right_operands};
use stack::{Reserved, Stack, TwoBits, Words};
use std::alloc::{AllocError, Global};
use std::fmt::{self, Debug, Formatter};
use steps::{Action, height_of, push_steps};

mod asked;
mod kept;
mod passing;
mod stack;
mod steps;

pub use steps::FlatStep;

/// An expression as a list of steps in postfix order, where the steps of the default filter replace each `default` leaf.
///
/// Make one to evaluate an expression for many binaries or tests.
pub struct FlatExpr<'a> {
    steps: Vec<FlatStep<'a>>,
    /// The kept matcher of each step; empty if no step needs one.
    kept: Vec<KeptMatcher<'a>>,
    /// The greatest height of the stack while the steps run.
    height: usize,
    /// The right operand that may be skipped after each step; empty if there is none.
    right_operands: Vec<Option<RightOperand>>,
    ghost passed_over: { are_passed_over (steps_of steps.items) right_operands.items ≡ true },
    ghost one_value: { leaves_one (steps_of steps.items) 0 ≡ true },
    ghost fits: { height ≡ greatest_height (steps_of steps.items) 0 },
}

// Implemented by hand: a derived `Drop` is proved again, field by field, in each function that drops the list.
impl Drop for FlatExpr<'_> {
    fn drop(self) {
        let FlatExpr {
            steps: _steps,
            kept: _kept,
            height: _,
            right_operands: _right_operands,
        } = self;
    }
}

/// Writes the steps alone.
impl Debug for FlatExpr<'_> {
    fn fmt<W: fmt::Write>(&self, f: &mut Formatter<W>) -> fmt::Result {
        f.debug_struct("FlatExpr")
            .field("steps", &self.steps)
            .finish_non_exhaustive()
    }
}

impl<'a> FlatExpr<'a> {
    ghost use Rattle.filterset_expression.specs.Contexts.{default_of};
    ghost use Rattle.filterset_expression.specs.FlatExpressions.{flat_steps, has_step, IsFlat, IsFlatOfTree, IsTold};

    /// Lists the steps of the expression, where those of the context's default filter replace each `default` leaf. The
    /// only error is out of memory.
    pub fn new(
        alloc: Global,
        expr: &'a CompiledExpr,
        cx: &EvalContext<'a>,
    ) -> Result<FlatExpr<'a>, AllocError>
        ensures flat { IfOk result (λ flat. IsFlat flat expr.now (default_of cx.now)) }
        ensures no_default { IfOk result (λ flat. has_step is_default flat ≡ false) }
    {
        let mut default_steps = Vec::new(alloc);
        push_steps(&mut default_steps, cx.default_filter(), &[])?;
        let mut steps = Vec::new(alloc);
        push_steps(&mut steps, expr, &default_steps)?;
        let kept = keep_matchers(alloc, &steps)?;
        let height = height_of(&steps);
        let right_operands = find_right_operands(alloc, &steps, expr, cx.default_filter())?;
        Ok(FlatExpr {
            steps,
            kept,
            height,
            right_operands,
        })
    }

    /// Returns the steps: the leaves from left to right, and each operator after its operands.
    pub fn steps(&self) -> &[FlatStep<'a>]
        ensures { steps_of result.now ≡ flat_steps self.now }
    {
        &self.steps
    }

    /// Returns whether a step is a `group` leaf.
    pub fn has_group_matchers(&self) -> bool
        ensures { result ≡ has_step is_group self.now }
    {
        self.steps.iter().any(|step| matches!(step, FlatStep::Leaf(FiltersetLeaf::Group(..))))
    }

    /// Evaluates the expression for a binary, as [`CompiledExpr::matches_binary`] does.
    ///
    /// If you keep the answer, pass it to [`FlatExpr::matches_test_of_told`] for each test of the binary. The only error
    /// is out of memory.
    pub fn matches_binary(
        &self,
        alloc: Global,
        query: &BinaryQuery<'_>,
    ) -> Result<Option<bool>, AllocError>
        ensures told { IfOk result (λ answer. IsTold self.now query.now answer) }
        ensures definite { IfOk result (λ answer. (expr default : CompiledExpr) → IsFlat self.now expr default
            → (b : Bool) → (answer ≡ Some b) ↔ IsDefinite expr query.now default b) }
        ensures undecided { IfOk result (λ answer. (expr default : CompiledExpr) → IsFlat self.now expr default
            → (answer ≡ None) ↔ IsUndecided expr query.now default) }

        // If it is made from a compiled tree, the answer is the tree's for the binary.
        ensures meaning { IfOk result (λ answer. (packages : List PackageMetadata) (e : Tree SourceSpan)
            (default : CompiledExpr) → IsFlatOfTree self.now packages e default
            → (b : Bool) → (answer ≡ Some b) ↔ IsDefiniteTree e packages query.now default b) }
        ensures unknown { IfOk result (λ answer. (packages : List PackageMetadata) (e : Tree SourceSpan)
            (default : CompiledExpr) → IsFlatOfTree self.now packages e default
            → (answer ≡ None) ↔ IsUndecidedTree e packages query.now default) }
    {
        self.run(
            alloc,
            &|asked: AskedLeaf<'_, '_>| asked.matches_binary(alloc, query),
        )
    }

    /// Returns whether the expression matches the test.
    ///
    /// It must have no `group` leaf, which [`FlatExpr::has_group_matchers`] tests. The only error is out of memory.
    pub fn matches_test(&self, alloc: Global, query: &TestQuery<'_>) -> Result<bool, AllocError>
        requires { has_step is_group self.now ≡ false }
        ensures holds { IfOk result (λ answer. (expr default : CompiledExpr) → IsFlat self.now expr default
            → IsTrue answer ↔ Holds expr query.now default no_groups) }
        ensures settled { IfOk result (λ answer. (expr default : CompiledExpr) → IsFlat self.now expr default
            → (b : Bool) → IsDefinite expr query.now.binary_query default b → answer ≡ b) }

        // If it is made from a compiled tree, the answer is the tree's meaning.
        ensures meaning { IfOk result (λ answer. (packages : List PackageMetadata) (e : Tree SourceSpan)
            (default : CompiledExpr) → IsFlatOfTree self.now packages e default
            → IsTrue answer ↔ Meaning e packages query.now default no_groups) }
    {
        self.run(
            alloc,
            &|asked: AskedLeaf<'_, '_>| asked.matches_test(alloc, query),
        )
    }

    /// Returns whether the expression matches the test; the lookup answers `group` leaves. The only error is out of
    /// memory, here or in the lookup.
    pub fn matches_test_with_groups(
        &self,
        alloc: Global,
        query: &TestQuery<'_>,
        groups: &dyn GroupLookup,
    ) -> Result<bool, AllocError>
        ensures holds { IfOk result (λ answer. (expr default : CompiledExpr) → IsFlat self.now expr default
            → IsTrue answer ↔ Holds expr query.now default (matches_group groups.now)) }
        ensures settled { IfOk result (λ answer. (expr default : CompiledExpr) → IsFlat self.now expr default
            → (b : Bool) → IsDefinite expr query.now.binary_query default b → answer ≡ b) }
        ensures ungrouped { has_step is_group self.now ≡ false
            → IfOk result (λ answer. (expr default : CompiledExpr) → IsFlat self.now expr default
            → IsTrue answer ↔ Holds expr query.now default no_groups) }

        // If it is made from a compiled tree, the answer is the tree's meaning.
        ensures meaning { IfOk result (λ answer. (packages : List PackageMetadata) (e : Tree SourceSpan)
            (default : CompiledExpr) → IsFlatOfTree self.now packages e default
            → IsTrue answer ↔ Meaning e packages query.now default (matches_group groups.now)) }
    {
        self.run(
            alloc,
            &|asked: AskedLeaf<'_, '_>| -> Result<bool, AllocError>
                ensures { IfOk result (λ value. IsTrue value ↔
                    HoldsOfTest query.entry.now (matches_group groups.entry.now) (compiled_leaf asked.entry.leaf.now)) }
            { asked.matches_test_with_groups(alloc, query, groups) },
        )
    }

    /// Returns whether the expression matches a test, given the answer of [`FlatExpr::matches_binary`] for its binary. If
    /// that answer is not `None`, it is returned at once. The lookup answers `group` leaves. The only error is out of
    /// memory, here or in the lookup.
    pub fn matches_test_of_told(
        &self,
        alloc: Global,
        told: Option<bool>,
        query: &TestQuery<'_>,
        groups: &dyn GroupLookup,
    ) -> Result<bool, AllocError>
        requires { IsTold self.now query.now.binary_query told }
        ensures holds { IfOk result (λ answer. (expr default : CompiledExpr) → IsFlat self.now expr default
            → IsTrue answer ↔ Holds expr query.now default (matches_group groups.now)) }

        // If it is made from a compiled tree, the answer is the tree's meaning.
        ensures meaning { IfOk result (λ answer. (packages : List PackageMetadata) (e : Tree SourceSpan)
            (default : CompiledExpr) → IsFlatOfTree self.now packages e default
            → IsTrue answer ↔ Meaning e packages query.now default (matches_group groups.now)) }
    {
        match told {
            Some(answer) => Ok(answer),
            None => self.matches_test_with_groups(alloc, query, groups),
        }
    }

    /// Runs the steps, where `of_leaf` evaluates the leaves, and returns the value that they leave. A single leaf needs no
    /// stack. A stack of up to 64 values lies in two words and needs no memory.
    fn run<L: TwoBits, F: Fn(AskedLeaf<'_, 'a>) -> Result<L, AllocError>>(
        &self,
        alloc: Global,
        of_leaf: &F,
    ) -> Result<L, AllocError>
        requires callable { F.IsAlwaysCallable of_leaf.now }
        ensures { IfOk result (λ value. (f : Formula CompiledLeaf) → flat_steps self.now ≡ postfix f
            → Folds L.not_of L.connect (Decides L.top_value L.bottom_value)
            (λ leaf x. (asked : AskedLeaf) × (compiled_leaf asked.leaf.now ≡ leaf) × F.post of_leaf.now asked (Ok x))
            f value) }
    {
        if let Some(leaf) = self.only_leaf() {
            let kept = self.kept.first();
            return of_leaf(AskedLeaf { leaf, kept });
        }
        if self.height > 64 {
            return self.run_on(Reserved::with_room(alloc, self.height)?, of_leaf);
        }
        if self.right_operands.is_empty() {
            return self.run_on(Words::new(), of_leaf);
        }
        self.run_passing(Words::new(), of_leaf)
    }

    /// Returns the leaf if it is the only step.
    fn only_leaf(&self) -> Option<&'a FiltersetLeaf>
        ensures { IfSome result (λ leaf. flat_steps self.now ≡ Push (compiled_leaf leaf.now) ∷ []) }
    {
        if self.steps.len() == 1 {
            if let FlatStep::Leaf(leaf) = self.steps[0] {
                return Some(leaf);
            }
        }
        None
    }

    /// Runs all steps on this stack.
    fn run_on<L: Logic, S: Stack<L> + Drop, F: Fn(AskedLeaf<'_, 'a>) -> Result<L, AllocError>>(
        &self,
        mut stack: S,
        of_leaf: &F,
    ) -> Result<L, AllocError>
        requires callable { F.IsAlwaysCallable of_leaf.now }
        requires empty { S.values stack ≡ [] }
        requires has_room { greatest_height (flat_steps self.now) 0 ≤ S.room stack }
        ensures { IfOk result (λ value. (f : Formula CompiledLeaf) → flat_steps self.now ≡ postfix f
            → Folds L.not_of L.connect (Decides L.top_value L.bottom_value)
            (λ leaf x. (asked : AskedLeaf) × (compiled_leaf asked.leaf.now ≡ leaf) × F.post of_leaf.now asked (Ok x))
            f value) }
    {
        let mut all_kept = self.kept.iter();
        for step in &self.steps {
            let kept = all_kept.next();
            match step.action() {
                Action::Push(leaf) => {
                    let value = of_leaf(AskedLeaf { leaf, kept })?;
                    stack.push(value);
                }
                Action::Negate => {
                    let value = stack.pop();
                    stack.push(value.logic_not());
                }
                Action::Combine(connective) => {
                    let right = stack.pop();
                    let left = stack.pop();
                    stack.push(connect(connective, left, right));
                }
            }
        }
        Ok(stack.pop())
    }

    /// Runs the steps on this stack, and skips right operands whose left operand decides their connective.
    fn run_passing<
        L: TwoBits,
        S: Stack<L> + Drop,
        F: Fn(AskedLeaf<'_, 'a>) -> Result<L, AllocError>,
    >(&self, mut stack: S, of_leaf: &F) -> Result<L, AllocError>
        requires callable { F.IsAlwaysCallable of_leaf.now }
        requires empty { S.values stack ≡ [] }
        requires has_room { greatest_height (flat_steps self.now) 0 ≤ S.room stack }
        ensures { IfOk result (λ value. (f : Formula CompiledLeaf) → flat_steps self.now ≡ postfix f
            → Folds L.not_of L.connect (Decides L.top_value L.bottom_value)
            (λ leaf x. (asked : AskedLeaf) × (compiled_leaf asked.leaf.now ≡ leaf) × F.post of_leaf.now asked (Ok x))
            f value) }
    {
        let mut at = 0usize;
        while at < self.steps.len() {
            let value = match self.steps[at].action() {
                Action::Push(leaf) => {
                    let kept = self.kept.get(at);
                    of_leaf(AskedLeaf { leaf, kept })?
                }
                Action::Negate => stack.pop().logic_not(),
                Action::Combine(connective) => {
                    let right = stack.pop();
                    let left = stack.pop();
                    connect(connective, left, right)
                }
            };
            stack.push(value);
            at += self.steps_after(at, value);
        }
        Ok(stack.pop())
    }

    /// Returns how far a run advances after this step, given the step's value: one step, or past the right operand that
    /// follows if the value decides its connective.
    fn steps_after<L: TwoBits>(&self, at: usize, value: L) -> usize
        requires { at < length (flat_steps self.now) }
        ensures { Advances (Decides L.top_value L.bottom_value) (drop (at + 1) (flat_steps self.now)) value result }
    {
        match self.right_operands.get(at) {
            Some(Some(operand)) if decides(operand.connective, value) => operand.steps + 1,
            _ => 1,
        }
    }
}

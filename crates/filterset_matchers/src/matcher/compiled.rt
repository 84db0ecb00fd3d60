//! Patterns whose matches are all at the start of a text, all at its end, or all in texts that contain some literal. The
//! parts of `regex` compile them, within the limits of `Regex::new`, and one DFA searches for them. A `Regex` would choose
//! among more ways to search, which costs more than it saves on names of tests.
ghost use Rattle.std.specs.Prelude.{◌≡◌, ◌↔◌, List, ℕ, IfOk, IfSome, IsTrue, vec_len};
ghost use Rattle.regex_hir.specs.Meaning.{meaning};
ghost use Rattle.filterset_matchers.specs.Compiled.{HasLiteral, IsCompiledOf, IsPlaceOf, IsReadAs, WalksBy, told_by_end, told_by_start};

use crate::matcher::substring;
use regex_compile::compile;
use regex_dfa::{Dfa, End, Forward, Reverse, Start};
use regex_extract::{is_anchored_end, is_anchored_start};
use regex_hir::Hir;
use regex_vm::PikeVm;
use std::alloc::{AllocError, Global};
use std::fmt;

/// The limit on the bytes of a compiled pattern, which is that of a `Regex`.
const SIZE_LIMIT: usize = 10 << 20;

/// The least length of a literal, in bytes. Too many texts contain a shorter one.
pub(super) const LEAST_LITERAL: usize = 3;

/// The place of all matches of a pattern.
#[derive(Debug, Drop)]
pub(super) enum Place {
    /// At the start of the text.
    Start,
    /// At the end of the text.
    End,
    /// In a text that contains this literal.
    Literal(String),
}

/// Returns the place of all matches of the tree, if it finds one. The only error is out of memory.
///
/// For a tree that may match the empty text it finds only the start, since such a match may split a character.
pub(super) fn place_of(alloc: Global, tree: &Hir) -> Result<Option<Place>, AllocError>
    ensures { IfOk result (λ found. IfSome found (IsPlaceOf (meaning tree.now))) }
{
    if is_anchored_start(tree) {
        return Ok(Some(Place::Start));
    }
    if tree.min_len() == 0 {
        return Ok(None);
    }
    if is_anchored_end(tree) {
        return Ok(Some(Place::End));
    }
    match find_first_literal(tree) {
        Some(literal) if literal.len() >= LEAST_LITERAL => {
            let literal = String::from_str(alloc, literal)?;
            Ok(Some(Place::Literal(literal)))
        }
        _ => Ok(None),
    }
}

/// Returns the literal that the tree begins with, if it is a sequence that begins with one.
fn find_first_literal(tree: &Hir) -> Option<&str>
    ensures { IfSome result (λ literal. HasLiteral (meaning tree.now) literal.now) }
{
    let Hir::Concat(parts) = tree else {
        return None;
    };
    if parts.is_empty() {
        return None;
    }
    match &parts[0] {
        Hir::Literal(bytes) => str::from_utf8(bytes).ok(),
        _ => None,
    }
}

/// A compiled pattern, and the place of its matches.
#[derive(Drop)]
pub(super) struct Compiled {
    dfa: Dfa,
    place: Place,
}

impl Compiled {
    /// Compiles the tree of a pattern with so many groups, counting the whole pattern. It is an error if the result is
    /// too large, or out of memory.
    pub(super) fn new(
        alloc: Global,
        tree: &Hir,
        groups: u32,
        place: Place,
    ) -> Result<Compiled, regex_compile::Error>
        ensures { IfOk result (λ compiled. IsPlaceOf (meaning tree.now) place → (pattern : List ℕ) → IsReadAs pattern tree.now
            → IsCompiledOf pattern compiled) }
    {
        let nfa = compile(alloc, tree, groups, SIZE_LIMIT)?;
        let dfa = Dfa::new(alloc, nfa)?;
        Ok(Compiled { dfa, place })
    }

    /// Returns a matcher for the pattern. The only error is out of memory.
    pub(super) fn matcher(&self, alloc: Global) -> Result<CompiledMatcher<'_>, AllocError>
        ensures { IfOk result (λ matcher. matcher.compiled.now ≡ self.now) }
    {
        let walk = match self.place {
            Place::End => Walk::Backward(Reverse::new(alloc, &self.dfa)?),
            Place::Start | Place::Literal(_) => {
                Walk::Forward(Forward::new(alloc, &self.dfa, false)?)
            }
        };
        Ok(CompiledMatcher {
            compiled: self,
            walk,
            stepwise: PikeVm::new(alloc, &self.dfa.nfa)?,
        })
    }
}

impl fmt::Debug for Compiled {
    fn fmt<W: fmt::Write>(&self, f: &mut fmt::Formatter<W>) -> fmt::Result {
        write!(f, "Compiled({:?})", self.place)
    }
}

/// A walk of the DFA over a text. The states of the DFA are made when the walk comes to them.
#[derive(Drop)]
enum Walk {
    /// From the start of a text.
    Forward(Forward),
    /// From the end of a text.
    Backward(Reverse),
}

/// A matcher for a compiled pattern.
#[derive(Drop)]
pub(super) struct CompiledMatcher<'p> {
    pub(super) compiled: &'p Compiled,
    walk: Walk,
    /// Searches if the DFA gives up, because it has too many states.
    stepwise: PikeVm,
    ghost walks: { WalksBy walk compiled.now.dfa },
    ghost states: { stepwise.states ≡ vec_len compiled.now.dfa.nfa.states },
}

impl CompiledMatcher<'_> {
    ghost use Rattle.filterset_matchers.specs.Pattern.{HasMatch};

    /// Returns whether the pattern has a match in the input.
    pub(super) fn is_match(&mut self, input: &str) -> bool
        ensures found { (pattern : List ℕ) → IsCompiledOf pattern self.old.compiled.now
            → IsTrue result ↔ HasMatch pattern input.now }
        ensures same { self.new.compiled.now ≡ self.old.compiled.now }
    {
        if let Place::Literal(literal) = &self.compiled.place {
            if !substring::contains(input, literal.as_str()) {
                return false;
            }
        }
        match self.walk(input) {
            Some(found) => found,
            None => self.search_stepwise(input),
        }
    }

    /// Walks the DFA over the input. Returns whether the pattern has a match, or `None` if the DFA gives up.
    fn walk(&mut self, input: &str) -> Option<bool>
        ensures found { IfSome result (λ found. (pattern : List ℕ) → IsCompiledOf pattern self.old.compiled.now
            → IsTrue found ↔ HasMatch pattern input.now) }
        ensures same { self.new.compiled.now ≡ self.old.compiled.now }
    {
        let text = input.as_bytes();
        let dfa = &self.compiled.dfa;
        match (&self.compiled.place, &mut self.walk) {
            (Place::End, Walk::Backward(reverse)) => {
                answer_of_start(reverse.find_start(dfa, text, 0, text.len()))
            }
            (Place::Start, Walk::Forward(forward)) => {
                answer_of_end(forward.find_end(dfa, text, 0, text.len(), true, true))
            }
            (Place::Literal(_), Walk::Forward(forward)) => {
                answer_of_end(forward.find_end(dfa, text, 0, text.len(), false, true))
            }
            _ => None,
        }
    }

    /// Returns whether the pattern has a match in the input, by the NFA.
    #[cold]
    #[inline(never)]
    fn search_stepwise(&mut self, input: &str) -> bool
        ensures found { (pattern : List ℕ) → IsCompiledOf pattern self.old.compiled.now
            → IsTrue result ↔ HasMatch pattern input.now }
        ensures same { self.new.compiled.now ≡ self.old.compiled.now }
    {
        let text = input.as_bytes();
        let nfa = &self.compiled.dfa.nfa;
        self.stepwise.is_match(nfa, text, 0, text.len(), text.len())
    }
}

/// Returns whether a search for the end of a match found one, or `None` if it gave up.
fn answer_of_end(end: End) -> Option<bool>
    ensures { result ≡ told_by_end end }
{
    match end {
        End::At(_) => Some(true),
        End::NoMatch => Some(false),
        End::Idle(_) | End::GaveUp => None,
    }
}

/// Returns whether a search for the start of a match found one, or `None` if it gave up.
fn answer_of_start(start: Start) -> Option<bool>
    ensures { result ≡ told_by_start start }
{
    match start {
        Start::At(_) => Some(true),
        Start::NoMatch => Some(false),
        Start::GaveUp => None,
    }
}

//! Parses whole texts.
ghost use Rattle.std.specs.Prelude.{◌≡◌, List, [], ◌∷◌, ◌++◌, ◌⊎◌, take, All, IfOk, IfErr};
ghost use Rattle.std.specs.Option.{option_map};
ghost use Rattle.filterset_grammar.specs.{Tree.Tree, Grammar.Spells};
ghost use Rattle.filterset_language.specs.{Views.tree_of, Faults.FaultStands};
ghost use Rattle.filterset_language.specs.Parsed.{Reads, Comes, HasRefusedBodies, SpellsNothing, IsRefusalOf};
ghost use Rattle.filterset_language.specs.Parsing.{Descent.boxed_tree, Whole.Wholly};
ghost use Rattle.filterset_faults.specs.Span.{offset_of};
ghost use Rattle.filterset_faults.specs.declared.{span.SourceSpan.SourceSpan, error.ParseSingleError.ParseSingleError};
ghost use Rattle.filterset_faults.specs.declared.error.ParseSingleError.TheVariants.{ExpectedEndOfExpression};

use crate::parsing::expressions::read_or_level;
use crate::parsing::input::Input;
use crate::tree::ParsedExpr;
use filterset_faults::ParseSingleError;
use std::alloc::{AllocError, Global};

/// The result of parsing a text: the tree, if there is one, and the faults in the order in which they were found.
#[derive(Debug, Drop)]
pub struct Parsed {
    pub tree: Option<ParsedExpr>,
    pub faults: Vec<ParseSingleError>,
}

/// The reason why a text has no tree.
#[derive(Debug, Drop)]
pub enum ParseStop {
    /// The faults of the text, at least one, in the order in which they were found.
    Faults(Vec<ParseSingleError>),
    /// There was not enough memory. The text may be valid or not.
    OutOfMemory(AllocError),
}

impl From<AllocError> for ParseStop {
    ghost use Rattle.filterset_language.specs.declared.parsing.parse.ParseStop.TheVariants as stop;

    ghost from_gives = { λ error made. made ≡ stop.OutOfMemory error };

    fn from(error: AllocError) -> ParseStop {
        ParseStop::OutOfMemory(error)
    }
}

impl ParsedExpr {
    /// Parses a text, and drops its faults if a tree was recovered all the same.
    ///
    /// Returns the tree that the text spells. If `regex` rejects one of its patterns, returns faults that say so.
    pub fn parse(alloc: Global, input: &str) -> Result<ParsedExpr, ParseStop>
        // If the text spells a tree and a tree is returned, it is that one.
        ensures spelled { (e : Tree SourceSpan) → Spells input.now e → IfOk result (λ tree. tree_of tree ≡ e) }
        // The text spells the tree and its patterns are read, or it spells none.
        ensures tree { IfOk result (λ tree. Reads input.now (tree_of tree) ⊎ SpellsNothing input.now) }
        // Without a tree there are faults, all of them true. If the text spells a tree, they are on its patterns.
        ensures stop { IfErr result (IsRefusalOf input.now) }
    {
        let Parsed { tree, faults } = ParsedExpr::parse_with_faults(alloc, input)?;
        match tree {
            Some(tree) => Ok(tree),
            None => Err(ParseStop::Faults(faults)),
        }
    }

    /// Parses a text, and goes on after each fault.
    ///
    /// Returns the tree that the text spells, and no fault. If `regex` rejects some of its patterns, returns no tree
    /// and a fault on each of them. The only error is out of memory.
    pub fn parse_with_faults(alloc: Global, input: &str) -> Result<Parsed, AllocError>
        // Without a fault there is a tree, the text spells it, and its patterns are read.
        ensures clean { IfOk result (λ p. p.faults.items ≡ []
            → (e : Tree SourceSpan) × Comes p e × Reads input.now e) }
        // If the text spells a tree, it is returned without a fault, or there is none and each fault is on a pattern.
        ensures spelled { IfOk result (λ p. (e : Tree SourceSpan) → Spells input.now e
            → (Comes p e × (p.faults.items ≡ [])) ⊎ HasRefusedBodies input.now e p) }
        // Every fault is true of the text.
        ensures stand { IfOk result (λ p. All (FaultStands input.now) p.faults.items) }
        // If the only fault is that the text goes on after the expression, the text before that spells the tree.
        ensures front { IfOk result (λ p. (s : SourceSpan) → p.faults.items ≡ ExpectedEndOfExpression s ∷ []
            → (e : Tree SourceSpan) × Comes p e × Spells (take (offset_of s) input.now) e) }
        // The fault that the text goes on after the expression is the last one.
        ensures last { IfOk result (λ p. (s : SourceSpan) (before behind : List ParseSingleError)
            → p.faults.items ≡ before ++ ExpectedEndOfExpression s ∷ behind → behind ≡ []) }
    {
        read_whole(alloc, input)
    }
}

/// Parses a text from its start to its end.
fn read_whole(alloc: Global, text: &str) -> Result<Parsed, AllocError>
    ensures { IfOk result (λ p. Wholly text.now (option_map tree_of p.tree) p.faults.items) }
{
    let mut faults = Vec::new(alloc);
    let whole = read_or_level(alloc, &mut faults, Input::new(text))?;
    let tree = unbox(whole.value);
    if whole.end.skip_blanks().rest.is_empty() {
        return Ok(Parsed { tree, faults });
    }
    faults.push(ParseSingleError::ExpectedEndOfExpression(whole.end.to_end()))?;
    Ok(Parsed { tree, faults })
}

/// Moves the tree out of its box.
fn unbox(tree: Option<Box<ParsedExpr>>) -> Option<ParsedExpr>
    ensures { option_map tree_of result ≡ option_map boxed_tree tree }
{
    match tree {
        Some(tree) => Some(Box::into_inner(tree)),
        None => None,
    }
}

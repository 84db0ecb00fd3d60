//! The sequences of a glob's tokens.
ghost use Rattle.std.specs.Prelude.{◌≡◌, ◌≢◌, ◌≤◌, [], ◌∷◌, length, IfOk};
ghost use Rattle.std.specs.declared.{vec.Vec.Vec, alloc.Global.Global};
ghost use Rattle.filterset_glob.specs.Matching.{Matches, MatchesSome, MatchesToken};
ghost use Rattle.filterset_glob.specs.Tokens.{branches_of, token_of, tokens_of};
ghost use Rattle.filterset_glob.specs.declared.token.GlobBranch.{GlobBranch};
ghost use Rattle.filterset_texts.specs.Cuts.{HoldTogether};
ghost use Rattle.filterset_texts.specs.Expanding.{branches_sequence_count, sequence_count, token_sequence_count};
ghost use Rattle.filterset_texts.specs.Parts.{Fits, FitsSome};

use crate::joining::join_each;
use crate::part::Part;
use filterset_glob::{GlobBranch, GlobToken};
use std::alloc::{AllocError, Global};

/// Makes a part that matches this character.
pub(crate) fn make_literal(alloc: Global, c: char) -> Result<Part, AllocError>
    ensures { IfOk result (λ part. HoldTogether (Fits (part ∷ [])) (λ text. text ≡ c ∷ [])) }
{
    Ok(Part::One {
        negated: false,
        ranges: vec![in alloc; (c, c)]?,
    })
}

/// Makes a list of one sequence, which has one part.
fn make_one(alloc: Global, part: Part) -> Result<Vec<Vec<Part>>, AllocError>
    ensures matched { IfOk result (λ sequences. HoldTogether (FitsSome sequences.items) (Fits (part ∷ []))) }
    ensures count { IfOk result (λ sequences. length sequences.items ≡ 1) }
{
    let sequence = vec![in alloc; part]?;
    Ok(vec![in alloc; sequence]?)
}

/// Makes the sequences of a token that is no group.
#[inline(never)]
fn expand_plain(alloc: Global, token: &GlobToken) -> Result<Vec<Vec<Part>>, AllocError>
    requires { (branches : Vec GlobBranch Global) → token.now ≢ GlobToken.Alternates branches }
    ensures matched { IfOk result (λ sequences. HoldTogether (FitsSome sequences.items) (MatchesToken (token_of token.now))) }
    ensures count { IfOk result (λ sequences. length sequences.items ≤ token_sequence_count (token_of token.now)) }
{
    match token {
        GlobToken::Literal(c) => make_one(alloc, make_literal(alloc, *c)?),
        GlobToken::AnyChar => make_one(
            alloc,
            Part::One {
                negated: true,
                ranges: Vec::new(alloc),
            },
        ),
        GlobToken::Class { negated, ranges } => make_one(
            alloc,
            Part::One {
                negated: *negated,
                ranges: ranges.to_vec(alloc)?,
            },
        ),
        // nothing, or any text that ends in a slash
        GlobToken::DeepFirst => {
            let slash = make_literal(alloc, '/')?;
            let behind = vec![in alloc; Part::Any, slash]?;
            Ok(vec![in alloc; Vec::new(alloc), behind]?)
        }
        // a slash, or any text between two slashes
        GlobToken::DeepMid => {
            let only = make_literal(alloc, '/')?;
            let first = make_literal(alloc, '/')?;
            let last = make_literal(alloc, '/')?;
            let alone = vec![in alloc; only]?;
            let between = vec![in alloc; first, Part::Any, last]?;
            Ok(vec![in alloc; alone, between]?)
        }
        // a slash and any text
        GlobToken::DeepLast => {
            let before = make_literal(alloc, '/')?;
            let sequence = vec![in alloc; before, Part::Any]?;
            Ok(vec![in alloc; sequence]?)
        }
        GlobToken::Star | GlobToken::Alternates(_) => make_one(alloc, Part::Any),
    }
}

/// Makes the sequences of the tokens in a row.
#[cycle(expanding)]
pub(crate) fn expand_tokens(
    alloc: Global,
    tokens: &[GlobToken],
) -> Result<Vec<Vec<Part>>, AllocError>
    ensures matched { IfOk result (λ sequences. HoldTogether (FitsSome sequences.items) (Matches (tokens_of tokens.now))) }
    ensures count { IfOk result (λ sequences. length sequences.items ≤ sequence_count (tokens_of tokens.now)) }
{
    let mut sequences = vec![in alloc; Vec::new(alloc)]?;
    for token in tokens {
        let backs = expand_token(alloc, token)?;
        sequences = join_each(alloc, sequences, &backs)?;
    }
    Ok(sequences)
}

/// Makes the sequences of one token. Calls of this function nest as deeply as groups do, so no part is made here.
#[cycle(expanding)]
fn expand_token(alloc: Global, token: &GlobToken) -> Result<Vec<Vec<Part>>, AllocError>
    ensures matched { IfOk result (λ sequences. HoldTogether (FitsSome sequences.items) (MatchesToken (token_of token.now))) }
    ensures count { IfOk result (λ sequences. length sequences.items ≤ token_sequence_count (token_of token.now)) }
{
    match token {
        GlobToken::Alternates(branches) => expand_branches(alloc, branches),
        _ => expand_plain(alloc, token),
    }
}

/// Makes the sequences of all branches of a group.
#[cycle(expanding)]
fn expand_branches(alloc: Global, branches: &[GlobBranch]) -> Result<Vec<Vec<Part>>, AllocError>
    ensures matched { IfOk result (λ sequences. HoldTogether (FitsSome sequences.items)
        (MatchesSome (branches_of branches.now))) }
    ensures count { IfOk result (λ sequences. length sequences.items
        ≤ branches_sequence_count (branches_of branches.now)) }
{
    let mut sequences = Vec::new(alloc);
    for branch in branches {
        let mut more = expand_tokens(alloc, &branch.tokens)?;
        sequences.append(&mut more)?;
    }
    Ok(sequences)
}

//! Texts that meet demands, searched a character at a time. So globs are decided.
ghost use Rattle.std.specs.Prelude.{◌<◌, IfNone, IfOk, IfSome};
ghost use Rattle.filterset_deciding.specs.Sought.{AreConditionsOf, IsConditionOf, IsSoughtOf};
ghost use Rattle.filterset_deciding.specs.Texts.{AreComparisons, HasUnsearched, IsUnsearched, matcher_in};

use crate::demand::Demand;
use crate::texts::Sought;
use filterset_texts::{Condition, Expansion, Found, Search, find_text, sequences_of};
use std::alloc::{AllocError, Global};

/// How many sequences of parts a glob is expanded to at most.
const SEQUENCES: usize = 256;

/// How many characters are tried in a state, about.
const CHARACTERS: u64 = 64;

/// How many steps such searches may still take. A step is a part that is looked at once.
#[derive(Clone, Copy)]
pub(crate) struct Effort {
    pub left: u64,
}

/// Makes the condition of a demand, unless its matcher is a pattern or has too many sequences.
fn condition_of(alloc: Global, demand: Demand<'_>) -> Result<Option<Condition>, AllocError>
    ensures some { IfOk result (λ found. IfSome found (IsConditionOf demand.entry)) }
    ensures none { IfOk result (λ found. IfNone found (IsUnsearched (matcher_in demand.entry))) }
{
    match sequences_of(alloc, demand.matcher, SEQUENCES)? {
        Expansion::Sequences(sequences) => Ok(Some(Condition {
            sequences,
            is_matched: demand.is_matched,
        })),
        Expansion::Pattern | Expansion::TooMany => Ok(None),
    }
}

/// Makes the conditions of demands, if each has one.
fn conditions_of(
    alloc: Global,
    demands: &[Demand<'_>],
) -> Result<Option<Vec<Condition>>, AllocError>
    ensures some { IfOk result (λ found. IfSome found (λ conditions. AreConditionsOf demands.now conditions.items)) }
    ensures none { IfOk result (λ found. IfNone found (HasUnsearched demands.now)) }
{
    let mut conditions = Vec::with_capacity(alloc, demands.len())?;
    for demand in demands {
        match condition_of(alloc, *demand)? {
            Some(condition) => conditions.push(condition)?,
            None => return Ok(None),
        }
    }
    Ok(Some(conditions))
}

/// Returns how many steps a state costs.
fn cost_of(conditions: &[Condition]) -> u64
    ensures { 0 < result }
{
    let mut parts = 1u64;
    for condition in conditions {
        for sequence in &condition.sequences {
            parts = parts.saturating_add(sequence.len() as u64);
        }
    }
    CHARACTERS.saturating_mul(parts).max(1)
}

/// Searches for a text that meets the demands, some of which do not compare texts.
pub(crate) fn seek_text(
    alloc: Global,
    demands: &[Demand<'_>],
    effort: &mut Effort,
) -> Result<Sought, AllocError>
    requires { ¬ AreComparisons demands.now }
    ensures { IfOk result (IsSoughtOf demands.now) }
{
    let Some(conditions) = conditions_of(alloc, demands)? else {
        return Ok(Sought::Unknown);
    };
    let cost = cost_of(&conditions);
    let Search { found, states } = find_text(alloc, &conditions, effort.left / cost)?;
    effort.left = effort.left.saturating_sub(states.saturating_mul(cost));
    match found {
        Found::Text(text) => Ok(Sought::Text(text)),
        Found::Nothing => Ok(Sought::Nothing),
        Found::Stopped => Ok(Sought::Stopped),
    }
}

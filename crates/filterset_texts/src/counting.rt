//! How many sequences there are, before any is made.
ghost use Rattle.std.specs.Prelude.{◌≡◌, min};
ghost use Rattle.filterset_glob.specs.Tokens.{branches_of, token_of, tokens_of};
ghost use Rattle.filterset_texts.specs.Expanding.{branches_sequence_count, sequence_count, token_sequence_count};

use filterset_glob::{GlobBranch, GlobToken};

/// Counts the sequences of the tokens in a row, up to `usize::MAX`.
#[cycle(counting)]
pub(crate) fn count_sequences(tokens: &[GlobToken]) -> usize
    ensures { result ≡ min (sequence_count (tokens_of tokens.now)) usize.MAX }
{
    let mut count = 1usize;
    for token in tokens {
        count = count.saturating_mul(count_token_sequences(token));
    }
    count
}

/// Counts the sequences of one token, up to `usize::MAX`.
#[cycle(counting)]
fn count_token_sequences(token: &GlobToken) -> usize
    ensures { result ≡ min (token_sequence_count (token_of token.now)) usize.MAX }
{
    match token {
        GlobToken::Alternates(branches) => count_branches_sequences(branches).max(1),
        GlobToken::DeepFirst | GlobToken::DeepMid => 2,
        GlobToken::Literal(_)
        | GlobToken::AnyChar
        | GlobToken::Star
        | GlobToken::Class { .. }
        | GlobToken::DeepLast => 1,
    }
}

/// Counts the sequences of all branches of a group, up to `usize::MAX`.
#[cycle(counting)]
fn count_branches_sequences(branches: &[GlobBranch]) -> usize
    ensures { result ≡ min (branches_sequence_count (branches_of branches.now)) usize.MAX }
{
    let mut count = 0usize;
    for branch in branches {
        count = count.saturating_add(count_sequences(&branch.tokens));
    }
    count
}

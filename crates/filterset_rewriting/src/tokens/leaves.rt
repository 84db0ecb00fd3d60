//! The tokens of filtersets that are read.
ghost use Rattle.std.specs.Prelude.{◌≡◌, IfOk, map};
ghost use Rattle.filterset_language.specs.Views.{leaf_of, tree_of};
ghost use Rattle.filterset_matchers.specs.Matchers.{matcher_of};
ghost use Rattle.filterset_rewriting.specs.Tokens as spec;
ghost use Rattle.filterset_rewriting.specs.Tokens.{AreTokens, AreTokensFrom};

use crate::tokens::arguments::{Argument, ArgumentForm};
use crate::tokens::{Token, push_next, push_plain};
use filterset_language::{ParsedExpr, ParsedLeaf};
use filterset_matchers::NameMatcher;
use std::alloc::{AllocError, Global};

/// Returns how a matcher is written.
fn matcher_form(matcher: &NameMatcher) -> ArgumentForm
    ensures { result ≡ spec.matcher_form (matcher_of matcher.now) }
{
    match matcher {
        NameMatcher::Equal { implicit, .. }
        | NameMatcher::Contains { implicit, .. }
        | NameMatcher::Glob { implicit, .. } => {
            if *implicit {
                ArgumentForm::Plain
            } else {
                ArgumentForm::Signed
            }
        }
        NameMatcher::Regex(_) => ArgumentForm::Regex,
    }
}

/// Returns the argument of a predicate, if it takes one.
pub fn argument_of(leaf: &ParsedLeaf) -> Option<Argument>
    ensures { result ≡ spec.argument_of (leaf_of leaf.now) }
{
    match leaf {
        ParsedLeaf::Package(matcher, span)
        | ParsedLeaf::Deps(matcher, span)
        | ParsedLeaf::Rdeps(matcher, span)
        | ParsedLeaf::Kind(matcher, span)
        | ParsedLeaf::Binary(matcher, span)
        | ParsedLeaf::BinaryId(matcher, span)
        | ParsedLeaf::Test(matcher, span)
        | ParsedLeaf::Group(matcher, span) => Some(Argument {
            span: *span,
            form: matcher_form(matcher),
        }),
        ParsedLeaf::Platform(_, span) => Some(Argument {
            span: *span,
            form: ArgumentForm::Platform,
        }),
        ParsedLeaf::Default(_) | ParsedLeaf::All | ParsedLeaf::None => None,
    }
}

/// Makes the tokens of a text in which these predicates are.
fn tokens_among(
    alloc: Global,
    text: &[u8],
    leaves: &[&ParsedLeaf],
) -> Result<Vec<Token>, AllocError>
    ensures { IfOk result (λ tokens.
        AreTokensFrom 0 text.now (map (λ leaf. leaf_of leaf.now) leaves.now) tokens.items) }
{
    let mut tokens = Vec::new(alloc);
    let mut at = 0;
    for leaf in leaves {
        if let Some(argument) = argument_of(leaf) {
            let (_, rest) = text.split_at(at);
            let taken = push_next(&mut tokens, rest, at, argument)?;
            at += taken;
        }
    }
    let (_, rest) = text.split_at(at);
    push_plain(&mut tokens, rest, at)?;
    Ok(tokens)
}

/// Makes the tokens of a text that reads as this tree.
pub fn tokens_of(alloc: Global, text: &str, tree: &ParsedExpr) -> Result<Vec<Token>, AllocError>
    ensures { IfOk result (λ tokens. AreTokens text.now (tree_of tree.now) tokens.items) }
{
    let leaves = tree.leaves_where(alloc, |_| true)?;
    tokens_among(alloc, text.as_bytes(), leaves.as_slice())
}

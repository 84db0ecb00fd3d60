//! A glob with its longest literal, which every text contains that the glob matches.
ghost use Rattle.std.specs.Prelude.{◌≡◌, ◌⊎◌, ◌↔◌, [], IfOk, IsTrue, chars, string_bytes};
ghost use Rattle.filterset_glob.specs.{Matching.Matches, Tokens.tokens_of};
ghost use Rattle.filterset_matchers.specs.Literals.{StandsInEach, begins_with_any_text};

use super::substring;
use filterset_glob::{GenericGlob, GlobToken};
use std::alloc::{AllocError, Global};
use std::marker::Model;
use std::mem::swap;

/// A glob that is prepared for many names: a name that does not contain the glob's longest literal is rejected by a fast
/// search. Contracts see the glob.
#[derive(Debug)]
pub struct GlobMatcher<'g> {
    glob: &'g GenericGlob,
    /// A text that every name contains that the glob matches.
    literal: String,
}

impl<'g> Model for GlobMatcher<'g> {
    ghost use Rattle.std.specs.Prelude.{string_bytes};
    ghost use Rattle.filterset_glob.specs.Glob.{Glob, glob_code};
    ghost use Rattle.filterset_matchers.specs.Literals.{StandsInEach};

    ghost Value = { Glob };

    ghost coded = { glob_code };

    ghost view = { λ m. m.glob.now };

    ghost invariant = { λ m. StandsInEach m.glob.now.tokens (string_bytes m.literal) };
}

// Implemented by hand, as for `PatternRegex`.
impl Drop for GlobMatcher<'_> {
    fn drop(self) {
        let GlobMatcher {
            glob: _,
            literal: _literal,
        } = self;
    }
}

impl<'g> GlobMatcher<'g> {
    /// Returns whether a `GlobMatcher` of this glob pays: whether the glob begins with `*` or a run of `**`. Other globs
    /// reject most names at their first characters.
    pub fn pays_for(glob: &GenericGlob) -> bool
        ensures { result ≡ begins_with_any_text glob.now.tokens }
    {
        matches!(
            glob.tokens().first(),
            Some(GlobToken::Star | GlobToken::DeepFirst)
        )
    }

    /// Prepares this glob. The only error is out of memory.
    pub fn new(alloc: Global, glob: &'g GenericGlob) -> Result<GlobMatcher<'g>, AllocError>
        ensures { IfOk result (λ matcher. matcher ≡ glob.now) }
    {
        let literal = find_longest_literal(alloc, glob.tokens())?;
        Ok(GlobMatcher { glob, literal })
    }

    /// Returns whether this matcher is of that glob, by its text.
    pub fn is_of(&self, glob: &GenericGlob) -> bool
        ensures { IsTrue result ↔ self.now ≡ glob.now }
    {
        self.glob.as_str() == glob.as_str()
    }

    /// Returns whether the glob matches the whole name. The only error is out of memory.
    pub fn is_match(&self, alloc: Global, name: &str) -> Result<bool, AllocError>
        ensures { IfOk result (λ matched. IsTrue matched ↔ Matches self.now.tokens (chars name.now)) }
    {
        if !substring::contains(name, self.literal.as_str()) {
            return Ok(false);
        }
        self.glob.is_match(alloc, name)
    }
}

/// Returns the longest run of literals among the tokens, outside of groups. It is empty if there is no literal. The only
/// error is out of memory.
fn find_longest_literal(alloc: Global, tokens: &[GlobToken]) -> Result<String, AllocError>
    ensures { IfOk result (λ literal. StandsInEach (tokens_of tokens.now) (string_bytes literal)) }
{
    let mut longest = String::new(alloc);
    let mut run = String::new(alloc);
    for token in tokens {
        match token {
            GlobToken::Literal(own) => run.push(*own)?,
            _ => end_run(&mut longest, &mut run),
        }
    }
    end_run(&mut longest, &mut run);
    Ok(longest)
}

/// Ends a run: keeps it if it is longer than `longest`, and empties it.
fn end_run(longest: &mut String, run: &mut String)
    ensures kept { string_bytes longest.new ≡ string_bytes longest.old ⊎ string_bytes longest.new ≡ string_bytes run.old }
    ensures begun { string_bytes run.new ≡ [] }
{
    if run.len() > longest.len() {
        swap(longest, run);
    }
    run.clear();
}

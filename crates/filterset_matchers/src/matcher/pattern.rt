//! Patterns and their matchers. A pattern that is a choice of few texts, such as `net::tcp` or `unix|windows`, needs no
//! regex: the texts are searched for. A pattern whose matches all have a known place is compiled to one DFA. Any other
//! pattern has a `Regex`.
ghost use Rattle.std.specs.Prelude.{◌≡◌, ◌≢◌, ◌↔◌, [], ◌∷◌, All, IsTrue, IsUtf8, IfErr, IfOk, IfSome, List, ℕ, OnOk, map, string_bytes};
ghost use Rattle.regex.specs.declared.error.Error.TheVariants as regex;
ghost use Rattle.regex_hir.specs.Meaning.{meaning};
ghost use Rattle.filterset_matchers.specs.Compiled.{IsCompiledOf, IsPlaceOf, IsReadAs};
ghost use Rattle.filterset_matchers.specs.Pattern.{IsPattern, IsPlain, IsSmall, IsErrorFor, IsUnreadOrLarge, MayBeRejected, HasMatch, IsBuiltOf, HasOneOf, IsChoice, IsSearchedFor, count_byte};
ghost use Rattle.filterset_matchers.specs.declared.matcher.pattern.PatternRefusal.TheVariants as refusal;

use crate::matcher::compiled::{Compiled, CompiledMatcher, LEAST_LITERAL, Place, place_of};
use crate::matcher::plain::{is_special, unescape};
use crate::matcher::substring;
use regex::{Matcher, Regex};
use regex_extract::exact_literals;
use regex_hir::Hir;
use regex_syntax::{Config, ErrorKind, Parsed};
use std::alloc::{AllocError, Global};
use std::fmt;
use std::marker::Model;

/// The reason why a text is not a pattern.
#[derive(Debug, Drop)]
pub enum PatternRefusal {
    /// The grammar of `regex` does not read the text, or it does and the compiled pattern would be too large.
    /// [`PatternRegex::is_pattern`] tells which.
    NotBuilt,
    /// Out of memory.
    OutOfMemory(AllocError),
}

impl From<AllocError> for PatternRefusal {
    ghost use Rattle.filterset_matchers.specs.declared.matcher.pattern.PatternRefusal.TheVariants.{OutOfMemory};

    ghost from_gives = { λ failed refused. refused ≡ OutOfMemory failed };

    fn from(failed: AllocError) -> PatternRefusal {
        PatternRefusal::OutOfMemory(failed)
    }
}

/// The most texts that are searched for one by one.
const MAX_TEXTS: usize = 4;

/// The most bytes of a small pattern.
const MAX_SMALL_BYTES: usize = 1024;

/// The most backslashes of a small pattern.
const MAX_SMALL_ESCAPES: usize = 64;

/// The way to search for a pattern.
#[derive(Debug, Drop)]
enum Searched {
    /// The pattern is a choice of these texts.
    Texts(Vec<String>),
    /// The compiled pattern, whose matches have a known place. This and a `Regex` are large, and boxed because a function
    /// zeroes its locals on entry.
    Compiled(Box<Compiled>),
    /// The regex of the pattern.
    Regex(Box<Regex>),
}

/// A pattern: its text, and the way to search for it. Contracts see the text.
#[derive(Debug)]
pub struct PatternRegex {
    pattern: String,
    searched: Searched,
}

impl Model for PatternRegex {
    ghost use Rattle.std.specs.Prelude.{List, ℕ, string_bytes};
    ghost use Rattle.filterset_matchers.specs.Pattern.{IsSearchedFor};

    ghost Value = { List ℕ };

    ghost view = { λ p. string_bytes p.pattern };

    ghost invariant = { λ p. IsSearchedFor (string_bytes p.pattern) p.searched };
}

impl PatternRegex {
    /// Compiles a pattern. An error drops the text.
    ///
    /// A text is rejected only if the grammar of `regex` does not read it, or the compiled pattern would be larger than
    /// `regex` allows, or out of memory. No plain pattern is too large, and no small one:
    ///
    /// - In a plain pattern, each character stands for itself, like those of `my-crate`, or after a backslash, like the
    ///   dot of `a\.b`.
    /// - A small pattern has at most 1,024 bytes and 64 backslashes, and no `{`.
    pub fn new(alloc: Global, pattern: String) -> Result<PatternRegex, PatternRefusal>
        ensures text { IfOk result (λ p. p ≡ string_bytes pattern) }
        ensures read { IfOk result (λ p. IsPattern p) }
        ensures plain { IsPlain (string_bytes pattern) → IfErr result (λ refused. refused ≢ refusal.NotBuilt) }
        ensures refused { IfErr result (λ refused. refused ≡ refusal.NotBuilt → MayBeRejected (string_bytes pattern)) }
    {
        let searched = choose_search(alloc, pattern.as_str())?;
        Ok(PatternRegex { pattern, searched })
    }

    /// Returns whether the grammar of `regex` reads the text. If [`PatternRegex::new`] did not build a pattern of a text
    /// that it reads, the compiled pattern would be too large. The only error is out of memory.
    pub fn is_pattern(alloc: Global, text: &str) -> Result<bool, AllocError>
        ensures { IfOk result (λ is. IsTrue is ↔ IsPattern text.now) }
    {
        match regex_syntax::parse(alloc, text, &Config::default()) {
            Ok(_parsed) => Ok(true),
            Err(error) => match error.kind {
                ErrorKind::OutOfMemory => Err(AllocError),
                _ => Ok(false),
            },
        }
    }

    /// Returns the text of the pattern.
    pub fn as_str(&self) -> &str
        ensures text { result.now ≡ self.now }
        ensures read { IsPattern self.now }
    {
        self.pattern.as_str()
    }

    /// Returns whether the pattern has a match in the input. The only error is out of memory.
    ///
    /// Unless the pattern is a choice of few texts, this makes a matcher for one search. To search more than once, call
    /// [`PatternRegex::matcher`].
    #[cold]
    #[inline(never)]
    pub fn is_match(&self, alloc: Global, input: &str) -> Result<bool, AllocError>
        ensures { IfOk result (λ found. IsTrue found ↔ HasMatch self.now input.now) }
    {
        if let Some(found) = self.is_match_at_once(input) {
            return Ok(found);
        }
        let mut matcher = self.matcher(alloc)?;
        Ok(matcher.is_match(input))
    }

    /// Returns whether the pattern has a match in the input, or `None` if that needs a matcher: if the pattern is not known
    /// to be a choice of few texts.
    pub fn is_match_at_once(&self, input: &str) -> Option<bool>
        ensures { IfSome result (λ found. IsTrue found ↔ HasMatch self.now input.now) }
    {
        match &self.searched {
            Searched::Texts(texts) => Some(contains_any(input, texts)),
            Searched::Compiled(_) | Searched::Regex(_) => None,
        }
    }

    /// Returns a matcher for the pattern. The only error is out of memory.
    #[cold]
    #[inline(never)]
    pub fn matcher(&self, alloc: Global) -> Result<PatternMatcher<'_>, AllocError>
        ensures { IfOk result (λ matcher. matcher ≡ self.now) }
    {
        let search = match &self.searched {
            Searched::Texts(texts) => Search::Texts(texts),
            Searched::Compiled(compiled) => {
                Search::Compiled(Box::new(alloc, compiled.matcher(alloc)?)?)
            }
            Searched::Regex(regex) => Search::Regex(Box::new(alloc, regex.matcher(alloc)?)?),
        };
        Ok(PatternMatcher {
            pattern: self,
            search,
        })
    }
}

// Implemented by hand: a derived `Drop` is proved again in each function that drops a pattern.
impl Drop for PatternRegex {
    fn drop(self) {
        let PatternRegex {
            pattern: _pattern,
            searched: _searched,
        } = self;
    }
}

/// Chooses the way to search for a pattern.
fn choose_search(alloc: Global, text: &str) -> Result<Searched, PatternRefusal>
    ensures searched { IfOk result (λ searched. IsSearchedFor text.now searched) }
    ensures refused { IfErr result (λ refused. refused ≡ refusal.NotBuilt → MayBeRejected text.now) }
{
    if let Some(plain) = unescape(alloc, text)? {
        return Ok(Searched::Texts(list_alone(alloc, plain)?));
    }
    if is_worth_reading(text) {
        if let Some(searched) = choose_search_by_tree(alloc, text)? {
            return Ok(searched);
        }
    }
    Ok(Searched::Regex(build_regex(alloc, text)?))
}

/// Returns a list of this text alone. The only error is out of memory.
fn list_alone(alloc: Global, text: String) -> Result<Vec<String>, AllocError>
    ensures { IfOk result (λ texts. map string_bytes texts.items ≡ string_bytes text ∷ []) }
{
    Ok(vec![in alloc; text]?)
}

/// Returns whether to parse the text before a regex is built: its matches may have a known place, or it has none of the
/// characters that are rare in a choice of few texts. The answer does not change what the pattern matches.
fn is_worth_reading(text: &str) -> bool {
    let begins_with_literal = !text
        .chars()
        .take(LEAST_LITERAL)
        .any(|character| is_special(character));
    begins_with_literal
        || text.starts_with("^")
        || text.ends_with("$")
        || !text.bytes().any(|byte| {
            matches!(
                byte,
                b'^' | b'$' | b'(' | b')' | b'*' | b'+' | b'?' | b'{' | b'}' | b'.' | b'\\'
            )
        })
}

/// Parses the text, and chooses the way to search for it, if it is a choice of few texts or its matches have a known
/// place.
///
/// It is not inlined, so that a plain text does not pay for the locals of a parser.
#[cold]
#[inline(never)]
fn choose_search_by_tree(alloc: Global, text: &str) -> Result<Option<Searched>, PatternRefusal>
    ensures searched { IfOk result (λ found. IfSome found (IsSearchedFor text.now)) }
    ensures refused { IfErr result (λ refused. refused ≡ refusal.NotBuilt → IsUnreadOrLarge text.now) }
{
    let (tree, groups) = tree_of(alloc, text)?;
    if let Some(texts) = texts_of_tree(alloc, &tree)? {
        return Ok(Some(Searched::Texts(texts)));
    }
    match place_of(alloc, &tree)? {
        Some(place) => {
            let compiled = compile_tree(alloc, text, &tree, groups, place)?;
            Ok(Some(Searched::Compiled(compiled)))
        }
        None => Ok(None),
    }
}

/// Parses the text. Returns its tree and the number of its groups, counting the whole pattern.
fn tree_of(alloc: Global, text: &str) -> Result<(Hir, u32), PatternRefusal>
    ensures read { IfOk result (λ read. IsReadAs text.now read.0) }
    ensures pattern { OnOk result (IsPattern text.now) }
    ensures refused { IfErr result (λ refused. refused ≡ refusal.NotBuilt → IsUnreadOrLarge text.now) }
{
    match regex_syntax::parse(alloc, text, &Config::default()) {
        Ok(Parsed { hir, names }) => match u32::try_from(names.len()) {
            Ok(groups) => Ok((hir, groups)),
            Err(_) => Err(refusal_of(text, regex::Error::CompiledTooBig)),
        },
        Err(error) => Err(refusal_of(text, error.into())),
    }
}

/// Compiles the tree of a pattern with so many groups, whose matches have this place.
fn compile_tree(
    alloc: Global,
    text: &str,
    tree: &Hir,
    groups: u32,
    place: Place,
) -> Result<Box<Compiled>, PatternRefusal>
    requires pattern { IsPattern text.now }
    requires place { IsPlaceOf (meaning tree.now) place }
    ensures compiled { IfOk result (λ compiled. (pattern : List ℕ) → IsReadAs pattern tree.now
        → IsCompiledOf pattern compiled.value) }
    ensures refused { IfErr result (λ refused. refused ≡ refusal.NotBuilt → IsUnreadOrLarge text.now) }
{
    match Compiled::new(alloc, tree, groups, place) {
        Ok(compiled) => match Box::new(alloc, compiled) {
            Ok(compiled) => Ok(compiled),
            Err(failed) => Err(PatternRefusal::OutOfMemory(failed.into())),
        },
        Err(error) => Err(refusal_of(text, error.into())),
    }
}

/// Returns the texts that the tree is a choice of, if they are found and few. The only error is out of memory.
fn texts_of_tree(alloc: Global, tree: &Hir) -> Result<Option<Vec<String>>, AllocError>
    ensures { IfOk result (λ found. IfSome found (λ texts. (pattern : List ℕ) → IsReadAs pattern tree.now
        → IsChoice pattern (map string_bytes texts.items))) }
{
    match exact_literals(alloc, tree)? {
        Some(needles) if needles.len() <= MAX_TEXTS => texts_of_needles(alloc, &needles),
        _ => Ok(None),
    }
}

/// Copies the needles as texts, if all are UTF-8. The only error is out of memory.
fn texts_of_needles(alloc: Global, needles: &[Vec<u8>]) -> Result<Option<Vec<String>>, AllocError>
    ensures same { IfOk result (λ found. IfSome found (λ texts. map string_bytes texts.items ≡ map (λ n. n.items) needles.now)) }
    ensures utf8 { IfOk result (λ found. IfSome found (λ texts. All IsUtf8 (map string_bytes texts.items))) }
{
    let mut texts = Vec::new(alloc);
    for needle in needles {
        let Ok(text) = str::from_utf8(needle) else {
            return Ok(None);
        };
        texts.push(String::from_str(alloc, text)?)?;
    }
    Ok(Some(texts))
}

/// Builds the regex of a text. It is not inlined, since a regex is large.
#[cold]
#[inline(never)]
fn build_regex(alloc: Global, text: &str) -> Result<Box<Regex>, PatternRefusal>
    ensures built { IfOk result (λ regex. IsBuiltOf text.now regex.value) }
    ensures refused { IfErr result (λ refused. refused ≡ refusal.NotBuilt → IsUnreadOrLarge text.now) }
{
    match Regex::new(alloc, text) {
        Ok(regex) => match Box::new(alloc, regex) {
            Ok(regex) => Ok(regex),
            Err(failed) => Err(PatternRefusal::OutOfMemory(failed.into())),
        },
        Err(error) => Err(refusal_of(text, error)),
    }
}

/// Converts the error of `regex` for a text. Out of memory is not a fault of the text. Nor is the size of a small pattern:
/// `regex` allows what it compiles of one, but promises nothing of that.
fn refusal_of(text: &str, error: regex::Error) -> PatternRefusal
    requires { IsErrorFor text.now error }
    ensures refused { result ≡ refusal.NotBuilt → IsUnreadOrLarge text.now }
    ensures memory { error ≡ regex.OutOfMemory → result ≢ refusal.NotBuilt }
{
    match error {
        regex::Error::Syntax(_) => PatternRefusal::NotBuilt,
        regex::Error::CompiledTooBig if !is_small(text) => PatternRefusal::NotBuilt,
        _ => PatternRefusal::OutOfMemory(AllocError),
    }
}

/// Returns whether the text is small. What `regex` compiles of a small pattern is within its limit.
fn is_small(text: &str) -> bool
    ensures { IsTrue result ↔ IsSmall text.now }
{
    text.len() <= MAX_SMALL_BYTES
        && count_bytes(text, b'\\') <= MAX_SMALL_ESCAPES
        && count_bytes(text, b'{') == 0
}

/// Counts how many bytes of the text are this one.
fn count_bytes(text: &str, byte: u8) -> usize
    ensures { result ≡ count_byte byte text.now }
{
    text.bytes().filter(|own| *own == byte).count()
}

/// Compares the texts.
impl PartialEq for PatternRegex {
    ghost use Rattle.std.proofs.Common.{rules};
    ghost use Rattle.std.specs.{Cmp.Rules.comparing, Str.bytes_eq};

    ghost eq = { bytes_eq };

    ghost laws = { Prim.search (comparing, rules) };

    fn eq(&self, other: &PatternRegex) -> bool {
        self.as_str() == other.as_str()
    }
}

impl Eq for PatternRegex {
    ghost use Rattle.std.proofs.Common.{rules};
    ghost use Rattle.std.specs.Cmp.Rules.{comparing};

    ghost laws = { Prim.search (comparing, rules) };
}

/// A matcher for a pattern. Unless the pattern is a choice of few texts, making it costs as much as ten to a hundred
/// searches. It reuses its memory from search to search. Contracts see the pattern's text.
pub struct PatternMatcher<'p> {
    pattern: &'p PatternRegex,
    search: Search<'p>,
}

/// The search of a matcher.
#[derive(Drop)]
enum Search<'p> {
    /// The pattern is a choice of these texts.
    Texts(&'p [String]),
    /// The matcher of the compiled pattern.
    Compiled(Box<CompiledMatcher<'p>>),
    /// The matcher of the regex.
    Regex(Box<Matcher<'p>>),
}

impl<'p> Model for PatternMatcher<'p> {
    ghost use Rattle.std.specs.Prelude.{List, ℕ};
    ghost use Rattle.filterset_matchers.specs.Pattern.{SearchesFor};

    ghost Value = { List ℕ };

    ghost view = { λ m. m.pattern.now };

    ghost invariant = { λ m. SearchesFor m.pattern.now m.search };
}

// Implemented by hand, as for `PatternRegex`.
impl Drop for PatternMatcher<'_> {
    fn drop(self) {
        let PatternMatcher {
            pattern: _,
            search: _search,
        } = self;
    }
}

impl<'p> PatternMatcher<'p> {
    /// Returns whether this matcher is of that pattern, by its text.
    pub fn is_of(&self, pattern: &PatternRegex) -> bool
        ensures { IsTrue result ↔ self.now ≡ pattern.now }
    {
        self.pattern.as_str() == pattern.as_str()
    }

    /// Returns whether the pattern has a match in the input.
    pub fn is_match(&mut self, input: &str) -> bool
        ensures found { IsTrue result ↔ HasMatch self.old input.now }
        ensures same { self.new ≡ self.old }
    {
        match &mut self.search {
            Search::Texts(texts) => contains_any(input, texts),
            Search::Compiled(matcher) => matcher.is_match(input),
            Search::Regex(matcher) => matcher.is_match(input),
        }
    }
}

/// Returns whether the input contains one of the texts.
fn contains_any(input: &str, texts: &[String]) -> bool
    ensures { IsTrue result ↔ HasOneOf (map string_bytes texts.now) input.now }
{
    for text in texts {
        if substring::contains(input, text.as_str()) {
            return true;
        }
    }
    false
}

impl fmt::Debug for PatternMatcher<'_> {
    fn fmt<W: fmt::Write>(&self, f: &mut fmt::Formatter<W>) -> fmt::Result {
        write!(f, "PatternMatcher({:?})", self.pattern.as_str())
    }
}

//! Searches of names for a matcher.
ghost use Rattle.std.specs.Prelude.{◌≡◌, ◌↔◌, ◌<◌, ◌+◌, ◌/◌, [], List, ℕ, IfOk, IfSome, IsTrue, length, vec_len};
ghost use Rattle.std.specs.{List.list_any, Str.bytes_eq, Str.Iter.HasSubslice};
ghost use Rattle.filterset_matchers.specs.{Matcher.MatchesName, Matchers.matcher_of};
ghost use Rattle.filterset_record.specs.Columns.{names_of, test_of, Answered, AnsweredWhere};
ghost use Rattle.filterset_record.specs.{Grouped.IsGrouped, Grouped.Knows, Searching.AnsweredSoFar};

use crate::bits::Bits;
use crate::column::Column;
use crate::groups::{GroupMatcher, GroupedTest, PlacedLookup};
use crate::hits::{Place, next_hit};
use crate::names::Names;
use crate::operators::Operator;
use filterset_expression::{BinaryQuery, CompiledExpr, FiltersetLeaf, TestQuery};
use filterset_graph::GLOBAL_TEST_GROUP;
use filterset_matchers::{GlobMatcher, NameMatcher, PatternMatcher};
use memchr::memmem::Finder;
use std::alloc::{AllocError, Global};

/// The least number of names that are searched for a text at once. For fewer, a search of each is faster.
const MANY_NAMES: usize = 16;

/// A matcher that is prepared for many names.
#[derive(Drop)]
pub(crate) enum Searcher<'a> {
    /// Nothing to prepare.
    Plain(&'a NameMatcher),
    Glob(GlobMatcher<'a>),
    Pattern(PatternMatcher<'a>),
}

impl<'a> Searcher<'a> {
    ghost use Rattle.filterset_record.specs.Searching.{Finds};

    /// Prepares the matcher. The only error is out of memory.
    pub(crate) fn new(alloc: Global, matcher: &'a NameMatcher) -> Result<Searcher<'a>, AllocError>
        ensures { IfOk result (λ searcher. (name : List ℕ)
            → Finds searcher name ↔ MatchesName (matcher_of matcher.now) name) }
    {
        Ok(match matcher {
            NameMatcher::Regex(pattern) => Searcher::Pattern(pattern.matcher(alloc)?),
            NameMatcher::Glob { glob, .. } if GlobMatcher::pays_for(glob) => {
                Searcher::Glob(GlobMatcher::new(alloc, glob)?)
            }
            _ => Searcher::Plain(matcher),
        })
    }

    /// Returns whether this searcher was prepared for the matcher, as far as it pays to keep one.
    fn is_of(&self, matcher: &NameMatcher) -> bool
        ensures { IsTrue result → (name : List ℕ) → Finds self.now name ↔ MatchesName (matcher_of matcher.now) name }
    {
        match (self, matcher) {
            (Searcher::Glob(own), NameMatcher::Glob { glob, .. }) => own.is_of(glob),
            (Searcher::Pattern(own), NameMatcher::Regex(pattern)) => own.is_of(pattern),
            _ => false,
        }
    }

    /// Returns whether the matcher matches the name. The only error is out of memory.
    pub(crate) fn is_match(&mut self, alloc: Global, name: &str) -> Result<bool, AllocError>
        ensures finds { IfOk result (λ found. IsTrue found ↔ Finds self.old name.now) }
        ensures same { self.new ≡ self.old }
    {
        match self {
            Searcher::Plain(matcher) => matcher.is_match(alloc, name),
            Searcher::Glob(matcher) => matcher.is_match(alloc, name),
            Searcher::Pattern(matcher) => Ok(matcher.is_match(name)),
        }
    }

    /// Returns whether the name is wanted and the matcher matches it. The only error is out of memory.
    fn is_match_if(
        &mut self,
        alloc: Global,
        is_wanted: bool,
        name: &str,
    ) -> Result<bool, AllocError>
        ensures finds { IfOk result (λ found. IsTrue found ↔ (IsTrue is_wanted × Finds self.old name.now)) }
        ensures same { self.new ≡ self.old }
    {
        if !is_wanted {
            return Ok(false);
        }
        self.is_match(alloc, name)
    }
}

/// The searchers of an expression's `test` leaves, which are kept from one binary to the next. A searcher knows its
/// matcher, so no answer depends on what is kept.
#[derive(Drop)]
pub(crate) struct Searchers<'a> {
    kept: Vec<Option<Searcher<'a>>>,
    /// The place of the next leaf among the `test` leaves.
    next: usize,
    /// Empty lists of operators, so that an evaluation allocates none.
    spare: Vec<Vec<Operator<'a>>>,
}

impl<'a> Searchers<'a> {
    ghost use Rattle.filterset_record.specs.Searching.{Finds};

    /// Keeps nothing.
    pub(crate) fn new(alloc: Global) -> Searchers<'a> {
        Searchers {
            kept: Vec::new(alloc),
            next: 0,
            spare: Vec::new(alloc),
        }
    }

    /// Returns an empty list of operators.
    pub(crate) fn take_operators(&mut self, alloc: Global) -> Vec<Operator<'a>>
        ensures { result.items ≡ [] }
    {
        let mut operators = self.spare.pop().unwrap_or(Vec::new(alloc));
        operators.clear();
        operators
    }

    /// Keeps a list of operators for another evaluation. The only error is out of memory.
    pub(crate) fn keep_operators(
        &mut self,
        operators: Vec<Operator<'a>>,
    ) -> Result<(), AllocError> {
        Ok(self.spare.push(operators)?)
    }

    /// Begins again with the first leaf.
    pub(crate) fn rewind(&mut self) {
        self.next = 0;
    }

    /// Passes over the `test` leaves of an expression.
    pub(crate) fn pass(&mut self, expr: &CompiledExpr) {
        match expr {
            CompiledExpr::Not(operand) => self.pass(operand),
            CompiledExpr::Union(left, right)
            | CompiledExpr::Intersection(left, right)
            | CompiledExpr::SymmetricDifference(left, right) => {
                self.pass(left);
                self.pass(right);
            }
            CompiledExpr::Set(FiltersetLeaf::Test(..)) => self.advance(),
            CompiledExpr::Set(_) => {}
        }
    }

    /// Goes on to the next leaf.
    fn advance(&mut self) {
        self.next = self.next.saturating_add(1);
    }

    /// Returns the searcher of the next leaf, whose matcher is this one. The only error is out of memory.
    fn take(&mut self, alloc: Global, matcher: &'a NameMatcher) -> Result<Searcher<'a>, AllocError>
        ensures { IfOk result (λ searcher. (name : List ℕ)
            → Finds searcher name ↔ MatchesName (matcher_of matcher.now) name) }
    {
        if let Some(kept) = self.kept.get_mut(self.next) {
            if let Some(searcher) = kept.take() {
                if searcher.is_of(matcher) {
                    return Ok(searcher);
                }
            }
        }
        Searcher::new(alloc, matcher)
    }

    /// Keeps the searcher of the next leaf, and goes on to the leaf after it. The only error is out of memory.
    fn keep(&mut self, searcher: Searcher<'a>) -> Result<(), AllocError> {
        if !matches!(searcher, Searcher::Plain(_)) {
            for _ in self.kept.len()..self.next.saturating_add(1) {
                self.kept.push(None)?;
            }
            if let Some(kept) = self.kept.get_mut(self.next) {
                *kept = Some(searcher);
            }
        }
        self.advance();
        Ok(())
    }
}

/// Searches the names for the matcher: the answer for a wanted test is whether the matcher matches its name. The only error
/// is out of memory.
pub(crate) fn search_names<'a>(
    alloc: Global,
    matcher: &'a NameMatcher,
    names: &Names<'_>,
    wanted: &Column,
    searchers: &mut Searchers<'a>,
) -> Result<Column, AllocError>
    requires { wanted.now.len ≡ length (names_of names.now) }
    ensures { IfOk result (λ column. AnsweredWhere wanted.now column (names_of names.now)
        (λ name. MatchesName (matcher_of matcher.now) name.now)) }
{
    match matcher {
        NameMatcher::Equal { value, implicit: _ } => {
            searchers.advance();
            find_name(alloc, value.as_str(), names)
        }
        NameMatcher::Contains { value, implicit: _ } if names.len() >= MANY_NAMES => {
            searchers.advance();
            find_text(alloc, value.as_str(), names)
        }
        _ => search_each(alloc, matcher, names, wanted, searchers),
    }
}

/// Returns whether a name is equal to the value.
fn has_name(value: &str, names: &Names<'_>) -> bool
    ensures { result ≡ list_any (λ name. bytes_eq name.now value.now) (names_of names.now) }
{
    names.tests.iter().any(|name| name.as_str() == value)
}

/// Finds the names that are equal to a value. The only error is out of memory.
fn find_name(alloc: Global, value: &str, names: &Names<'_>) -> Result<Column, AllocError>
    ensures { IfOk result (λ column. Answered column (names_of names.now) (λ name. name.now ≡ value.now)) }
{
    if !has_name(value, names) {
        return Ok(Column::same(names.len(), false));
    }
    let mut bits = Bits::with_len(alloc, names.len())?;
    for (position, name) in names.tests.iter().enumerate() {
        let answer = name.as_str() == value;
        bits.put(position, answer);
    }
    Ok(Column::of_bits(names.len(), bits))
}

/// Finds the names that contain a text, by one search over all of them. The only error is out of memory.
fn find_text(alloc: Global, value: &str, names: &Names<'_>) -> Result<Column, AllocError>
    ensures { IfOk result (λ column. Answered column (names_of names.now) (λ name. HasSubslice name.now value.now)) }
{
    if value.is_empty() {
        return Ok(Column::same(names.len(), true));
    }
    let bits = find_some_text(alloc, value, names)?;
    Ok(Column::of_bits(names.len(), bits))
}

/// Finds the names that contain a text of some bytes. The only error is out of memory.
fn find_some_text(alloc: Global, value: &str, names: &Names<'_>) -> Result<Bits, AllocError>
    requires { 0 < length value.now }
    ensures room { IfOk result (λ bits. vec_len bits.words ≡ length (names_of names.now) / 64 + 1) }
    ensures found { IfOk result (λ bits. AnsweredSoFar bits.words.items (names_of names.now)
        (λ position name. HasSubslice name.now value.now) (length (names_of names.now))) }
{
    let finder = Finder::new(value.as_bytes());
    let mut bits = Bits::with_len(alloc, names.len())?;
    let mut place = Place {
        position: 0,
        start: 0,
    };
    while let Some(hit) = next_hit(names, &finder, place) {
        bits.put(hit.position, hit.is_within);
        place = Place {
            position: hit.position + 1,
            start: hit.end,
        };
    }
    Ok(bits)
}

/// Asks the matcher about each wanted name: the answer for another is `false`. The only error is out of memory.
fn search_each<'a>(
    alloc: Global,
    matcher: &'a NameMatcher,
    names: &Names<'_>,
    wanted: &Column,
    searchers: &mut Searchers<'a>,
) -> Result<Column, AllocError>
    requires { wanted.now.len ≡ length (names_of names.now) }
    ensures { IfOk result (λ column. AnsweredWhere wanted.now column (names_of names.now)
        (λ name. MatchesName (matcher_of matcher.now) name.now)) }
{
    let mut searcher = searchers.take(alloc, matcher)?;
    let mut bits = Bits::with_len(alloc, names.len())?;
    for (position, name) in names.tests.iter().enumerate() {
        let is_wanted = wanted.get(position);
        let answer = searcher.is_match_if(alloc, is_wanted, name.as_str())?;
        bits.put(position, answer);
    }
    searchers.keep(searcher)?;
    Ok(Column::of_bits(names.len(), bits))
}

/// Asks for the group of the test if it is wanted, where the one at its position may be the same test: returns whether
/// it is wanted and the matcher matches its group. The only error is out of memory, here or in the lookup.
fn is_member_if<'a>(
    alloc: Global,
    is_wanted: bool,
    matcher: &mut GroupMatcher<'a>,
    placed: Option<&GroupedTest<'a>>,
    test: &TestQuery<'_>,
    groups: &dyn PlacedLookup,
) -> Result<bool, AllocError>
    requires known { Knows matcher.old }
    requires placed { IfSome placed (λ p. IsGrouped (matches_group groups.now) test.now.binary_query p.now) }
    ensures found { IfOk result (λ found. IsTrue found
        ↔ (IsTrue is_wanted × matches_group groups.now test.now (matcher_of matcher.old.matcher.now))) }
    ensures same { matcher.new.matcher.now ≡ matcher.old.matcher.now }
    ensures known { Knows matcher.new }
{
    if !is_wanted {
        return Ok(false);
    }
    if let Some(placed) = placed {
        if *placed.name == *test.test_name {
            return matcher.is_match(alloc, placed.group);
        }
    }
    groups.is_member_test(alloc, test, matcher.matcher)
}

/// Asks for the groups of the wanted tests: the answer for one is whether the matcher matches its group. The only error is
/// out of memory, here or in the lookup.
pub(crate) fn search_groups(
    alloc: Global,
    matcher: &NameMatcher,
    query: &BinaryQuery<'_>,
    names: &Names<'_>,
    groups: &dyn PlacedLookup,
    wanted: &Column,
) -> Result<Column, AllocError>
    requires { wanted.now.len ≡ length (names_of names.now) }
    ensures { IfOk result (λ column. AnsweredWhere wanted.now column (names_of names.now)
        (λ name. matches_group groups.now (test_of query.now name) (matcher_of matcher.now))) }
{
    let grouped = groups.grouped_tests(query);
    let mut asked = GroupMatcher::new(alloc, matcher, GLOBAL_TEST_GROUP)?;
    let mut bits = Bits::with_len(alloc, names.len())?;
    for (position, name) in names.tests.iter().enumerate() {
        let test = TestQuery {
            binary_query: *query,
            test_name: *name,
        };
        let is_wanted = wanted.get(position);
        let placed = grouped.get(position);
        let answer = is_member_if(alloc, is_wanted, &mut asked, placed, &test, groups)?;
        bits.put(position, answer);
    }
    Ok(Column::of_bits(names.len(), bits))
}

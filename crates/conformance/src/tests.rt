//! Tests of what no clause, row of the suite, transcript or session says: public calls that no program makes, trees that
//! are made in code, refused memory, readers and writers that fail, and the runner that docs/CALLING.md explains.
//!
//! Each call that may run out of memory returns what it returns with memory, or an error that says so: `scripts/refusals.sh`
//! runs the tests whose names end in `_or_wants_memory`, refusing each request for memory in turn. Expected values follow
//! from the rules in docs/, and none is taken from what the library returns.

mod calling;
mod copies;
mod drawings;
mod equality;
mod filtersets;
mod matchers;
mod nesting;
mod runs;
mod support;
mod trees;

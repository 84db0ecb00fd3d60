//! Reads the names of predicates.
ghost use Rattle.std.specs.{Prelude.◌≡◌, Prelude.◌<◌, Prelude.length, Prelude.IfSome, Option.option_map};
ghost use Rattle.filterset_language.specs.Parsing.Position.{position_of, IsBehind};
ghost use Rattle.filterset_language.specs.Parsing.Words.{seen, named, either, name_at};

use crate::parsing::input::Input;
use filterset_grammar::Predicate;

/// The name of a predicate.
#[derive(Clone, Copy)]
pub enum PredicateName {
    Matching(Predicate),
    Platform,
    Default,
    All,
    None,
}

/// Reads the name of a predicate, and returns the position after it.
pub fn read_name(input: Input<'_>) -> Option<(PredicateName, Input<'_>)>
    ensures value { option_map seen result ≡ name_at (position_of input.entry) }
    ensures behind { IfSome result (λ x. IsBehind input.entry x.1) }
{
    match input.rest.as_bytes() {
        [b'a', ..] => read_named(input, "all", PredicateName::All),
        [b'b', ..] => {
            let id = PredicateName::Matching(Predicate::BinaryId);
            let binary = PredicateName::Matching(Predicate::Binary);
            read_either(input, "binary_id", id, "binary", binary)
        }
        [b'd', ..] => {
            let deps = PredicateName::Matching(Predicate::Deps);
            read_either(input, "deps", deps, "default", PredicateName::Default)
        }
        [b'g', ..] => read_named(input, "group", PredicateName::Matching(Predicate::Group)),
        [b'k', ..] => read_named(input, "kind", PredicateName::Matching(Predicate::Kind)),
        [b'n', ..] => read_named(input, "none", PredicateName::None),
        [b'p', ..] => {
            let package = PredicateName::Matching(Predicate::Package);
            read_either(
                input,
                "package",
                package,
                "platform",
                PredicateName::Platform,
            )
        }
        [b'r', ..] => read_named(input, "rdeps", PredicateName::Matching(Predicate::Rdeps)),
        [b't', ..] => read_named(input, "test", PredicateName::Matching(Predicate::Test)),
        _ => None,
    }
}

/// Reads `word`, and returns `name` for it.
fn read_named<'a>(
    input: Input<'a>,
    word: &str,
    name: PredicateName,
) -> Option<(PredicateName, Input<'a>)>
    requires { 0 < length word.now }
    ensures value { option_map seen result ≡ named word.now name (position_of input.entry) }
    ensures behind { IfSome result (λ x. IsBehind input.entry x.1) }
{
    let rest = input.after(word)?;
    Some((name, rest))
}

/// Reads the first of two words that is here, and returns its name.
fn read_either<'a>(
    input: Input<'a>,
    first: &str,
    name: PredicateName,
    second: &str,
    other: PredicateName,
) -> Option<(PredicateName, Input<'a>)>
    requires first { 0 < length first.now }
    requires second { 0 < length second.now }
    ensures value { option_map seen result ≡ either first.now name second.now other (position_of input.entry) }
    ensures behind { IfSome result (λ x. IsBehind input.entry x.1) }
{
    if let Some(rest) = input.after(first) {
        return Some((name, rest));
    }
    read_named(input, second, other)
}

//! The reference of the language for users.

/// The reference of the language for users, in Markdown.
pub const FILTERSET_REFERENCE_MD: &str = r"# Filtersets

A filterset is an expression that picks tests, for example `package(core) and not test(~slow)`.

## Predicates

Here `m` is a matcher (below).

| predicate | picks |
|---|---|
| `all()` | every test |
| `none()` | no test |
| `test(m)` | tests whose name matches |
| `package(m)` | tests of workspace packages whose name matches |
| `deps(m)` | tests of these packages, and of workspace packages that they depend on, directly or not |
| `rdeps(m)` | tests of these packages, and of workspace packages that depend on them, directly or not |
| `binary(m)` | tests of binaries whose name matches |
| `binary_id(m)` | tests of binaries whose id matches, such as `core`, `core::parsing` or `core::bin/cli` |
| `kind(m)` | tests of binaries whose kind matches: `lib`, `proc-macro`, `test`, `bench`, `bin` or `example` |
| `platform(host)`, `platform(target)` | tests of binaries that are built for the host, or for the target |
| `group(m)` | tests whose group matches |
| `default()` | tests that the default filter picks |

## Operators

From the one that binds most tightly:

| operator | picks tests that |
|---|---|
| `not a`, `!a` | `a` does not pick |
| `a and b`, `a & b` | both pick |
| `a - b` | `a` picks and `b` does not |
| `a ^ b` | exactly one of the two picks |
| `a or b`, `a + b`, `a \| b` | at least one of the two picks |

`and`, `&`, `-` and `^` bind equally tightly. Operators of one level group to the left: `a - b & c` is `(a - b) & c`.
Parentheses group otherwise.

`not`, `and` and `or` must not be followed directly by an ASCII letter, an ASCII digit or `_`: `not(a)` is valid, `nota`
is not. Blanks are allowed around operators and parentheses. A blank is a space, a line feed, or a carriage return
followed by a line feed; a tab is not. Between the parentheses of `all`, `none` and `default`, and around `host` and
`target`, any white space is allowed.

## Matchers

| matcher | matches a name that |
|---|---|
| `=text` | is the text |
| `~text` | contains the text |
| `#text` | the glob matches as a whole |
| `/pattern/` | the regular expression matches somewhere, in the syntax of the Rust crate regex |
| `text` | as `=text` in `kind`, as `~text` in `test`, as `#text` in all other predicates |

Blanks before a matcher and after a regular expression do not count. All other blanks belong to the text, also at its
end: `test(~slow )` looks for `slow` and a space. A text is not empty. Without a sign it must not begin with a blank,
`/`, `#`, `=` or `~`.

In a glob, `?` is any one character, `*` any text, `[a-z]` one of these characters, `[!a-z]` or `[^a-z]` any other
character, and `{a\,b}` is `a` or `b`. `**` between slashes is any number of segments.

## Escapes

A text ends at the next comma or `)`. Write these, and the backslash, as `\,`, `\)` and `\\`. `\/`, `\n`, `\r`, `\t`,
`\b` and `\f` are a slash, a line feed, a carriage return, a tab, a backspace and a form feed. `\u{20ac}` is the
character with this number, in one to six hexadecimal digits. No other escape is valid.

A regular expression ends at the first `/` that does not directly follow a backslash. Write `/` in it as `\/`;
everything else is left to the pattern.
";

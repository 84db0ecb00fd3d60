//! How deeply texts nest that are no filtersets, and braces. Clauses speak of parentheses and negations of filtersets.
use filterset_rewriting::nesting::find_deep_place;
use std::test::Fail;

/// Texts, limits, and the offset of what passes the limit, if there is one.
static TEXTS: [(&str, usize, Option<usize>); 26] = [
    ("(((", 3, None),
    ("(((", 2, Some(2)),
    ("all()) ((((", 2, Some(9)),
    // A parenthesis that closes nothing, and words that are no predicates.
    ("x(((", 2, None),
    ("x(((", 1, Some(3)),
    ("(x)(()", 2, Some(4)),
    // Words that are operators, and predicates without a parenthesis.
    ("x and(or(not(", 3, Some(12)),
    ("(test)and(test)and(all()", 2, Some(18)),
    // Parentheses that end no argument, and what may hide that they do.
    ("x() or (all()) or ((all()))", 2, None),
    ("x() or (all()) or ((all()))", 1, Some(19)),
    ("x(/) or (all()) or (all())", 1, Some(19)),
    // Arguments that are none.
    ("test(a,b) not not not all()", 2, Some(18)),
    ("test(/((((", 2, Some(8)),
    ("test(/a/ ,b)!!!", 2, Some(14)),
    ("all(x)((", 1, Some(7)),
    // Words that go on, and blanks that are none.
    ("noté !!!", 2, Some(7)),
    ("not2 ((", 2, Some(6)),
    ("\t((", 1, Some(2)),
    // Braces, one after the other and one in another, in two arguments, and after a parenthesis that does not end one.
    ("binary({a}{b})", 1, None),
    ("binary({a{b}})", 1, Some(9)),
    ("binary({a) or binary({b)", 1, None),
    ("binary({a\\){b})", 1, Some(11)),
    // Classes and escapes, which may hold braces.
    ("binary({[a]}{b})", 1, None),
    ("binary({[}]{b}})", 1, Some(11)),
    ("binary({[]}]{b}})", 1, Some(12)),
    ("binary(\\u{7b}{a})", 1, Some(13)),
];

#[test]
fn counts_levels(rt: HostRuntime) -> Result<(), Fail> {
    for (text, limit, wanted) in &TEXTS {
        let found = find_deep_place(rt.alloc(), *text, *limit)?;
        assert!(rt; found == *wanted, "{text}");
    }
    Ok(())
}

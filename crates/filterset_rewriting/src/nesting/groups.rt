//! The braces that are open in arguments. Those of a regular expression count as if it were a glob.
ghost use Rattle.std.specs.Prelude.{◌≡◌, ◌≢◌, ◌==◌, ◌+◌, ◌<◌, ◌≤◌, ◌^◌, IfSome, length, slice_index};
ghost use Rattle.std.specs.List.{count_by};

/// Returns whether a byte ends an argument.
fn ends_argument(before: u8, byte: u8) -> bool {
    byte == b')' && before != b'\\'
}

/// Returns whether braces after a byte may be part of a class or of an escape: after a `[` or `\u`, up to a `]` that is no
/// part of its class, or the end of the argument.
fn hides_braces(before: u8, is_hidden: bool, byte: u8) -> bool {
    match byte {
        b'[' => true,
        b'u' if before == b'\\' => true,
        b']' => is_hidden && matches!(before, b'[' | b'!' | b'^' | b'}'),
        _ => is_hidden && !ends_argument(before, byte),
    }
}

/// Returns how many braces are open after a byte. One that may be hidden closes none.
fn braces_behind(before: u8, is_hidden: bool, count: usize, byte: u8) -> usize
    requires { byte ≡ 123 → count + 1 < 2 ^ 64 }
    ensures opens { byte ≡ 123 → result ≡ count + 1 }
    ensures other { byte ≢ 123 → result ≤ count }
{
    match byte {
        b'{' => count + 1,
        b'}' if !is_hidden => count.saturating_sub(1),
        _ if ends_argument(before, byte) => 0,
        _ => count,
    }
}

/// Returns the offset of the first brace that opens when `limit` others are open.
pub fn find_deep_group(text: &[u8], limit: usize) -> Option<usize>
    ensures { IfSome result (λ at. (at < length text.now) × (slice_index text.now at ≡ 123)
        × (limit < count_by (λ b. b == 123) text.now)) }
{
    let mut before = 0;
    let mut is_hidden = false;
    let mut count = 0;
    for (i, b) in text.iter().enumerate() {
        if *b == b'{' && count >= limit {
            return Some(i);
        }
        count = braces_behind(before, is_hidden, count, *b);
        is_hidden = hides_braces(before, is_hidden, *b);
        before = *b;
    }
    None
}

//! How many bytes a text begins with: of a blank, or up to what ends an argument.
ghost use Rattle.std.specs.Prelude.{◌≡◌, ◌≤◌, length};
ghost use Rattle.filterset_language.specs.Parsing.{Front.blank_len, Front.close_len, RawTexts.body_len};

/// Returns the length in bytes of the blank at the start of a text, or 0 if there is none.
pub fn blank_len(text: &[u8]) -> usize
    ensures value { result ≡ blank_len text.now }
    ensures within { result ≤ length text.now }
{
    match text {
        [b' ' | b'\n', ..] => 1,
        [b'\r', b'\n', ..] => 2,
        _ => 0,
    }
}

/// Returns the number of bytes before the next `)`, or of the whole text.
pub fn close_len(text: &[u8]) -> usize
    ensures value { result ≡ close_len text.now }
    ensures within { result ≤ length text.now }
{
    for (i, b) in text.iter().enumerate() {
        if *b == b')' {
            return i;
        }
    }
    text.len()
}

/// Returns the number of bytes before the first `/` that does not directly follow a backslash.
pub fn body_len(text: &[u8]) -> usize
    ensures value { result ≡ body_len 0 text.now }
    ensures within { result ≤ length text.now }
{
    let mut before = 0;
    for (i, b) in text.iter().enumerate() {
        if *b == b'/' && before != b'\\' {
            return i;
        }
        before = *b;
    }
    text.len()
}

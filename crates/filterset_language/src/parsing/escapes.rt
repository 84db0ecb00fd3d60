//! Reads escapes of raw texts.
ghost use Rattle.std.specs.{Prelude.◌≡◌, Option.option_map};
ghost use Rattle.filterset_language.specs.Parsing.Escapes.{letter_at, code_from, escape_at, seen_escape};

/// The character of an escape, and the number of bytes after its backslash.
#[derive(Clone, Copy)]
pub struct Escape {
    pub character: char,
    pub len: usize,
}

/// Reads the escape at the start of a text, after its backslash.
pub fn read_escape(text: &[u8]) -> Option<Escape>
    ensures { option_map seen_escape result ≡ escape_at text.now }
{
    match text {
        [b'u', b'{', digits @ ..] => read_code_point(digits),
        [letter, ..] => {
            let character = unescape_letter(*letter)?;
            Some(Escape { character, len: 1 })
        }
        [] => None,
    }
}

/// Returns the character that a letter after a backslash means.
fn unescape_letter(letter: u8) -> Option<char>
    ensures { result ≡ letter_at letter }
{
    match letter {
        b'n' => Some('\n'),
        b'r' => Some('\r'),
        b't' => Some('\t'),
        b'b' => Some('\u{8}'),
        b'f' => Some('\u{c}'),
        b'\\' => Some('\\'),
        b'/' => Some('/'),
        b')' => Some(')'),
        b',' => Some(','),
        _ => None,
    }
}

/// Reads one to six hexadecimal digits and a closing brace.
fn read_code_point(text: &[u8]) -> Option<Escape>
    ensures { option_map seen_escape result ≡ code_from 0 0 text.now }
{
    let mut code = 0;
    for (seen, b) in text.iter().enumerate() {
        if *b == b'}' && seen > 0 {
            let character = char::from_u32(code)?;
            return Some(Escape {
                character,
                len: seen + 3,
            });
        }
        if seen == 6 {
            return None;
        }
        code = 16 * code + char::from(*b).to_digit(16)?;
    }
    None
}

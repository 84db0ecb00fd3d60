//! The texts that commands are about, each with where it comes from.
ghost use Rattle.std.specs.Prelude.{◌≡◌, ◌≤◌, IfOk, length, map, option_map};
ghost use Rattle.filterset_entries.specs.Checked.{row_of, text_row};
ghost use Rattle.filterset_entries.specs.Entries.{default_row, file_row, is_passed_over, line_rows, listed_row, numbered_row, numbered_rows, placement_at, question_rows, rows_in, unmarked};
ghost use Rattle.filterset_entries.specs.Placements.{placement_of};

use crate::place::{FilePlace, Spot};
use crate::question::Question;
use crate::text::TextEntry;
use filterset_configuration::{Places, Stretch};
use filterset_display::Source;
use filterset_sources::{ConfiguredFilterset, FilterKey};
use nextest_filtering::FiltersetKind;
use std::alloc::{AllocError, Global};

/// Makes the entry of a text that is called `word` and its number.
fn numbered_entry<'t>(
    alloc: Global,
    word: &str,
    number: usize,
    kind: FiltersetKind,
    text: &'t str,
) -> Result<TextEntry<'t>, AllocError>
    ensures { IfOk result (λ entry. text_row entry ≡ numbered_row word.now kind number text.now) }
{
    Ok(TextEntry {
        origin: format!(in alloc; "{word} {number}")?,
        kind,
        text,
        place: None,
    })
}

/// Makes an entry of each text of the command line, called `word` and its number.
pub fn given_entries<'t>(
    alloc: Global,
    word: &str,
    kind: FiltersetKind,
    texts: &[&'t str],
) -> Result<Vec<TextEntry<'t>>, AllocError>
    ensures { IfOk result (λ entries.
        map text_row entries.items ≡ numbered_rows word.now kind (map (λ t. t.now) texts.now)) }
{
    let mut entries = Vec::with_capacity(alloc, texts.len())?;
    for (i, text) in texts.iter().enumerate() {
        entries.push(numbered_entry(alloc, word, i + 1, kind, text)?)?;
    }
    Ok(entries)
}

/// What the entries of a file's lines share: the file, what their texts have to be, and whether blank lines have entries.
#[derive(Clone, Copy)]
struct Lines<'t> {
    file: &'t Source<'t>,
    kind: FiltersetKind,
    keeps_blank: bool,
}

/// Returns a line without the byte-order mark that it may begin with.
fn unmarked(line: &str) -> &str
    ensures value { result.now ≡ unmarked line.now }
    ensures bound { length result.now ≤ length line.now }
{
    line.strip_prefix("\u{feff}").unwrap_or(line)
}

/// Returns whether a line has no entry: it is a comment, or blank.
fn is_passed_over(keeps_blank: bool, line: &str) -> bool
    ensures { result ≡ is_passed_over keeps_blank line.now }
{
    line.starts_with("#") || (!keeps_blank && line.trim_start().is_empty())
}

/// Makes the entry of a line that ends at an offset of its file, called `line` and its number, if it is a filterset.
fn line_entry<'t>(
    alloc: Global,
    lines: Lines<'t>,
    number: usize,
    to: usize,
    line: &'t str,
) -> Result<Option<TextEntry<'t>>, AllocError>
    requires { length line.now ≤ to }
    ensures { IfOk result (λ entry.
        option_map text_row entry ≡ listed_row lines.entry.keeps_blank lines.entry.file lines.entry.kind number to line.entry.now) }
{
    let text = unmarked(line);
    if is_passed_over(lines.keeps_blank, text) {
        return Ok(None);
    }
    let mut entry = numbered_entry(alloc, "line", number, lines.kind, text)?;
    let from = to - text.len();
    entry.place = Some(FilePlace {
        file: lines.file,
        spot: Spot::Line(Stretch { from, to }),
    });
    Ok(Some(entry))
}

/// Makes an entry of each line of a file, called `line` and its number, with its place in the file. Lines that begin with `#`,
/// blank lines unless they are kept, and a byte-order mark are passed over.
pub fn line_entries<'t>(
    alloc: Global,
    file: &'t Source<'t>,
    kind: FiltersetKind,
    keeps_blank: bool,
) -> Result<Vec<TextEntry<'t>>, AllocError>
    ensures { IfOk result (λ entries. map text_row entries.items ≡ line_rows keeps_blank file.entry kind) }
{
    let lines = Lines {
        file,
        kind,
        keeps_blank,
    };
    let mut entries = Vec::new(alloc);
    let (mut number, mut from) = (0, 0);
    // What `split` returns has the carriage return of the line break too, and `lines` has not.
    for (line, piece) in file.text.lines().zip(file.text.split('\n')) {
        number += 1;
        if let Some(entry) = line_entry(alloc, lines, number, from + line.len(), line)? {
            entries.push(entry)?;
        }
        from += piece.len() + 1;
    }
    Ok(entries)
}

/// Makes an entry of a text.
pub fn entry_of<'t>(
    alloc: Global,
    origin: &str,
    kind: FiltersetKind,
    text: &'t str,
) -> Result<TextEntry<'t>, AllocError>
    ensures { IfOk result (λ entry. text_row entry ≡ row_of origin.now kind text.now) }
{
    Ok(TextEntry {
        origin: String::from_str(alloc, origin)?,
        kind,
        text,
        place: None,
    })
}

/// The filtersets of a configuration, its file, and where they are in it.
#[derive(Clone, Copy, Debug)]
pub struct ConfiguredTexts<'t> {
    pub file: &'t Source<'t>,
    pub filtersets: &'t [ConfiguredFilterset],
    pub places: &'t Places,
}

/// Puts the filtersets of a file and their places together.
pub fn configured_texts<'t>(
    file: &'t Source<'t>,
    filtersets: &'t [ConfiguredFilterset],
    places: &'t Places,
) -> ConfiguredTexts<'t>
    ensures file { result.file.now ≡ file.entry.now }
    ensures filtersets { result.filtersets.now ≡ filtersets.entry.now }
    ensures places { result.places.now ≡ places.entry.now }
{
    ConfiguredTexts {
        file,
        filtersets,
        places,
    }
}

/// Returns the place of the filterset at a position of a configuration, if it was found.
pub(crate) fn place_at<'t>(
    configured: ConfiguredTexts<'t>,
    position: usize,
) -> Option<FilePlace<'t>>
    ensures { option_map placement_of result ≡ placement_at configured.entry position }
{
    match configured.places.get(position) {
        Some(place) => Some(FilePlace {
            file: configured.file,
            spot: Spot::Literal(place),
        }),
        None => None,
    }
}

/// Makes an entry of a filterset of a configuration, called by its path.
fn configured_entry<'t>(
    alloc: Global,
    filterset: &'t ConfiguredFilterset,
    place: Option<FilePlace<'t>>,
) -> Result<TextEntry<'t>, AllocError>
    ensures { IfOk result (λ entry.
        text_row entry ≡ file_row (option_map placement_of place.entry) filterset.entry.now) }
{
    Ok(TextEntry {
        origin: String::from_str(alloc, filterset.path.as_str())?,
        kind: match filterset.key {
            FilterKey::DefaultFilter => FiltersetKind::DefaultFilter,
            FilterKey::Filter => FiltersetKind::OverrideFilter,
        },
        text: filterset.text.as_str(),
        place,
    })
}

/// Makes an entry of each filterset of a configuration.
pub fn configured_entries<'t>(
    alloc: Global,
    configured: ConfiguredTexts<'t>,
) -> Result<Vec<TextEntry<'t>>, AllocError>
    ensures { IfOk result (λ entries. map text_row entries.items ≡ rows_in configured.entry) }
{
    let mut entries = Vec::with_capacity(alloc, configured.filtersets.len())?;
    for (i, filterset) in configured.filtersets.iter().enumerate() {
        let place = place_at(configured, i);
        entries.push(configured_entry(alloc, filterset, place)?)?;
    }
    Ok(entries)
}

/// Makes an entry of each filterset of a question.
pub fn question_entries<'t>(
    alloc: Global,
    question: &Question<'t>,
) -> Result<Vec<TextEntry<'t>>, AllocError>
    ensures { IfOk result (λ entries. map text_row entries.items ≡ question_rows question.now) }
{
    match question {
        Question::List { filters, .. } | Question::Overrides { filters } => {
            given_entries(alloc, "-E", FiltersetKind::Test, filters)
        }
        Question::Compare { first, second, .. } => {
            let mut entries = Vec::with_capacity(alloc, 2)?;
            entries.push(entry_of(alloc, "A", FiltersetKind::Test, first)?)?;
            entries.push(entry_of(alloc, "B", FiltersetKind::Test, second)?)?;
            Ok(entries)
        }
    }
}

/// Makes the entry of a default filter of the command line.
///
/// Returns an error only if out of memory.
pub fn default_entry(alloc: Global, text: &str) -> Result<TextEntry<'_>, AllocError>
    ensures { IfOk result (λ entry. text_row entry ≡ default_row text.now) }
{
    entry_of(
        alloc,
        "--default-filter",
        FiltersetKind::DefaultFilter,
        text,
    )
}

//! What documents hold.
ghost use Rattle.std.specs.Prelude.{◌≡◌, IfErr, IfOk, IfSome, List, false, map};
ghost use Rattle.toml.specs.View.{view};
ghost use Rattle.filterset_entries.specs.Checked.{TextRow, text_row};
ghost use Rattle.filterset_sources.specs.Configurations.{IsFile, RefusesConfiguration};
ghost use Rattle.filterset_documents.specs.Contents.{AreRowsOf, Holds, content_row, names_in};
ghost use Rattle.filterset_documents.specs.Filtersets.{SaysWhy};

use filterset_configuration::Places;
use filterset_display::Source;
use filterset_entries::{TextEntry, configured_entries, configured_texts, line_entries};
use filterset_sources::{ConfiguredFilterset, SourceRefusal, read_configuration};
use nextest_filtering::FiltersetKind;
use std::alloc::{AllocError, Global};
use toml::Value;

/// The filtersets of a document: the lines of a file, or those of a configuration with their places in its file.
#[derive(Debug, Drop)]
pub enum Filtersets<'t> {
    Lines(Source<'t>),
    Configured(Source<'t>, Vec<ConfiguredFilterset>, Places),
}

impl Filtersets<'_> {
    /// Makes the entries of the filtersets.
    pub fn entries(&self, alloc: Global) -> Result<Vec<TextEntry<'_>>, AllocError>
        ensures { IfOk result (λ entries. AreRowsOf self.entry.now (map text_row entries.items)) }
    {
        match self {
            Filtersets::Lines(file) => line_entries(alloc, file, FiltersetKind::Test, true),
            Filtersets::Configured(file, filtersets, places) => {
                let configured = configured_texts(file, filtersets.as_slice(), places);
                configured_entries(alloc, configured)
            }
        }
    }
}

/// What a configuration has beside its filtersets: the names of its test groups, and what its text was parsed as.
#[derive(Debug, Drop)]
pub struct Rest {
    pub groups: Vec<String>,
    pub file: Value,
}

/// A document that was read: its filtersets, and the rest of a configuration.
#[derive(Debug, Drop)]
pub struct OpenDocument<'t> {
    pub filtersets: Filtersets<'t>,
    pub rest: Option<Rest>,
}

impl<'t> OpenDocument<'t> {
    /// Reads a text: a list of filtersets of tests, one a line, or nextest's configuration. Returns an error if it has to be
    /// a configuration and is none, or if out of memory.
    pub fn read(
        alloc: Global,
        text: &'t str,
        is_list: bool,
    ) -> Result<OpenDocument<'t>, SourceRefusal>
        ensures read { IfOk result (λ document. (rows : List TextRow) → AreRowsOf document.filtersets rows
            → Holds is_list text.entry.now (record { groups = names_in document.rest; rows = rows })) }
        ensures parsed { IfOk result (λ document. IfSome document.rest (λ r. IsFile text.entry.now (view r.file))) }
        ensures refused { IfErr result (RefusesConfiguration text.entry.now) }
        ensures configuration { IfErr result (λ refusal. SaysWhy refusal → is_list ≡ false) }
    {
        let file = Source::new(alloc, "", text)?;
        if is_list {
            return Ok(OpenDocument {
                filtersets: Filtersets::Lines(file),
                rest: None,
            });
        }
        let configuration = read_configuration(alloc, text)?;
        let places = Places::of(alloc, text, &configuration)?;
        Ok(OpenDocument {
            filtersets: Filtersets::Configured(file, configuration.filtersets, places),
            rest: Some(Rest {
                groups: configuration.groups,
                file: configuration.file,
            }),
        })
    }

    /// Returns what the document holds, of which these are the entries.
    pub fn content<'g, 'e>(&'g self, entries: &'e [TextEntry<'_>]) -> Content<'g, 'e>
        ensures { content_row result
            ≡ record { groups = names_in self.entry.now.rest; rows = map text_row entries.entry.now } }
    {
        let groups = match &self.rest {
            Some(rest) => Some(rest.groups.as_slice()),
            None => None,
        };
        Content { groups, entries }
    }
}

/// What a document holds: its filtersets, and the names of the test groups of a configuration. Without these, each line is a
/// filterset.
#[derive(Clone, Copy, Debug)]
pub struct Content<'g, 'e> {
    pub groups: Option<&'g [String]>,
    pub entries: &'e [TextEntry<'e>],
}

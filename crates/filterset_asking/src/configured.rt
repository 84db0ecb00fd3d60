//! The warnings of a configuration's file: what nextest does not read of it.
ghost use Rattle.std.specs.Prelude.{IfOk, string_bytes};
ghost use Rattle.toml.specs.View.{view};
ghost use Rattle.filterset_sources.specs.Configurations.{IsFile};
ghost use Rattle.filterset_asking.specs.Configured.{WarnsOfFile};

use filterset_configuration::Stretch;
use filterset_display::Form;
use filterset_entries::{
    ConfiguredTexts, FilePlace, RemarkWriter, Spot, configured_entries, unread_remarks,
};
use filterset_sources::ParsedText;
use std::alloc::{AllocError, Global};
use toml::Value;

/// The filtersets of a configuration with their file, and what its text was parsed as.
#[derive(Clone, Copy)]
pub struct CheckedFile<'c> {
    pub texts: ConfiguredTexts<'c>,
    pub file: &'c Value,
    ghost is_file: { IsFile texts.file.now.text.now (view file.now) },
}

/// The warnings of a configuration's file, and how many there are.
#[derive(Drop)]
pub struct FileWarnings {
    pub text: String,
    pub count: usize,
}

/// Writes what nextest does not read of a configuration.
pub fn warn_configuration(
    alloc: Global,
    form: Form,
    configured: CheckedFile<'_>,
) -> Result<FileWarnings, AllocError>
    ensures { IfOk result (λ warnings.
        WarnsOfFile form configured.entry.texts warnings.count (string_bytes warnings.text)) }
{
    let source = configured.texts.file;
    let entries = configured_entries(alloc, configured.texts)?;
    let (text, file) = (source.text, configured.file);
    let parsed = ParsedText { text, file };
    let remarks = unread_remarks(alloc, parsed, entries.as_slice())?;
    let whole = Stretch {
        from: 0,
        to: source.text.len(),
    };
    let writer = RemarkWriter {
        form,
        source,
        place: Some(FilePlace {
            file: source,
            spot: Spot::Line(whole),
        }),
        number: None,
    };
    let mut text = String::new(alloc);
    writer.push_all(&mut text, alloc, remarks.as_slice())?;
    let count = remarks.len();
    Ok(FileWarnings { text, count })
}

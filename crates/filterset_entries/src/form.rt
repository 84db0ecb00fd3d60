//! How remarks are written.
ghost use Rattle.std.specs.Prelude.{◌≡◌, ◌++◌, OnOk, codes, map, option_map, string_bytes};
ghost use Rattle.serde_json.specs.{Data.Data, Written.compact_text};
ghost use Rattle.filterset_display.specs.{Columns.Text, Json.RemarkData, Remarks.remark_row};
ghost use Rattle.filterset_json.specs.Pieces.{Pieces};
ghost use Rattle.filterset_entries.specs.Checked.{text_row};
ghost use Rattle.filterset_entries.specs.Forms.{FaultPieces, IsWritten, name_of, note_of, writing_of};

use crate::place::{FilePlace, Spot, file_part};
use crate::text::TextEntry;
use filterset_display::{
    Canvas, FileSpan, Form, Remark, Source, draw_remark, push_annotation, remark_json,
};
use std::alloc::{AllocError, Global};

/// Writes remarks on a text.
#[derive(Clone, Copy)]
pub struct RemarkWriter<'t> {
    pub form: Form,
    pub source: &'t Source<'t>,
    /// Where the text is in a file, if that is known.
    pub place: Option<FilePlace<'t>>,
    /// The number of the text, from 1. Other texts of a configuration have none, and their remarks name them.
    pub number: Option<usize>,
}

impl RemarkWriter<'_> {
    /// Returns the name of the text, unless its remarks name it.
    fn name(&self) -> Option<&str>
        ensures { option_map (λ n. n.now) result ≡ name_of (writing_of self.now) }
    {
        match self.number {
            Some(_) => Some(self.source.origin),
            None => None,
        }
    }

    /// Returns the name to note under a drawing in a file: that of a text that a string is read as. A line is drawn with
    /// its number.
    fn note(&self) -> Option<&str>
        ensures { option_map (λ n. n.now) result ≡ note_of (writing_of self.now) }
    {
        match &self.place {
            Some(
                FilePlace {
                    spot: Spot::Literal(_),
                    ..
                },
            ) => self.name(),
            _ => None,
        }
    }

    /// Writes a remark as a JSON object in a line.
    fn push_object(
        &self,
        output: &mut String,
        alloc: Global,
        part: Option<FileSpan<'_>>,
        remark: &Remark,
    ) -> Result<(), AllocError>
        ensures { let w = writing_of self.now in OnOk result ((d : Data)
            × RemarkData w.origin w.text part.entry w.number (remark_row remark.now) d
            × (string_bytes output.new ≡ string_bytes output.old ++ (compact_text d ++ codes "\n"))) }
    {
        let object = remark_json(alloc, self.source, self.number, remark, part)?;
        let line = object.to_string(alloc)?;
        output.push_str(line.as_str())?;
        output.push_str("\n")?;
        Ok(())
    }

    /// Writes a remark.
    pub fn push(
        &self,
        output: &mut String,
        alloc: Global,
        remark: &Remark,
    ) -> Result<(), AllocError>
        ensures { OnOk result ((piece : Text) × (string_bytes output.new ≡ string_bytes output.old ++ piece)
            × IsWritten (writing_of self.now) (remark_row remark.now) piece) }
    {
        let part = file_part(self.place, remark.span);
        match (self.form, part) {
            (Form::Drawn(color), Some(part)) => {
                let canvas = Canvas {
                    source: part.file,
                    span: Some(part.span),
                    name: self.note(),
                };
                draw_remark(output, alloc, color, canvas, remark)
            }
            (Form::Drawn(color), None) => {
                let canvas = Canvas {
                    source: self.source,
                    span: remark.span,
                    name: None,
                };
                draw_remark(output, alloc, color, canvas, remark)
            }
            (Form::Json, _) => self.push_object(output, alloc, part, remark),
            (Form::Github, _) => push_annotation(output, alloc, part, self.name(), remark),
        }
    }

    /// Writes remarks, one after the other.
    pub fn push_all(
        &self,
        output: &mut String,
        alloc: Global,
        remarks: &[Remark],
    ) -> Result<(), AllocError>
        ensures { OnOk result ((piece : Text) × (string_bytes output.new ≡ string_bytes output.old ++ piece)
            × Pieces (IsWritten (writing_of self.now)) (map remark_row remarks.now) piece) }
    {
        for remark in remarks {
            self.push(output, alloc, remark)?;
        }
        Ok(())
    }
}

/// Writes the remarks on the faults of the text with this number.
pub fn push_faults(
    output: &mut String,
    alloc: Global,
    form: Form,
    entry: &TextEntry<'_>,
    number: usize,
    remarks: &[Remark],
) -> Result<(), AllocError>
    ensures { OnOk result ((piece : Text) × (string_bytes output.new ≡ string_bytes output.old ++ piece)
        × FaultPieces form (text_row entry.now) number (map remark_row remarks.now) piece) }
{
    let source = Source::new(alloc, entry.origin.as_str(), entry.text)?;
    let writer = RemarkWriter {
        form,
        source: &source,
        place: entry.place,
        number: Some(number),
    };
    writer.push_all(output, alloc, remarks)
}

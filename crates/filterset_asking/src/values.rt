//! The wrong values of a configuration.
ghost use Rattle.std.specs.Prelude.{◌≡◌, ◌==◌, ◌++◌, IfOk, OnOk, if◌then◌else◌, length, option_map, string_bytes};
ghost use Rattle.filterset_entries.specs.{Placements.placement_of, declared.text.Ending.TheVariants.Faulty};
ghost use Rattle.filterset_display.specs.{Columns.Text, Remarks.remark_row};
ghost use Rattle.filterset_json.specs.Pieces.{Pieces};
ghost use Rattle.filterset_asking.specs.Values.{IsValuePiece, value_place, value_remark};

use filterset_configuration::WrongValue;
use filterset_display::{Form, Remark, Severity, Source};
use filterset_entries::{Answer, Ending, FilePlace, RemarkWriter, Spot};
use filterset_faults::SourceSpan;
use std::alloc::{AllocError, Global};

/// Returns where a value is in the file, if it was found.
fn value_place<'f>(file: &'f Source<'f>, value: &'f WrongValue) -> Option<FilePlace<'f>>
    ensures { option_map placement_of result ≡ value_place file.entry value.now }
{
    match &value.place {
        Some(place) => Some(FilePlace {
            file,
            spot: Spot::Literal(place),
        }),
        None => None,
    }
}

/// Returns what there is to say of a value. It is said of the whole value, if this was found.
fn value_remark(alloc: Global, value: &WrongValue) -> Result<Remark, AllocError>
    ensures { IfOk result (λ remark. remark_row remark ≡ value_remark value.now) }
{
    let (path, expected) = (value.path.as_str(), value.expected);
    let message = format!(in alloc; "`{path}` must be {expected}")?;
    let span = match &value.place {
        Some(_) => Some(SourceSpan::new(0, value.text.len())),
        None => None,
    };
    Ok(Remark {
        severity: Severity::Error,
        code: "InvalidValue",
        message,
        label: None,
        help: None,
        span,
    })
}

/// Writes the values of a file.
#[derive(Clone, Copy)]
struct ValueWriter<'f> {
    form: Form,
    file: &'f Source<'f>,
}

impl ValueWriter<'_> {
    /// Writes a value.
    fn push(&self, output: &mut String, alloc: Global, value: &WrongValue) -> Result<(), AllocError>
        ensures { OnOk result ((piece : Text) × (string_bytes output.new ≡ string_bytes output.old ++ piece)
            × IsValuePiece self.now.form self.now.file value.now piece) }
    {
        let source = Source::new(alloc, value.path.as_str(), value.text.as_str())?;
        let writer = RemarkWriter {
            form: self.form,
            source: &source,
            place: value_place(self.file, value),
            number: None,
        };
        writer.push(output, alloc, &value_remark(alloc, value)?)
    }
}

/// Puts the wrong values of a configuration before what is answered of its filtersets.
pub fn add_values<'f>(
    alloc: Global,
    form: Form,
    file: &'f Source<'f>,
    values: &[WrongValue],
    answer: Answer,
) -> Result<Answer, AllocError>
    ensures text { IfOk result (λ whole. (front : Text) × Pieces (IsValuePiece form file.entry) values.now front
        × (string_bytes whole.text ≡ front ++ string_bytes answer.text)) }
    ensures ending { IfOk result (λ whole. whole.ending ≡ (if length values.now == 0 then answer.ending else Faulty)) }
{
    let mut text = String::new(alloc);
    let writer = ValueWriter { form, file };
    for value in values {
        writer.push(&mut text, alloc, value)?;
    }
    text.push_str(answer.text.as_str())?;
    let ending = if values.is_empty() {
        answer.ending
    } else {
        Ending::Faulty
    };
    Ok(Answer { text, ending })
}

//! Remarks drawn under a text.
ghost use Rattle.std.specs.Prelude.{◌≡◌, ◌++◌, IfOk, OnOk, map, option_map, string_bytes};
ghost use Rattle.filterset_display.specs.Columns.{Text};
ghost use Rattle.filterset_display.specs.Drawings.{Drawing, DrawnSpan, addition_part, bar, caret_line, label_part, location_part, margin_line, margin_of, marked_lines, text_line, title};
ghost use Rattle.filterset_display.specs.{Cutting.line_row, Remarks.remark_row};

use crate::color::{BLUE, Color, PLAIN, RED, mark_of};
use crate::column::{push_drawn, push_repeated};
use crate::line::{Line, Stretch};
use crate::remark::Remark;
use crate::source::{Location, Source};
use filterset_faults::SourceSpan;
use std::alloc::{AllocError, Global};
use std::fmt::Write;

/// The margin left of a text: the columns of its line numbers, and its colour.
#[derive(Clone, Copy)]
struct Margin {
    width: usize,
    color: Color,
}

/// The text that a remark is drawn under, and at which span. If it is another text than that of the remark, such as the
/// file that this was read from, a note may say the name of the remark's text.
#[derive(Clone, Copy)]
pub struct Canvas<'c> {
    pub source: &'c Source<'c>,
    pub span: Option<SourceSpan>,
    pub name: Option<&'c str>,
}

/// Draws a remark under a text: its code and message, the location of the span, each line of the span with carets under
/// the characters of the span, its label after the last carets, a note, and its help. At the end is an empty line.
///
/// Returns an error only if out of memory.
pub fn draw_remark(
    drawing: &mut String,
    alloc: Global,
    color: Color,
    canvas: Canvas<'_>,
    remark: &Remark,
) -> Result<(), AllocError>
    ensures { let source = canvas.entry.source.now in OnOk result ((piece : Text)
        × (string_bytes drawing.new ≡ string_bytes drawing.old ++ piece)
        × Drawing color source.origin.now source.text.now canvas.entry.span (option_map (λ n. n.now) canvas.entry.name)
        (remark_row remark.now) piece) }
{
    let Canvas { source, span, name } = canvas;
    let margin = margin_of(alloc, color, source)?;
    push_title(drawing, color, remark)?;
    push_span(drawing, alloc, margin, source, span)?;
    push_label(drawing, color, remark.label.as_deref())?;
    push_addition(drawing, margin, "note: in ", name)?;
    push_addition(drawing, margin, "help: ", remark.help.as_deref())?;
    drawing.push_str("\n\n")
}

/// Returns the margin of a text. Its last line has the longest number.
fn margin_of(alloc: Global, color: Color, source: &Source<'_>) -> Result<Margin, AllocError>
    ensures { IfOk result (λ margin. margin ≡ margin_of color source.now.text.now) }
{
    let count = source.lines.len();
    let width = format!(in alloc; "{count}")?.len();
    Ok(Margin { width, color })
}

/// Writes the code and the message of a remark, on one line.
fn push_title(drawing: &mut String, color: Color, remark: &Remark) -> Result<(), AllocError>
    ensures { OnOk result (string_bytes drawing.new
        ≡ string_bytes drawing.old ++ title color (remark_row remark.now)) }
{
    let (mark, plain) = (color.paint(mark_of(remark.severity)), color.paint(PLAIN));
    let (word, code) = (remark.severity.word(), remark.code);
    write!(drawing, "{mark}{word}{plain}: {code}: ")?;
    push_drawn(drawing, remark.message.as_str())
}

/// Begins a line, with blanks in place of a line number.
fn push_margin(drawing: &mut String, margin: Margin) -> Result<(), AllocError>
    ensures { OnOk result (string_bytes drawing.new ≡ string_bytes drawing.old ++ margin_line margin) }
{
    drawing.push_str("\n")?;
    push_repeated(drawing, ' ', margin.width)?;
    drawing.push_str(margin.color.paint(BLUE))
}

/// Writes the location where a span begins.
fn push_location(
    drawing: &mut String,
    margin: Margin,
    source: &Source<'_>,
    location: Location,
) -> Result<(), AllocError>
    ensures { OnOk result (string_bytes drawing.new
        ≡ string_bytes drawing.old ++ location_part margin source.now.origin.now location) }
{
    let (line, column, plain) = (location.line, location.column, margin.color.paint(PLAIN));
    push_margin(drawing, margin)?;
    write!(drawing, "-->{plain} ")?;
    push_drawn(drawing, source.origin)?;
    write!(drawing, ":{line}:{column}")
}

/// Begins a line without text, with a bar.
fn push_bar(drawing: &mut String, margin: Margin) -> Result<(), AllocError>
    ensures { OnOk result (string_bytes drawing.new ≡ string_bytes drawing.old ++ bar margin) }
{
    push_margin(drawing, margin)?;
    let plain = margin.color.paint(PLAIN);
    write!(drawing, " |{plain}")
}

/// Writes the location where a span begins, and its lines.
fn push_span(
    drawing: &mut String,
    alloc: Global,
    margin: Margin,
    source: &Source<'_>,
    span: Option<SourceSpan>,
) -> Result<(), AllocError>
    ensures { let source = source.now in OnOk result ((part : Text)
        × (string_bytes drawing.new ≡ string_bytes drawing.old ++ part)
        × DrawnSpan margin source.origin.now source.text.now span part) }
{
    let Some(span) = span else {
        return Ok(());
    };
    push_location(drawing, margin, source, source.location(span))?;
    push_bar(drawing, margin)?;
    let stretch = source.stretch(span);
    push_lines(drawing, alloc, margin, source.met_lines(stretch), stretch)
}

/// Writes lines of the text, each with the carets of a stretch.
fn push_lines(
    drawing: &mut String,
    alloc: Global,
    margin: Margin,
    lines: &[Line<'_>],
    stretch: Stretch,
) -> Result<(), AllocError>
    ensures { OnOk result (string_bytes drawing.new
        ≡ string_bytes drawing.old ++ marked_lines margin stretch.from stretch.to (map line_row lines.now)) }
{
    for line in lines {
        push_text(drawing, alloc, margin, line)?;
        push_marks(drawing, margin, line, stretch)?;
    }
    Ok(())
}

/// Writes a line of the text, after its number.
fn push_text(
    drawing: &mut String,
    alloc: Global,
    margin: Margin,
    line: &Line<'_>,
) -> Result<(), AllocError>
    ensures { OnOk result (string_bytes drawing.new ≡ string_bytes drawing.old ++ text_line margin (line_row line.now)) }
{
    let (blue, plain, number) = (
        margin.color.paint(BLUE),
        margin.color.paint(PLAIN),
        line.number,
    );
    let number = format!(in alloc; "{number}")?;
    let number = number.as_str();
    drawing.push_str("\n")?;
    push_repeated(drawing, ' ', margin.width.saturating_sub(number.len()))?;
    write!(drawing, "{blue}{number} |{plain} ")?;
    push_drawn(drawing, line.text)
}

/// Writes the carets under a line of the text.
fn push_marks(
    drawing: &mut String,
    margin: Margin,
    line: &Line<'_>,
    stretch: Stretch,
) -> Result<(), AllocError>
    ensures { OnOk result (string_bytes drawing.new
        ≡ string_bytes drawing.old ++ caret_line margin stretch.from stretch.to (line_row line.now)) }
{
    push_bar(drawing, margin)?;
    drawing.push_str(" ")?;
    push_repeated(drawing, ' ', line.column(stretch.from))?;
    drawing.push_str(margin.color.paint(RED))?;
    push_repeated(drawing, '^', line.caret_count(stretch))?;
    drawing.push_str(margin.color.paint(PLAIN))
}

/// Writes a label after the carets.
fn push_label(drawing: &mut String, color: Color, label: Option<&str>) -> Result<(), AllocError>
    ensures { OnOk result (string_bytes drawing.new
        ≡ string_bytes drawing.old ++ label_part color (option_map (λ l. l.now) label.entry)) }
{
    let Some(label) = label else {
        return Ok(());
    };
    drawing.push_str(" ")?;
    drawing.push_str(color.paint(RED))?;
    push_drawn(drawing, label)?;
    drawing.push_str(color.paint(PLAIN))
}

/// Writes a line below those of the text, which begins so.
fn push_addition(
    drawing: &mut String,
    margin: Margin,
    begin: &str,
    addition: Option<&str>,
) -> Result<(), AllocError>
    ensures { OnOk result (string_bytes drawing.new
        ≡ string_bytes drawing.old ++ addition_part margin begin.now (option_map (λ a. a.now) addition.entry)) }
{
    let Some(addition) = addition else {
        return Ok(());
    };
    let plain = margin.color.paint(PLAIN);
    push_margin(drawing, margin)?;
    write!(drawing, " ={plain} {begin}")?;
    push_drawn(drawing, addition)
}

//! Faults that no program reports: spans past the end of the text, none, and texts with line feeds.
use filterset_display::{Canvas, Color, Remark, Source, draw_remark, remark_json};
use filterset_faults::{ParseSingleError, SourceSpan};
use std::alloc::{AllocError, Global};
use std::test::Fail;

/// Draws a fault under the text of a source.
fn draw_under(
    alloc: Global,
    source: &Source<'_>,
    fault: &ParseSingleError,
) -> Result<String, AllocError> {
    let canvas = Canvas {
        source,
        span: fault.span(),
        name: None,
    };
    let remark = Remark::of_fault(alloc, fault)?;
    let mut drawing = String::new(alloc);
    draw_remark(&mut drawing, alloc, Color::Never, canvas, &remark)?;
    Ok(drawing)
}

#[test]
fn draws_faults_of_no_text(rt: HostRuntime) -> Result<(), Fail> {
    let source = Source::new(rt.alloc(), "here", "all()")?;
    for (fault, wanted) in [
        (
            ParseSingleError::ExpectedEndOfExpression(SourceSpan::new(3, 9)),
            "error: ExpectedEndOfExpression: expected end of expression
 --> here:1:4
  |
1 | all()
  |    ^^ unparsed input

",
        ),
        (
            ParseSingleError::UnsupportedExpression(SourceSpan::new(9, 9)),
            "error: UnsupportedExpression: unsupported expression
 --> here:1:6
  |
1 | all()
  |      ^ contained an unsupported expression

",
        ),
        (
            ParseSingleError::ExprFoundUnaryOp {
                span: SourceSpan::new(0, 3),
                op: "a\nb",
                suggest: "c\r\td",
            },
            "error: ExprFoundUnaryOp: expected expression, found `a\u{fffd}b`
 --> here:1:1
  |
1 | all()
  | ^^^ `a\u{fffd}b` is not a recognized operator
  = help: use `c  d <expr>` instead

",
        ),
        (
            ParseSingleError::Unknown,
            "error: Unknown: unknown parsing error\n\n",
        ),
    ] {
        let drawing = draw_under(rt.alloc(), &source, &fault)?;
        assert!(rt; drawing.as_str() == wanted, "{drawing}");
    }
    let source = Source::new(rt.alloc(), "here", "x")?;
    let remark = Remark::of_fault(rt.alloc(), &ParseSingleError::Unknown)?;
    let json = remark_json(rt.alloc(), &source, Some(7), &remark, None)?;
    let json = json.to_string(rt.alloc())?;
    let wanted =
        "{\"code\":\"Unknown\",\"column\":null,\"file\":null,\"file_column\":null,\"file_length\":null,\
        \"file_line\":null,\"file_offset\":null,\"help\":null,\"label\":null,\"length\":null,\"line\":null,\
        \"message\":\"unknown parsing error\",\"offset\":null,\"origin\":\"here\",\"severity\":\"error\",\"text\":7}";
    assert!(rt; json.as_str() == wanted, "{json}");
    Ok(())
}

//! The colours of drawings.
ghost use Rattle.std.specs.Prelude.{◌≡◌};
ghost use Rattle.filterset_display.specs.Color.{mark_of, painted};

use crate::remark::Severity;

/// The sequence that begins red, the colour of errors, carets and labels.
pub const RED: &str = "\u{1b}[1;31m";

/// The sequence that begins yellow, the colour of warnings.
const YELLOW: &str = "\u{1b}[1;33m";

/// The sequence that begins blue, the colour of the margin.
pub const BLUE: &str = "\u{1b}[1;34m";

/// The sequence that ends a colour.
pub const PLAIN: &str = "\u{1b}[0m";

/// Whether drawings have colours.
#[derive(Clone, Copy, Debug, PartialEq, Eq)]
pub enum Color {
    /// No colours.
    Never,
    /// Colours, by the escape sequences of terminals.
    Always,
}

impl Color {
    /// Returns a sequence if drawings have colours, and otherwise nothing.
    pub fn paint(self, sequence: &'static str) -> &'static str
        ensures { result.now ≡ painted self sequence.now }
    {
        match self {
            Color::Never => "",
            Color::Always => sequence,
        }
    }
}

/// Returns the sequence that begins the colour of remarks.
pub fn mark_of(severity: Severity) -> &'static str
    ensures { result.now ≡ mark_of severity }
{
    match severity {
        Severity::Error => RED,
        Severity::Warning => YELLOW,
    }
}

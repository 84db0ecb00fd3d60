//! Faults of filterset texts: one fault, its code, span, label and help.
ghost use Rattle.std.specs.Prelude.{◌≡◌, Ok, Some, None, option_map};
ghost use Rattle.filterset_faults.specs.{Equality.held_of, EqualityLaws.held_as};
ghost use Rattle.filterset_faults.specs.Faults.{code_of, span_of, label_of, help_of};
ghost use Rattle.filterset_faults.specs.Label.{label_text, help_text};

use crate::kind::{BannedPredicateReason, FiltersetKind};
use crate::span::SourceSpan;
use crate::text::{Help, Label};
use filterset_glob::GlobConstructError;
use std::alloc::{AllocError, Global};
use std::error::Error;
use std::fmt;

/// A fault of a filterset text. Every variant but `Unknown` has the span of the text that it is about. Displays as a
/// message.
#[derive(Clone, Copy, Debug)]
pub enum ParseSingleError {
    /// The text of a glob matcher is not a glob.
    InvalidGlob {
        span: SourceSpan,
        error: GlobConstructError,
    },
    /// A predicate is banned from filtersets of this kind.
    BannedPredicate {
        span: SourceSpan,
        kind: FiltersetKind,
        reason: BannedPredicateReason,
    },
    /// `regex` rejected a pattern, for a reason other than out of memory.
    InvalidRegexWithoutMessage(SourceSpan),
    /// A regular expression has no closing `/`.
    ExpectedCloseRegex(SourceSpan),
    /// `||` or `OR` stands for an operator.
    InvalidOrOperator(SourceSpan),
    /// `&&` or `AND` stands for an operator.
    InvalidAndOperator(SourceSpan),
    /// A predicate that takes no argument has one.
    UnexpectedArgument(SourceSpan),
    /// A predicate has a second argument.
    UnexpectedComma(SourceSpan),
    /// The text of a matcher is empty.
    InvalidString(SourceSpan),
    /// A predicate has no `(`.
    ExpectedOpenParenthesis(SourceSpan),
    /// A `(` has no `)`.
    ExpectedCloseParenthesis(SourceSpan),
    /// A backslash begins no escape.
    InvalidEscapeCharacter(SourceSpan),
    /// An operand is missing.
    ExpectedExpr(SourceSpan),
    /// A binary operator is where an operand belongs. `op` is its text, `suggest` the operator to write.
    ExprFoundBinaryOp {
        span: SourceSpan,
        op: &'static str,
        suggest: &'static str,
    },
    /// `NOT` is where an operand belongs. `op` is its text, `suggest` the operator to write.
    ExprFoundUnaryOp {
        span: SourceSpan,
        op: &'static str,
        suggest: &'static str,
    },
    /// Text follows the expression.
    ExpectedEndOfExpression(SourceSpan),
    /// A matcher matches no package of the workspace.
    NoPackageMatch(SourceSpan),
    /// A matcher matches no test group.
    NoGroupMatch(SourceSpan),
    /// A matcher matches no id of a test binary.
    NoBinaryIdMatch(SourceSpan),
    /// A matcher matches no name of a test binary.
    NoBinaryNameMatch(SourceSpan),
    /// The argument of `platform` is neither `host` nor `target`.
    InvalidPlatformArgument(SourceSpan),
    /// A predicate cannot be compiled. Never reported: every predicate can be.
    UnsupportedExpression(SourceSpan),
    /// Never reported.
    Unknown,
}

/// The fields of a fault, beside its span.
#[derive(Clone, Copy, PartialEq, Eq)]
enum Details<'f> {
    None,
    Glob(&'f GlobConstructError),
    Ban(FiltersetKind, BannedPredicateReason),
    Operators(&'f str, &'f str),
}

/// What `code`, `label` and `help` return for a fault.
#[derive(Clone, Copy)]
struct Row<'f> {
    code: &'static str,
    label: Option<Label<'f>>,
    help: Option<Help>,
}

impl<'f> Row<'f> {
    /// Returns the row of a fault whose label is a constant, and that has no help.
    fn fixed(code: &'static str, label: &'static str) -> Row<'f>
        ensures code { result.code.now ≡ code.now }
        ensures label { option_map label_text result.label ≡ Some label.now }
        ensures help { result.help ≡ None }
    {
        Row {
            code,
            label: Some(Label::Text(label)),
            help: None,
        }
    }
}

/// Writes the message.
impl fmt::Display for ParseSingleError {
    ghost use Rattle.filterset_faults.specs.Faults.{message_of};

    ghost output = { λ fault. Some (message_of fault) };

    fn fmt<W: fmt::Write>(&self, f: &mut fmt::Formatter<W>) -> fmt::Result {
        match self {
            Self::InvalidGlob { .. } => f.write_str("invalid glob"),
            Self::BannedPredicate { kind, .. } => {
                write!(f, "predicate not allowed in `{kind}` expressions")
            }
            Self::InvalidRegexWithoutMessage(_) => f.write_str("invalid regex"),
            Self::ExpectedCloseRegex(_) => f.write_str("expected close regex"),
            Self::InvalidOrOperator(_) => f.write_str("invalid OR operator"),
            Self::InvalidAndOperator(_) => f.write_str("invalid AND operator"),
            Self::UnexpectedArgument(_) => f.write_str("unexpected argument"),
            Self::UnexpectedComma(_) => f.write_str("unexpected comma"),
            Self::InvalidString(_) => f.write_str("invalid string"),
            Self::ExpectedOpenParenthesis(_) => f.write_str("expected open parenthesis"),
            Self::ExpectedCloseParenthesis(_) => f.write_str("expected close parenthesis"),
            Self::InvalidEscapeCharacter(_) => f.write_str("invalid escape character"),
            Self::ExpectedExpr(_) => f.write_str("expected expression"),
            Self::ExprFoundBinaryOp { op, .. } | Self::ExprFoundUnaryOp { op, .. } => {
                write!(f, "expected expression, found `{op}`")
            }
            Self::ExpectedEndOfExpression(_) => f.write_str("expected end of expression"),
            Self::NoPackageMatch(_) => f.write_str("operator didn't match any packages"),
            Self::NoGroupMatch(_) => f.write_str("operator didn't match any test groups"),
            Self::NoBinaryIdMatch(_) => f.write_str("operator didn't match any binary IDs"),
            Self::NoBinaryNameMatch(_) => f.write_str("operator didn't match any binary names"),
            Self::InvalidPlatformArgument(_) => f.write_str("invalid argument for platform"),
            Self::UnsupportedExpression(_) => f.write_str("unsupported expression"),
            Self::Unknown => f.write_str("unknown parsing error"),
        }
    }
}

impl Error for ParseSingleError {}

/// Compares the variants, by their codes, and all fields.
impl PartialEq for ParseSingleError {
    ghost use Rattle.std.specs.Cmp.{partial_equiv_from_equiv};
    ghost use Rattle.filterset_faults.specs.{Equality.same_fault, EqualityLaws.same_fault_equiv};

    ghost eq = { same_fault };

    ghost laws = { partial_equiv_from_equiv same_fault_equiv };

    fn eq(&self, other: &ParseSingleError) -> bool {
        self.code() == other.code()
            && self.span() == other.span()
            && self.details() == other.details()
    }
}

impl Eq for ParseSingleError {
    ghost use Rattle.filterset_faults.specs.EqualityLaws.{same_fault_equiv};

    ghost laws = { same_fault_equiv };
}

impl ParseSingleError {
    /// Returns the row of the fault in the table of codes, labels and help.
    fn row(&self) -> Row<'_>
        ensures code { result.code.now ≡ code_of self.now }
        ensures label { option_map label_text result.label ≡ label_of self.now }
        ensures help { option_map help_text result.help ≡ help_of self.now }
    {
        match self {
            Self::InvalidGlob { error, .. } => Row {
                code: "InvalidGlob",
                label: Some(Label::Glob(error)),
                help: None,
            },
            Self::BannedPredicate { reason, .. } => Row {
                code: "BannedPredicate",
                label: Some(Label::Reason(*reason)),
                help: None,
            },
            Self::InvalidRegexWithoutMessage(_) => Row::fixed(
                "InvalidRegexWithoutMessage",
                "invalid regex",
            ),
            Self::ExpectedCloseRegex(_) => Row::fixed("ExpectedCloseRegex", "missing `/`"),
            Self::InvalidOrOperator(_) => Row::fixed(
                "InvalidOrOperator",
                "expected `|`, `+`, or `or`",
            ),
            Self::InvalidAndOperator(_) => Row::fixed(
                "InvalidAndOperator",
                "expected `&` or `and`",
            ),
            Self::UnexpectedArgument(_) => Row::fixed(
                "UnexpectedArgument",
                "this set doesn't take an argument",
            ),
            Self::UnexpectedComma(_) => Row::fixed(
                "UnexpectedComma",
                "this set doesn't take multiple arguments",
            ),
            Self::InvalidString(_) => Row::fixed("InvalidString", "invalid string"),
            Self::ExpectedOpenParenthesis(_) => Row::fixed(
                "ExpectedOpenParenthesis",
                "missing `(`",
            ),
            Self::ExpectedCloseParenthesis(_) => Row::fixed(
                "ExpectedCloseParenthesis",
                "missing `)`",
            ),
            Self::InvalidEscapeCharacter(_) => Row::fixed(
                "InvalidEscapeCharacter",
                "invalid escape character",
            ),
            Self::ExpectedExpr(_) => Row::fixed("ExpectedExpr", "missing expression"),
            Self::ExprFoundBinaryOp { suggest, .. } => Row {
                code: "ExprFoundBinaryOp",
                label: Some(Label::BinaryOp(*suggest)),
                help: Some(Help::Infix(*suggest)),
            },
            Self::ExprFoundUnaryOp { op, suggest, .. } => Row {
                code: "ExprFoundUnaryOp",
                label: Some(Label::UnaryOp(*op)),
                help: Some(Help::Prefix(*suggest)),
            },
            Self::ExpectedEndOfExpression(_) => Row::fixed(
                "ExpectedEndOfExpression",
                "unparsed input",
            ),
            Self::NoPackageMatch(_) => Row::fixed("NoPackageMatch", "no packages matched this"),
            Self::NoGroupMatch(_) => Row::fixed("NoGroupMatch", "no test groups matched this"),
            Self::NoBinaryIdMatch(_) => Row::fixed("NoBinaryIdMatch", "no binary IDs matched this"),
            Self::NoBinaryNameMatch(_) => Row::fixed(
                "NoBinaryNameMatch",
                "no binary names matched this",
            ),
            Self::InvalidPlatformArgument(_) => Row::fixed(
                "InvalidPlatformArgument",
                "expected \"target\" or \"host\"",
            ),
            Self::UnsupportedExpression(_) => Row::fixed(
                "UnsupportedExpression",
                "contained an unsupported expression",
            ),
            Self::Unknown => Row {
                code: "Unknown",
                label: None,
                help: None,
            },
        }
    }

    /// Returns what the fault holds beside its span.
    fn details(&self) -> Details<'_>
        ensures { held_as result ≡ held_of self.now }
    {
        match self {
            Self::InvalidGlob { error, .. } => Details::Glob(error),
            Self::BannedPredicate { kind, reason, .. } => Details::Ban(*kind, *reason),
            Self::ExprFoundBinaryOp { op, suggest, .. }
            | Self::ExprFoundUnaryOp { op, suggest, .. } => Details::Operators(*op, *suggest),
            _ => Details::None,
        }
    }

    /// Returns the name of the variant, by which programs tell faults apart.
    pub fn code(&self) -> &'static str
        ensures { result.now ≡ code_of self.now }
    {
        self.row().code
    }

    /// Returns the span, in bytes of the text. Only `Unknown` has none.
    pub fn span(&self) -> Option<SourceSpan>
        ensures { result ≡ span_of self.now }
    {
        match self {
            Self::InvalidGlob { span, .. }
            | Self::BannedPredicate { span, .. }
            | Self::InvalidRegexWithoutMessage(span)
            | Self::ExpectedCloseRegex(span)
            | Self::InvalidOrOperator(span)
            | Self::InvalidAndOperator(span)
            | Self::UnexpectedArgument(span)
            | Self::UnexpectedComma(span)
            | Self::InvalidString(span)
            | Self::ExpectedOpenParenthesis(span)
            | Self::ExpectedCloseParenthesis(span)
            | Self::InvalidEscapeCharacter(span)
            | Self::ExpectedExpr(span)
            | Self::ExprFoundBinaryOp { span, .. }
            | Self::ExprFoundUnaryOp { span, .. }
            | Self::ExpectedEndOfExpression(span)
            | Self::NoPackageMatch(span)
            | Self::NoGroupMatch(span)
            | Self::NoBinaryIdMatch(span)
            | Self::NoBinaryNameMatch(span)
            | Self::InvalidPlatformArgument(span)
            | Self::UnsupportedExpression(span) => Some(*span),
            Self::Unknown => None,
        }
    }

    /// Returns the text to write beside the span. Only `Unknown` has none.
    pub fn label(&self) -> Option<Label<'_>>
        ensures { option_map label_text result ≡ label_of self.now }
    {
        self.row().label
    }

    /// Returns how to write what a misplaced operator means. Other faults have no help.
    pub fn help(&self) -> Option<Help>
        ensures { option_map help_text result ≡ help_of self.now }
    {
        self.row().help
    }

    /// Copies the fault. A fault owns no memory, so this always succeeds.
    pub fn try_clone(&self, _alloc: Global) -> Result<ParseSingleError, AllocError>
        ensures { result ≡ Ok self.now }
    {
        Ok(*self)
    }
}

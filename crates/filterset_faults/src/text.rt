//! Labels and help texts of faults.
use crate::kind::BannedPredicateReason;
use filterset_glob::GlobConstructError;
use std::fmt;

/// The text to write beside the span of a fault. Displays as that text.
#[derive(Clone, Copy, Debug)]
pub enum Label<'a> {
    /// A constant.
    Text(&'static str),
    /// The fault of a glob.
    Glob(&'a GlobConstructError),
    /// The reason for a ban.
    Reason(BannedPredicateReason),
    /// The binary operator to write.
    BinaryOp(&'static str),
    /// A word that is no operator.
    UnaryOp(&'static str),
}

impl fmt::Display for Label<'_> {
    ghost use Rattle.std.specs.Prelude.{Some};
    ghost use Rattle.filterset_faults.specs.Label.{label_text};

    ghost output = { λ label. Some (label_text label) };

    fn fmt<W: fmt::Write>(&self, f: &mut fmt::Formatter<W>) -> fmt::Result {
        match self {
            Label::Text(text) => f.write_str(text),
            Label::Glob(fault) => write!(f, "{fault}"),
            Label::Reason(reason) => write!(f, "{reason}"),
            Label::BinaryOp(suggest) => write!(f, "`{suggest}` is a binary operator"),
            Label::UnaryOp(op) => write!(f, "`{op}` is not a recognized operator"),
        }
    }
}

/// How to write what a misplaced operator means. Displays as a sentence.
#[derive(Clone, Copy, Debug)]
pub enum Help {
    /// Write this operator between two expressions.
    Infix(&'static str),
    /// Write this operator before an expression.
    Prefix(&'static str),
}

impl fmt::Display for Help {
    ghost use Rattle.std.specs.Prelude.{Some};
    ghost use Rattle.filterset_faults.specs.Label.{help_text};

    ghost output = { λ help. Some (help_text help) };

    fn fmt<W: fmt::Write>(&self, f: &mut fmt::Formatter<W>) -> fmt::Result {
        match self {
            Help::Infix(suggest) => write!(f, "use `<expr> {suggest} <expr>` instead"),
            Help::Prefix(suggest) => write!(f, "use `{suggest} <expr>` instead"),
        }
    }
}

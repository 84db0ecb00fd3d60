//! The arguments of predicates.
use filterset_faults::SourceSpan;

/// How an argument is written.
#[derive(Clone, Copy, Debug, PartialEq, Eq)]
pub(crate) enum ArgumentForm {
    /// A regular expression between slashes.
    Regex,
    /// A text after a sign.
    Signed,
    /// A text.
    Plain,
    /// The name of a platform.
    Platform,
}

/// An argument of a predicate.
#[derive(Clone, Copy, Debug)]
pub(crate) struct Argument {
    pub span: SourceSpan,
    pub form: ArgumentForm,
}

//! Expressions of `cfg(..)`.

use crate::platforms::settings::Cfg;

/// An expression of `cfg(..)`.
#[derive(Debug, Drop)]
pub enum CfgExpr {
    /// Something that `rustc` sets.
    Value(Cfg),
    /// `true` or `false`.
    Literal(bool),
    /// `not(..)`.
    Not(Box<CfgExpr>),
    /// `all(..)`, which is true of no expression.
    All(Vec<CfgExpr>),
    /// `any(..)`, which is false of no expression.
    Any(Vec<CfgExpr>),
}

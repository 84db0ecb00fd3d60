//! Decides whether a platform of nextest's configuration applies: a target triple, or a `cfg(..)` expression.
mod evaluating;
mod expressions;
mod facts;
mod fault;
mod filter;
mod parsing;
mod settings;
mod specification;

pub use expressions::CfgExpr;
pub use facts::{PlatformFacts, read_cfg};
pub use fault::{CfgRefusal, Expected, PlatformFault, PlatformRefusal};
pub use filter::PlatformFilter;
pub use settings::Cfg;
pub use specification::PlatformSpec;

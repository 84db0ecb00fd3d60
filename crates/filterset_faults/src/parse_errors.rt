//! The faults of one filterset text, with the text.
ghost use Rattle.std.specs.Prelude.{◌≡◌, IfOk, string_bytes};

use crate::error::ParseSingleError;
use std::alloc::{AllocError, Global};

/// A rejected filterset text, and its faults in the order in which they were found.
#[derive(Debug, Drop)]
pub struct FiltersetParseErrors {
    /// The rejected text.
    pub input: String,
    /// The faults. Their spans count bytes of `input`.
    pub errors: Vec<ParseSingleError>,
}

impl FiltersetParseErrors {
    /// Copies the text and the faults. The only error is out of memory.
    pub fn try_clone(&self, alloc: Global) -> Result<FiltersetParseErrors, AllocError>
        ensures input { IfOk result (λ copy. string_bytes copy.input ≡ string_bytes self.now.input) }
        ensures errors { IfOk result (λ copy. copy.errors.items ≡ self.now.errors.items) }
    {
        let input = String::from_str(alloc, self.input.as_str())?;
        let mut errors = Vec::with_capacity(alloc, self.errors.len())?;
        for error in &self.errors {
            errors.push(error.try_clone(alloc)?)?;
        }
        Ok(FiltersetParseErrors { input, errors })
    }
}

//! The JSON of a file.
ghost use Rattle.std.specs.Prelude.{◌≡◌, Some, IfErr, IfOk};
ghost use Rattle.serde_json.specs.{Read.read, View.view};
ghost use Rattle.filterset_sources.specs.Refusals.{RefusesJson};

use crate::refusal::SourceRefusal;
use serde_json::Value;
use std::alloc::{AllocError, Global};

/// Parses a file as JSON.
pub fn read_json(alloc: Global, text: &str) -> Result<Value, SourceRefusal>
    ensures read { IfOk result (λ value. read text.now ≡ Some (view value)) }
    ensures refused { IfErr result (RefusesJson text.now) }
{
    match Value::from_str(alloc, text) {
        Ok(value) => Ok(value),
        Err(error) if error.is_memory() => Err(SourceRefusal::OutOfMemory(AllocError)),
        Err(error) => Err(SourceRefusal::NotJson(error)),
    }
}

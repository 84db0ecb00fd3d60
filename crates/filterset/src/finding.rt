//! Finds nextest's configuration, and files that were given as filtersets.
use filterset_loading::{CheckPaths, Request, Texts};
use std::alloc::AllocError;
use std::fs;

/// Where a workspace has its configuration.
const CONFIGURATION: &str = ".config/nextest.toml";

/// How many folders above this one may have the configuration.
const LEVELS: usize = 64;

/// Returns whether there is a file at a path.
fn is_file(rt: &HostRuntime, path: &str) -> bool {
    match fs::metadata(rt, path) {
        Ok(found) => found.is_file(),
        Err(_) => false,
    }
}

/// Finds the configuration of this folder, or of the nearest one above that has one. Without one the path is empty.
pub fn find_configuration(rt: &HostRuntime) -> Result<String, AllocError> {
    let mut path = String::from_str(rt.alloc(), CONFIGURATION)?;
    for _ in 0..LEVELS {
        if is_file(rt, path.as_str()) {
            return Ok(path);
        }
        path = format!(in rt.alloc(); "../{path}")?;
    }
    Ok(String::new(rt.alloc()))
}

/// Returns a request to check that names nothing as one to check the configuration at a path. Returns `None` for any other.
pub fn with_configuration<'w>(request: &Request<'w>, path: &'w str) -> Option<Request<'w>> {
    match request {
        Request::Check {
            kind,
            form,
            texts: Texts::Given([]),
            paths,
        } if paths.configuration.is_none() => Some(Request::Check {
            kind: *kind,
            form: *form,
            texts: Texts::Given(&[]),
            paths: CheckPaths {
                configuration: Some(path),
                ..*paths
            },
        }),
        _ => None,
    }
}

/// Returns the first filtersets of a request to check that is the path of a file.
pub fn path_in<'w>(rt: &HostRuntime, request: &Request<'w>) -> Option<&'w str> {
    let Request::Check {
        texts: Texts::Given(texts),
        ..
    } = request
    else {
        return None;
    };
    for text in *texts {
        if is_file(rt, text) {
            return Some(*text);
        }
    }
    None
}

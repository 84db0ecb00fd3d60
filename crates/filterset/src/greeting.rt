//! The workspace that an editor names in its `initializationOptions`.
ghost use Rattle.std.specs.Prelude.{◌≡◌, [], IfOk, None, option_map, string_bytes};
ghost use Rattle.serde_json.specs.{Find.get, View.view};
ghost use Rattle.filterset.specs.Serving as spec;
ghost use Rattle.filterset.specs.Serving.{Greets, GreetsFrom, IsRunFault, named_row, paths_in, paths_of, row_of};

use filterset_display::show_error;
use filterset_loading::{CommandFault, FileSource, Workspace, WorkspacePaths, read_workspace};
use filterset_sources::RunIgnored;
use serde_json::Value;
use std::alloc::{AllocError, Global};

/// The option with the path of what `cargo metadata` wrote.
const METADATA: &str = "cargoMetadata";

/// The option with the path of what `cargo nextest list` wrote.
const LIST: &str = "nextestList";

/// What is shown if not both are paths.
const WRONG: &str =
    "`initializationOptions` needs two paths for a workspace: `cargoMetadata` and `nextestList`";

/// What options say of a workspace.
#[derive(Clone, Copy)]
pub enum Named<'v> {
    Nothing,
    /// The paths of what `cargo metadata` wrote and of nextest's list.
    Paths(&'v str, &'v str),
    /// There are not both paths.
    Wrong,
}

/// The workspace that an editor names, and what is written before the session's answers.
#[derive(Drop)]
pub struct Greeting {
    pub workspace: Option<Workspace>,
    pub shown: String,
}

/// Returns whether options have a value other than null at a key.
fn is_given(options: &Value, key: &str) -> bool
    ensures { result ≡ spec.is_given (get key.now (view options.now)) }
{
    match options.get(key) {
        Some(Value::Null) => false,
        Some(_) => true,
        None => false,
    }
}

/// Returns the text at a key of options.
fn path_at<'v>(options: &'v Value, key: &str) -> Option<&'v str>
    ensures { option_map (λ t. t.now) result ≡ spec.path_at key.now (view options.entry.now) }
{
    options.get(key)?.as_str()
}

/// Returns what options say of a workspace.
fn named_in(options: &Value) -> Named<'_>
    ensures { named_row result ≡ paths_in (view options.entry.now) }
{
    match path_at(options, METADATA) {
        Some(metadata) => match path_at(options, LIST) {
            Some(list) => Named::Paths(metadata, list),
            None => Named::Wrong,
        },
        None if is_given(options, METADATA) || is_given(options, LIST) => Named::Wrong,
        None => Named::Nothing,
    }
}

/// Returns the greeting without a workspace, and with nothing to write.
fn silent(alloc: Global) -> Greeting
    ensures workspace { result.workspace ≡ None }
    ensures shown { string_bytes result.shown ≡ [] }
{
    Greeting {
        workspace: None,
        shown: String::new(alloc),
    }
}

/// Makes the greeting without a workspace, in which an error is shown.
fn complaint(alloc: Global, message: &str) -> Result<Greeting, AllocError>
    ensures { IfOk result (λ greeting. (greeting.workspace ≡ None) × spec.Shows (string_bytes greeting.shown)) }
{
    Ok(Greeting {
        workspace: None,
        shown: show_error(alloc, message)?,
    })
}

/// Shows why a file of a workspace is not used, or returns that memory is out.
fn complain(alloc: Global, fault: CommandFault) -> Result<Greeting, AllocError>
    ensures shown { IfOk result (λ greeting. (greeting.workspace ≡ None) × spec.Shows (string_bytes greeting.shown)
        × ¬ IsRunFault fault) }
{
    if let CommandFault::Run(_) = &fault {
        return Err(AllocError);
    }
    let message = fault.to_string(alloc)?;
    Ok(complaint(alloc, message.as_str())?)
}

/// Reads the workspace that the files at these paths describe, or shows why one is not used. Returns an error only if out of memory.
fn greet_from<F: FileSource>(
    alloc: Global,
    files: &F,
    paths: &WorkspacePaths<'_>,
) -> Result<Greeting, AllocError>
    ensures greeted { IfOk result (λ greeting. GreetsFrom (F.content files.now) (F.fails files.now) paths.now
        (option_map row_of greeting.workspace) (string_bytes greeting.shown)) }
{
    match read_workspace(alloc, files, paths) {
        Ok(workspace) => Ok(Greeting {
            workspace: Some(workspace),
            shown: String::new(alloc),
        }),
        Err(fault) => complain(alloc, fault),
    }
}

/// Makes the greeting of a session with these options. Returns an error only if out of memory.
pub fn greet<F: FileSource>(
    alloc: Global,
    files: &F,
    options: &Option<Value>,
) -> Result<Greeting, AllocError>
    ensures greeted { IfOk result (λ greeting. Greets (F.content files.now) (F.fails files.now)
        (paths_of (option_map view options.now)) (option_map row_of greeting.workspace) (string_bytes greeting.shown)) }
{
    let Some(options) = options else {
        return Ok(silent(alloc));
    };
    match named_in(options) {
        Named::Nothing => Ok(silent(alloc)),
        Named::Wrong => complaint(alloc, WRONG),
        Named::Paths(metadata, list) => {
            let paths = WorkspacePaths {
                metadata,
                list,
                run_ignored: RunIgnored::All,
            };
            greet_from(alloc, files, &paths)
        }
    }
}

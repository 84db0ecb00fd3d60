//! The command `lsp`: a language server over standard input and output.
ghost use Rattle.std.specs.Prelude.{◌≡◌, IfErr, IfOk, IsTrue, OnOk, Some, None, option_map};
ghost use Rattle.std.specs.Io.KnownBytes.{prepend_known};
ghost use Rattle.filterset_offers.specs.Workspaces.{known_of};
ghost use Rattle.filterset.specs.Serving.{IsServiceFault, IsStreamFault, Serves, ServesIn, row_of};
ghost use Rattle.filterset_loading.specs.Files.{OrMemory};

use crate::greeting::greet;
use crate::language::FiltersetLanguage;
use filterset_display::{Ending, read_opening, serve};
use filterset_json::{Sink, Source, write_all};
use filterset_loading::{CommandFault, FileSource, Workspace, WorkspacePaths, read_workspace};
use filterset_offers::Workspace as KnownWorkspace;
use std::alloc::Global;

/// Returns what an editor is told of a workspace, if there is one.
fn known(workspace: &Option<Workspace>) -> Option<KnownWorkspace<'_>>
    ensures { known_of result ≡ option_map row_of workspace.now }
{
    match workspace {
        Some(workspace) => Some(KnownWorkspace {
            graph: &workspace.graph,
            suites: workspace.list.suites.as_slice(),
        }),
        None => None,
    }
}

/// Serves an editor with what is known of a workspace, until its session ends. The opening was read of the input before.
fn serve_with<R: Source, W: Sink>(
    alloc: Global,
    workspace: Option<KnownWorkspace<'_>>,
    opening: &[u8],
    input: &mut R,
    output: &mut W,
) -> Result<Ending, CommandFault>
    ensures session { IfOk result (ServesIn (known_of workspace.entry) (prepend_known opening.now (R.left input.old)) (R.left input.new)
        (W.taken output.old) (W.taken output.new)) }
    ensures ended { IfOk result (λ ending. ending ≡ Ending.InputEnded → IsTrue (R.ended input.new)) }
    ensures none_failed { OnOk result ((R.failed input.new ≡ R.failed input.old)
        × (W.failed output.new ≡ W.failed output.old)) }
    ensures refused { IfErr result (OrMemory (IsStreamFault (R.failed input.new) (W.failed output.new))) }
{
    let language = FiltersetLanguage { workspace };
    match serve(&language, alloc, opening, input, output) {
        Ok(ending) => Ok(ending),
        Err(fault) => Err(CommandFault::Run(fault)),
    }
}

/// Serves an editor with the workspace that it names, if it names one.
fn serve_named<F: FileSource, R: Source, W: Sink>(
    alloc: Global,
    files: &F,
    input: &mut R,
    output: &mut W,
) -> Result<Ending, CommandFault>
    ensures session { IfOk result (Serves (F.content files.now) (F.fails files.now) None (R.left input.old) (R.left input.new)
        (W.taken output.old) (W.taken output.new)) }
    ensures ended { IfOk result (λ ending. ending ≡ Ending.InputEnded → IsTrue (R.ended input.new)) }
    ensures none_failed { OnOk result ((R.failed input.new ≡ R.failed input.old)
        × (W.failed output.new ≡ W.failed output.old)) }
    ensures refused { IfErr result (OrMemory (IsServiceFault (F.content files.now) (F.fails files.now) None
        (R.failed input.new) (W.failed output.new))) }
{
    let opening = read_opening(alloc, input)?;
    let greeting = greet(alloc, files, &opening.options)?;
    write_all(output, greeting.shown.as_bytes())?;
    let workspace = known(&greeting.workspace);
    serve_with(alloc, workspace, &opening.read, input, output)
}

/// Serves an editor until its session ends, with the names of a workspace: the one that the files at these paths describe, if they are
/// given, or else the one that the editor names first. Its files are read once, before the session's first answer.
pub fn serve_editor<F: FileSource, R: Source, W: Sink>(
    alloc: Global,
    files: &F,
    paths: Option<WorkspacePaths<'_>>,
    input: &mut R,
    output: &mut W,
) -> Result<Ending, CommandFault>
    // What was written answers the messages that were read, and nothing else was.
    ensures session { IfOk result (Serves (F.content files.now) (F.fails files.now) paths.entry (R.left input.old)
        (R.left input.new) (W.taken output.old) (W.taken output.new)) }
    // It ends for want of messages only at the end of the input.
    ensures ended { IfOk result (λ ending. ending ≡ Ending.InputEnded → IsTrue (R.ended input.new)) }
    ensures none_failed { OnOk result ((R.failed input.new ≡ R.failed input.old)
        × (W.failed output.new ≡ W.failed output.old)) }
    // An error, but out of memory, is true of the files, or of the session's reader and writer.
    ensures refused { IfErr result (OrMemory (IsServiceFault (F.content files.now) (F.fails files.now) paths.entry
        (R.failed input.new) (W.failed output.new))) }
{
    match paths {
        Some(paths) => {
            let workspace = Some(read_workspace(alloc, files, &paths)?);
            serve_with(alloc, known(&workspace), &[], input, output)
        }
        None => serve_named(alloc, files, input, output),
    }
}

//! Reading whole files, and standard input.
ghost use Rattle.std.specs.Prelude.{◌≡◌, ◌≢◌, IfErr, IfOk, IfSome, List, OnOk, Option, ℕ, string_bytes};
ghost use Rattle.std.specs.{IoError.error_kind, declared.io.Error.Error, declared.io.ErrorKind.TheVariants.OutOfMemory};
ghost use Rattle.filterset_json.specs.Runs.{AreLeft};
ghost use Rattle.filterset_loading.specs.{Files.IsFileFault, Files.OrMemory, Files.is_input, Files.name_of, Words.IsInputFault};

use crate::fault::{CommandFault, FileFault, FileRole};
use filterset_json::{RunFault, Source, read_all};
use std::alloc::{AllocError, Global};
use std::{fs, io};

/// What faults call standard input.
pub const INPUT_NAME: &str = "standard input";

/// Returns whether a path stands for standard input.
pub fn is_input(path: &str) -> bool
    ensures { result ≡ is_input path.now }
{
    path == "-"
}

/// Returns what faults call the file at a path.
pub fn name_of(path: &str) -> &str
    ensures { result.now ≡ name_of path.now }
{
    if is_input(path) { INPUT_NAME } else { path }
}

/// Where files are read from.
pub trait FileSource {
    /// The bytes of the file at a path, if they are known.
    ghost content: { Self → List ℕ → Option (List ℕ) };
    /// Reading the file at a path may fail with this error.
    ghost fails: { Self → List ℕ → Error → Type 0 };

    /// Reads all bytes of the file at a path.
    fn read(&self, alloc: Global, path: &str) -> io::Result<Vec<u8>>
        ensures bytes { IfOk result
            (λ bytes. IfSome (content self.now path.now) (λ known. bytes.items ≡ known)) }
        ensures failed { IfErr result (λ error.
            error_kind error ≢ OutOfMemory → fails self.now path.now error) };
}

/// Files, where the path `-` is that of standard input, which has this text.
pub struct WithInput<'f, F> {
    pub files: &'f F,
    pub input: &'f str,
}

impl<F> Drop for WithInput<'_, F> {
    fn drop(self) {
        let WithInput { files: _, input: _ } = self;
    }
}

impl<F: FileSource> FileSource for WithInput<'_, F> {
    ghost use Rattle.filterset_loading.specs.Files.{content_of};

    ghost content = { λ s. content_of (F.content s.files.now) s.input.now };

    ghost fails = { λ s. F.fails s.files.now };

    fn read(&self, alloc: Global, path: &str) -> io::Result<Vec<u8>> {
        if !is_input(path) {
            return self.files.read(alloc, path);
        }
        match String::from_str(alloc, self.input) {
            Ok(text) => Ok(text.into_bytes()),
            Err(_) => Err(io::Error::from(io::ErrorKind::OutOfMemory)),
        }
    }
}

/// The files of the machine.
#[derive(Clone, Copy)]
pub struct HostFiles<'r> {
    pub runtime: &'r HostRuntime,
}

impl FileSource for HostFiles<'_> {
    ghost use Rattle.std.specs.Prelude.{None};

    ghost content = { λ _ _. None };

    // The standard library does not say which errors a file gives.
    ghost fails = { λ _ _ _. Unit {0} };

    fn read(&self, _alloc: Global, path: &str) -> io::Result<Vec<u8>> {
        fs::read(self.runtime, path)
    }
}

/// Reads the file at a path as text.
pub fn read_text<F: FileSource>(
    alloc: Global,
    files: &F,
    role: FileRole,
    path: &str,
) -> Result<String, CommandFault>
    ensures whole { IfOk result
        (λ text. IfSome (F.content files.now path.now) (λ known. string_bytes text ≡ known)) }
    ensures refused { IfErr result (OrMemory
        (IsFileFault (F.content files.now) (F.fails files.now) role (λ _ _. ⊥) path.now)) }
{
    let bytes = match files.read(alloc, path) {
        Ok(bytes) => bytes,
        Err(error) if error.kind() == io::ErrorKind::OutOfMemory => {
            return Err(CommandFault::Run(RunFault::Memory(AllocError)));
        }
        Err(error) => {
            return Err(CommandFault::in_file(alloc, role, path, FileFault::Unread(error)));
        }
    };
    match String::from_utf8(bytes) {
        Ok(text) => Ok(text),
        Err(_) => Err(CommandFault::in_file(alloc, role, path, FileFault::NotText)),
    }
}

/// Reads what standard input has left as text.
pub fn read_input<R: Source>(alloc: Global, input: &mut R) -> Result<String, CommandFault>
    ensures whole { IfOk result (λ text. AreLeft (R.left input.old) (string_bytes text)) }
    ensures refused { IfErr result (OrMemory (IsInputFault (R.left input.old) (R.failed input.new))) }
    ensures none_failed { OnOk result (R.failed input.new ≡ R.failed input.old) }
{
    let bytes = read_all(alloc, input)?;
    match String::from_utf8(bytes) {
        Ok(text) => Ok(text),
        Err(_) => Err(CommandFault::NotText),
    }
}

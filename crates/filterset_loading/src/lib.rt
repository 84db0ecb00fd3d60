//! What people ask for, and what a request names: the commands and their arguments, as `clap` takes them, and the scripts by
//! which shells complete them; what matched words ask for; and the files of the workspace, of the configuration and of its
//! profiles. Words and paths go in; requests, what the files say, and faults for people come out.
//! For the program `filterset`, and for the crates that answer its requests.
#![tactic(auto)]

mod commands;
mod configuration;
mod engines;
mod fault;
mod files;
mod profile;
mod request;
mod shell;
mod table;
mod words;
mod workspace;

pub use commands::arguments;
pub use configuration::{ConfigurationFile, read_configuration_file};
pub use fault::{CommandFault, FileFault, FileRole};
pub use files::{FileSource, HostFiles, INPUT_NAME, WithInput, name_of, read_input};
pub use profile::{
    KnownPlatforms, KnownProfiles, ProfileRequest, ProfilesFile, lineage_of, profiles_in,
    read_facts, read_profiles_file,
};
pub use request::{
    Asked, CheckPaths, Decision, DecisionRequest, Request, Task, Texts, WarningRequest,
    WorkspaceRequest,
};
pub use shell::{Shell, completion_script};
pub use words::task_of;
pub use workspace::{
    Workspace, WorkspacePaths, known_packages, platforms_of, read_list, read_workspace,
};

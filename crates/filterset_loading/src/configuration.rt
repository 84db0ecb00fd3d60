//! Nextest's configuration.
ghost use Rattle.std.specs.Prelude.{◌≡◌, IfErr, IfOk, [], string_bytes};
ghost use Rattle.filterset_sources.specs.Configurations.{IsConfiguration, RefusesConfiguration};
ghost use Rattle.filterset_loading.specs.Configurations.{IsConfigurationIn};
ghost use Rattle.filterset_loading.specs.Files.{BySource, IsFileFault, OrMemory};

use crate::fault::{CommandFault, FileRole};
use crate::files::{FileSource, read_text};
use filterset_configuration::Places;
use filterset_sources::{Configuration, read_configuration};
use std::alloc::Global;
use toml::{Table, Value};

/// A configuration, the text that it was read from, and where its filtersets are in it.
#[derive(Drop)]
pub struct ConfigurationFile {
    pub text: String,
    pub configuration: Configuration,
    pub places: Places,
}

impl ConfigurationFile {
    /// Makes the file of a configuration that has nothing.
    pub fn empty(alloc: Global) -> ConfigurationFile
        ensures configuration { IsConfiguration [] result.configuration }
        ensures text { string_bytes result.text ≡ [] }
    {
        ConfigurationFile {
            text: String::new(alloc),
            configuration: Configuration {
                filtersets: Vec::new(alloc),
                groups: Vec::new(alloc),
                file: Value::Table(Table::new(alloc)),
            },
            places: Places {
                places: Vec::new(alloc),
            },
        }
    }
}

/// Reads the configuration at a path.
pub fn read_configuration_file<F: FileSource>(
    alloc: Global,
    files: &F,
    path: &str,
) -> Result<ConfigurationFile, CommandFault>
    ensures read { IfOk result (λ file. IsConfigurationIn (F.content files.now path.now)
        (string_bytes file.text) file.configuration file.places.places.items) }
    ensures refused { IfErr result (OrMemory (IsFileFault (F.content files.now) (F.fails files.now)
        FileRole.Configuration (BySource RefusesConfiguration) path.now)) }
{
    let text = read_text(alloc, files, FileRole::Configuration, path)?;
    let configuration = match read_configuration(alloc, text.as_str()) {
        Ok(configuration) => configuration,
        Err(refusal) => {
            return Err(CommandFault::from_refusal(alloc, FileRole::Configuration, path, refusal));
        }
    };
    let places = Places::of(alloc, text.as_str(), &configuration)?;
    Ok(ConfigurationFile {
        text,
        configuration,
        places,
    })
}

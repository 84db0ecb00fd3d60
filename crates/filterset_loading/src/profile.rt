//! What files say of the profiles of a configuration, and of the platforms by which their overrides apply.
ghost use Rattle.std.specs.Prelude.{◌≡◌, ◌⊎◌, IfErr, IfOk, map, string_bytes};
ghost use Rattle.filterset_configuration.specs.{Lineages.IsLineageFault, Lineages.Lineage, Profiles.HasProfiles};
ghost use Rattle.filterset_loading.specs.Configurations.{AreKnown, AreProfilesIn, AreSettings, IsRefusedProfile, IsSettingsFault, IsUnread, LacksProfile};
ghost use Rattle.filterset_loading.specs.Files.{OrMemory};

use crate::configuration::{ConfigurationFile, read_configuration_file};
use crate::fault::{CommandFault, FileFault, FileRole};
use crate::files::{FileSource, name_of, read_text};
use filterset_configuration::{
    Cfg, CfgRefusal, LineageFault, Places, PlatformFacts, Profile, ProfileRefusal, lineage,
    read_cfg, read_profiles,
};
use filterset_sources::{
    BuildPlatforms, Configuration, ConfiguredFilterset, ParsedText, SourceRefusal, WrongValue,
};
use std::alloc::{AllocError, Global};

/// The profile that a command uses, by the paths of the files that say what it is.
#[derive(Clone, Copy)]
pub struct ProfileRequest<'w> {
    /// Nextest's configuration.
    pub configuration: &'w str,
    pub name: &'w str,
    /// What `rustc --print cfg` wrote of the platform that tests are built for.
    pub target_cfg: Option<&'w str>,
    /// What it wrote of the platform that runs the build.
    pub host_cfg: Option<&'w str>,
}

/// What is known of the platforms of a build.
#[derive(Drop)]
pub struct KnownPlatforms {
    pub host: PlatformFacts,
    pub target: PlatformFacts,
}

/// The profile that is asked for, the profiles of its configuration, and what is known of the platforms of a build.
#[derive(Drop)]
pub struct KnownProfiles<'w> {
    pub request: ProfileRequest<'w>,
    pub profiles: Vec<Profile>,
    pub platforms: KnownPlatforms,
}

/// The profiles of a configuration, with its text, its filtersets and their places in that, and the names of its groups.
#[derive(Drop)]
pub struct ProfilesFile<'w> {
    pub text: String,
    pub filtersets: Vec<ConfiguredFilterset>,
    pub places: Places,
    pub groups: Vec<String>,
    pub known: KnownProfiles<'w>,
}

/// Reads the profiles of the configuration at a path.
pub fn profiles_in(
    alloc: Global,
    path: &str,
    parsed: ParsedText<'_>,
) -> Result<Vec<Profile>, CommandFault>
    ensures read { IfOk result (λ profiles. HasProfiles parsed.entry.text.now profiles.items) }
    ensures refused { IfErr result (OrMemory (IsRefusedProfile parsed.entry.text.now path.now)) }
{
    match read_profiles(alloc, parsed) {
        Ok(profiles) => Ok(profiles),
        Err(ProfileRefusal::Wrong { path: at, expected }) => {
            let wrong = SourceRefusal::WrongValue(WrongValue { path: at, expected });
            Err(CommandFault::from_refusal(alloc, FileRole::Configuration, path, wrong))
        }
        Err(ProfileRefusal::OutOfMemory(refused)) => Err(CommandFault::from(refused)),
    }
}

/// Reads what `rustc` sets for a platform, if there is a file that says so.
fn read_settings<F: FileSource>(
    alloc: Global,
    files: &F,
    role: FileRole,
    path: Option<&str>,
) -> Result<Option<Vec<Cfg>>, CommandFault>
    ensures read { IfOk result (AreSettings (F.content files.now) path.entry) }
    ensures refused { IfErr result (OrMemory (IsSettingsFault (F.content files.now) (F.fails files.now) role path.entry)) }
{
    let Some(path) = path else {
        return Ok(None);
    };
    let text = read_text(alloc, files, role, path)?;
    match read_cfg(alloc, text.as_str()) {
        Ok(settings) => Ok(Some(settings)),
        Err(CfgRefusal::OutOfMemory(refused)) => Err(CommandFault::from(refused)),
        Err(refusal) => {
            let wrong = FileFault::WrongCfg(refusal);
            Err(CommandFault::in_file(alloc, role, path, wrong))
        }
    }
}

/// Reads what is known of the platforms of a build.
pub fn read_facts<F: FileSource>(
    alloc: Global,
    files: &F,
    request: &ProfileRequest<'_>,
    built: BuildPlatforms,
) -> Result<KnownPlatforms, CommandFault>
    ensures read { IfOk result (AreKnown (F.content files.now) request.now built) }
    ensures refused { IfErr result (OrMemory (λ fault.
        IsSettingsFault (F.content files.now) (F.fails files.now) FileRole.HostCfg request.now.host_cfg fault
        ⊎ IsSettingsFault (F.content files.now) (F.fails files.now) FileRole.TargetCfg request.now.target_cfg fault)) }
{
    let host_cfg = read_settings(alloc, files, FileRole::HostCfg, request.host_cfg)?;
    let target_cfg = read_settings(alloc, files, FileRole::TargetCfg, request.target_cfg)?;
    Ok(KnownPlatforms {
        host: PlatformFacts {
            triple: built.host,
            cfg: host_cfg,
        },
        target: PlatformFacts {
            triple: built.target,
            cfg: target_cfg,
        },
    })
}

/// Reads the profiles of a configuration, and what is known of the platforms of a build.
pub fn read_profiles_file<'w, F: FileSource>(
    alloc: Global,
    files: &F,
    request: &ProfileRequest<'w>,
    built: BuildPlatforms,
) -> Result<ProfilesFile<'w>, CommandFault>
    ensures read { IfOk result (AreProfilesIn (F.content files.now) request.now built) }
    ensures refused { IfErr result (OrMemory (IsUnread (F.content files.now) (F.fails files.now) request.now)) }
{
    let ConfigurationFile {
        text,
        configuration,
        places,
    } = read_configuration_file(alloc, files, request.configuration)?;
    let Configuration {
        filtersets,
        groups,
        file,
    } = configuration;
    let parsed = ParsedText {
        text: text.as_str(),
        file: &file,
    };
    let known = KnownProfiles {
        request: *request,
        profiles: profiles_in(alloc, request.configuration, parsed)?,
        platforms: read_facts(alloc, files, request, built)?,
    };
    Ok(ProfilesFile {
        text,
        filtersets,
        places,
        groups,
        known,
    })
}

/// Copies the names of profiles.
fn names_of(alloc: Global, profiles: &[Profile]) -> Result<Vec<String>, AllocError>
    ensures { IfOk result (λ names. map (λ s. string_bytes s) names.items ≡ map (λ p. string_bytes p.name) profiles.now) }
{
    let mut names = Vec::with_capacity(alloc, profiles.len())?;
    for profile in profiles {
        names.push(String::from_str(alloc, profile.name.as_str())?)?;
    }
    Ok(names)
}

/// Returns the profile with this name of the configuration at a path, and those that it falls back on.
pub fn lineage_of<'p>(
    alloc: Global,
    configuration: &str,
    name: &str,
    profiles: &'p [Profile],
) -> Result<Vec<&'p Profile>, CommandFault>
    ensures found { IfOk result (λ chain. Lineage profiles.entry.now name.now (map (λ p. p.now) chain.items)) }
    ensures missing { IfErr result (OrMemory (LacksProfile configuration.now name.now profiles.entry.now)) }
{
    match lineage(alloc, profiles, name) {
        Ok(chain) => Ok(chain),
        Err(LineageFault::OutOfMemory(refused)) => Err(CommandFault::from(refused)),
        Err(fault) => Err(CommandFault::Profile {
            file: String::from_str(alloc, name_of(configuration))?,
            fault,
            known: names_of(alloc, profiles)?,
        }),
    }
}

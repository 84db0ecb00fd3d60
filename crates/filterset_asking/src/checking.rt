//! The command `check`: the faults of texts and of a configuration's filtersets, by the names that files give.
ghost use Rattle.std.specs.Prelude.{◌≡◌, ◌++◌, IfErr, IfOk, IsSomeAnd, OnOk, map, string_bytes};
ghost use Rattle.filterset_entries.specs.{Checked.text_row, Entries.rows_in};
ghost use Rattle.nextest_filtering.specs.{Compiling.packages_of, Groups.IsKnown};
ghost use Rattle.filterset_sources.specs.Configurations.{RefusesConfiguration};
ghost use Rattle.filterset_asking.specs.Checking.{AnswersCheck, ChecksAll, ChecksKnown, HasAsked, IsCheckFault, IsUnchecked, KnownConfiguration, LacksAsked, file_name};
ghost use Rattle.filterset_asking.specs.Warned.{request_after};
ghost use Rattle.filterset_loading.specs.Files.{BySource, IsFileFault, OrMemory};

use crate::configured::{CheckedFile, warn_configuration};
use crate::values::add_values;
use crate::warning::{CheckedTexts, join_answers, warn_checked};
use filterset_answers::check;
use filterset_configuration::{WrongValue, find_wrong_values};
use filterset_display::{Form, Source};
use filterset_entries::{
    Answer, Names, TextEntry, WarningEnd, configured_entries, configured_texts,
};
use filterset_loading::{
    CheckPaths, CommandFault, ConfigurationFile, FileRole, FileSource, WarningRequest,
    known_packages, lineage_of, name_of, profiles_in, read_configuration_file,
};
use filterset_sources::ParsedText;
use std::alloc::Global;

/// Reads the configuration. Without a file it has no filtersets and no groups.
fn known_configuration<F: FileSource>(
    alloc: Global,
    files: &F,
    path: Option<&str>,
) -> Result<ConfigurationFile, CommandFault>
    ensures known { IfOk result (λ file. KnownConfiguration (F.content files.now) path.entry
        (string_bytes file.text) file.configuration file.places.places.items) }
    ensures refused { IfErr result (OrMemory (λ fault. IsSomeAnd path.entry (λ path. IsFileFault
        (F.content files.now) (F.fails files.now) FileRole.Configuration (BySource RefusesConfiguration) path.now fault))) }
{
    match path {
        Some(path) => read_configuration_file(alloc, files, path),
        None => Ok(ConfigurationFile::empty(alloc)),
    }
}

/// Returns what faults in the configuration call its file.
fn file_name(path: Option<&str>) -> &str
    ensures { result.now ≡ file_name path.entry }
{
    match path {
        Some(path) => name_of(path),
        None => "",
    }
}

/// Returns the request for warnings, if the configuration has no wrong values.
fn request_after<'w>(
    values: &[WrongValue],
    request: Option<WarningRequest<'w>>,
) -> Option<WarningRequest<'w>>
    ensures { result ≡ request_after values.now request.entry }
{
    match values {
        [] => request,
        [..] => None,
    }
}

/// Finds the profile of the configuration, if it has no wrong values.
fn find_asked(
    alloc: Global,
    paths: &CheckPaths<'_>,
    parsed: ParsedText<'_>,
    values: &[WrongValue],
) -> Result<(), CommandFault>
    ensures found { OnOk result (HasAsked paths.now parsed.entry.text.now values.now) }
    ensures refused { IfErr result (OrMemory (λ fault. IsSomeAnd paths.now.configuration
        (λ path. LacksAsked path.now paths.now.profile.now parsed.entry.text.now fault))) }
{
    let ([], Some(path)) = (values, paths.configuration) else {
        return Ok(());
    };
    let profiles = profiles_in(alloc, path, parsed)?;
    match lineage_of(alloc, path, paths.profile, profiles.as_slice()) {
        Ok(_) => Ok(()),
        Err(fault) => Err(fault),
    }
}

/// The texts that are given to check, and how answers are written.
#[derive(Drop)]
struct GivenTexts<'c> {
    form: Form,
    entries: Vec<TextEntry<'c>>,
}

/// Checks a configuration's values, its filtersets and other texts, and warns of the configuration, then of all texts.
fn check_all<'c, F: FileSource>(
    alloc: Global,
    files: &F,
    paths: CheckPaths<'c>,
    names: &'c Names<'c>,
    configured: CheckedFile<'c>,
    given: GivenTexts<'c>,
) -> Result<Answer, CommandFault>
    requires groups { IsKnown names.now.known_groups }
    ensures answered { IfOk result (λ answer. ChecksAll (F.content files.now) given.entry.form names.entry.now paths.entry
        configured.entry.texts (map text_row given.entry.entries.items) answer.ending (string_bytes answer.text)) }
    ensures refused { IfErr result (OrMemory (IsUnchecked (F.content files.now) (F.fails files.now)
        (packages_of names.entry.now.parse_context) paths.entry configured.entry.texts.file.now.text.now)) }
{
    let CheckedFile { texts, file } = configured;
    let text = texts.file.text;
    let parsed = ParsedText { text, file };
    let GivenTexts {
        form,
        entries: mut given,
    } = given;
    let mut entries = configured_entries(alloc, texts)?;
    entries.append(&mut given)?;
    let own = warn_configuration(alloc, form, configured)?;
    let checked_texts = CheckedTexts {
        form,
        graph: names.parse_context.graph(),
        groups: &names.known_groups,
        path: paths.configuration,
        configured,
        entries: entries.as_slice(),
        end: WarningEnd {
            denies: paths.denies,
            before: own.count,
        },
    };
    let values = find_wrong_values(alloc, parsed)?;
    let values = values.as_slice();
    let checked = check(alloc, names, form, checked_texts.entries)?;
    let answer = add_values(alloc, form, texts.file, values, checked)?;
    let request = request_after(values, paths.warnings);
    find_asked(alloc, &paths, parsed, values)?;
    let warnings = warn_checked(alloc, files, request, &checked_texts)?;
    Ok(join_answers(alloc, answer, own.text.as_str(), warnings)?)
}

/// Checks the values of the configuration, then its filtersets, and after them the texts that are given; then warns of these
/// by the list of tests, if one is given.
pub fn check_texts<F: FileSource>(
    alloc: Global,
    files: &F,
    form: Form,
    paths: &CheckPaths<'_>,
    given: Vec<TextEntry<'_>>,
) -> Result<Answer, CommandFault>
    ensures answered { IfOk result (λ answer. AnswersCheck (F.content files.now) form paths.now
        (map text_row given.entry.items) answer.ending (string_bytes answer.text)) }
    ensures refused { IfErr result (OrMemory (IsCheckFault (F.content files.now) (F.fails files.now) paths.now)) }
{
    let ConfigurationFile {
        text,
        configuration,
        places,
    } = known_configuration(alloc, files, paths.configuration)?;
    let graph = known_packages(alloc, files, paths.metadata)?;
    let (has_packages, has_groups) = (paths.metadata.is_some(), paths.configuration.is_some());
    let names = Names::new(
        alloc,
        &graph,
        has_packages,
        configuration.groups,
        has_groups,
    )?;
    let source = Source::new(alloc, file_name(paths.configuration), text.as_str())?;
    let texts = configured_texts(&source, configuration.filtersets.as_slice(), &places);
    let file = &configuration.file;
    let configured = CheckedFile { texts, file };
    let entries = given;
    let given = GivenTexts { form, entries };
    check_all(alloc, files, *paths, &names, configured, given)
}

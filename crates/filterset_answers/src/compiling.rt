//! Texts as the filtersets that they spell.
ghost use Rattle.std.specs.Prelude.{◌≡◌, ◌++◌, ◌∷◌, [], IfOk, OnOk, filter_map, map, option_to_list, string_bytes};
ghost use Rattle.std.specs.List.{AllZip};
ghost use Rattle.filterset_display.specs.Columns.{Text};
ghost use Rattle.nextest_filtering.specs.Groups.{IsKnown};
ghost use Rattle.filterset_entries.specs.{Checked.text_row, Entries.filter_row};
ghost use Rattle.filterset_answers.specs.Compiled.{AreCompiled, Compiles, CompilesAll, HasMade, IsFilter, IsMade, IsParsedAs};

use filterset_display::Form;
use filterset_entries::{
    OverrideEntry, Setting, TextEntry, fault_remarks, parse_entry, push_faults,
};
use nextest_filtering::{Filterset, KnownGroups, ParseContext};
use std::alloc::{AllocError, Global};

/// The filtersets of a setting.
#[derive(Debug)]
pub struct SettingFiltersets {
    pub default: Filterset,
    /// The filter of each override, if it has one.
    pub overrides: Vec<Option<Filterset>>,
}

// By hand, so that a function that drops them proves one call.
impl Drop for SettingFiltersets {
    fn drop(self) {
        let SettingFiltersets {
            default: _default,
            overrides: _overrides,
        } = self;
    }
}

/// The filtersets of a question, and those of the setting that it is asked under.
#[derive(Debug, Drop)]
pub struct QuestionFiltersets {
    pub setting: SettingFiltersets,
    pub filters: Vec<Filterset>,
}

/// The filtersets that texts spell, or the faults of the texts.
#[derive(Debug, Drop)]
pub enum CompiledTexts {
    /// All texts are filtersets.
    Filtersets(QuestionFiltersets),
    /// Some texts have faults. This describes them.
    Faults(String),
}

/// What texts are compiled with.
#[derive(Debug, Drop)]
pub struct Compiler<'c> {
    pub context: ParseContext<'c>,
    pub groups: &'c KnownGroups,
    /// How faults are written.
    pub form: Form,
}

/// The faults of texts that were compiled one after the other.
#[derive(Debug, Drop)]
pub struct FaultLog {
    pub text: String,
    /// How many texts were compiled.
    pub count: usize,
    /// Whether any of them has faults.
    pub has_any: bool,
}

/// Parses the text with this number as a filterset, or writes its faults.
fn compile_entry(
    output: &mut String,
    alloc: Global,
    compiler: &Compiler<'_>,
    number: usize,
    entry: &TextEntry<'_>,
) -> Result<Option<Filterset>, AllocError>
    requires { IsKnown compiler.now.groups.now }
    ensures { IfOk result (λ made. (piece : Text) × (string_bytes output.new ≡ string_bytes output.old ++ piece)
        × IsParsedAs compiler.now number (text_row entry.now) made piece) }
{
    match parse_entry(alloc, &compiler.context, compiler.groups, entry)? {
        Ok(filterset) => Ok(Some(filterset)),
        Err(faults) => {
            let remarks = fault_remarks(alloc, &faults)?;
            let form = compiler.form;
            push_faults(output, alloc, form, entry, number, remarks.as_slice())?;
            Ok(None)
        }
    }
}

/// Compiles the next text, or writes its faults. A number that a `usize` cannot hold counts as out of memory.
fn compile_text(
    log: &mut FaultLog,
    alloc: Global,
    compiler: &Compiler<'_>,
    entry: &TextEntry<'_>,
) -> Result<Option<Filterset>, AllocError>
    requires { IsKnown compiler.now.groups.now }
    ensures { let row = text_row entry.now in IfOk result (λ made.
        Compiles compiler.now (row ∷ []) log.old log.new (HasMade compiler.now row made)) }
{
    let number = log.count.checked_add(1).ok_or(AllocError)?;
    let made = compile_entry(&mut log.text, alloc, compiler, number, entry)?;
    log.count = number;
    if made.is_none() {
        log.has_any = true;
    }
    Ok(made)
}

/// Compiles the filter of an override, if it has one, or writes its faults.
fn compile_filter(
    log: &mut FaultLog,
    alloc: Global,
    compiler: &Compiler<'_>,
    entry: &OverrideEntry<'_>,
) -> Result<Option<Filterset>, AllocError>
    requires { IsKnown compiler.now.groups.now }
    ensures { IfOk result (λ made. Compiles compiler.now (filter_map filter_row (entry.now ∷ []))
        log.old log.new (IsFilter compiler.now entry.now made)) }
{
    match &entry.filter {
        Some(filter) => compile_text(log, alloc, compiler, filter),
        None => Ok(None),
    }
}

/// Compiles the filters of overrides, or writes their faults.
fn compile_overrides(
    log: &mut FaultLog,
    alloc: Global,
    compiler: &Compiler<'_>,
    overrides: &[OverrideEntry<'_>],
) -> Result<Vec<Option<Filterset>>, AllocError>
    requires { IsKnown compiler.now.groups.now }
    ensures { IfOk result (λ made. Compiles compiler.now (filter_map filter_row overrides.now)
        log.old log.new (AllZip (IsFilter compiler.now) overrides.now made.items)) }
{
    let mut filters = Vec::with_capacity(alloc, overrides.len())?;
    for entry in overrides {
        filters.push(compile_filter(log, alloc, compiler, entry)?)?;
    }
    Ok(filters)
}

/// Adds a filterset if there is one.
fn push_some(filtersets: &mut Vec<Filterset>, made: Option<Filterset>) -> Result<(), AllocError>
    ensures { OnOk result (filtersets.new.items ≡ filtersets.old.items ++ option_to_list made) }
{
    if let Some(filterset) = made {
        filtersets.push(filterset)?;
    }
    Ok(())
}

/// Compiles texts, or writes their faults.
fn compile_filters(
    log: &mut FaultLog,
    alloc: Global,
    compiler: &Compiler<'_>,
    entries: &[TextEntry<'_>],
) -> Result<Vec<Filterset>, AllocError>
    requires { IsKnown compiler.now.groups.now }
    ensures { let rows = map text_row entries.now in IfOk result (λ made.
        Compiles compiler.now rows log.old log.new (AllZip (IsMade compiler.now) rows made.items)) }
{
    let mut filtersets = Vec::with_capacity(alloc, entries.len())?;
    for entry in entries {
        let made = compile_text(log, alloc, compiler, entry)?;
        push_some(&mut filtersets, made)?;
    }
    Ok(filtersets)
}

/// Compiles the texts of a setting, and after them those of a question, or writes their faults.
fn compile_all(
    log: &mut FaultLog,
    alloc: Global,
    compiler: &Compiler<'_>,
    setting: &Setting<'_>,
    entries: &[TextEntry<'_>],
) -> Result<Option<QuestionFiltersets>, AllocError>
    requires { IsKnown compiler.now.groups.now }
    ensures { IfOk result (CompilesAll compiler.now setting.now (map text_row entries.now) log.old log.new) }
{
    let default = compile_text(log, alloc, compiler, setting.default)?;
    let overrides = compile_overrides(log, alloc, compiler, setting.overrides)?;
    let filters = compile_filters(log, alloc, compiler, entries)?;
    match default {
        Some(default) if !log.has_any => Ok(Some(QuestionFiltersets {
            setting: SettingFiltersets { default, overrides },
            filters,
        })),
        _ => Ok(None),
    }
}

/// Parses and compiles the texts of a question under a setting. The number of the default filter is 1.
pub fn compile_texts(
    alloc: Global,
    form: Form,
    setting: &Setting<'_>,
    entries: &[TextEntry<'_>],
) -> Result<CompiledTexts, AllocError>
    ensures { IfOk result (AreCompiled form setting.now (map text_row entries.now)) }
{
    let compiler = Compiler {
        context: ParseContext::new(alloc, setting.graph)?,
        groups: setting.groups,
        form,
    };
    let mut log = FaultLog {
        text: String::new(alloc),
        count: 0,
        has_any: false,
    };
    match compile_all(&mut log, alloc, &compiler, setting, entries)? {
        Some(filtersets) => Ok(CompiledTexts::Filtersets(filtersets)),
        None => Ok(CompiledTexts::Faults(log.text)),
    }
}

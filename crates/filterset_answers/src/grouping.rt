//! Overrides as tests are asked about them: with what their filters are compiled to.
ghost use Rattle.std.specs.Prelude.{◌≡◌, ◌++◌, ◌∷◌, [], IfOk, List, OnOk, Some, filter, option_map};
ghost use Rattle.std.specs.List.{AllZip};
ghost use Rattle.filterset_listing.specs.declared.groups.GroupOverride as declared;
ghost use Rattle.filterset_answers.specs.Compiled.{IsAskedFor, IsFilterFor, IsOverrideFor, sets_group};
ghost use Rattle.filterset_answers.specs.Picking.{compiled_of};
ghost use Rattle.filterset_entries.specs.declared.setting.Setting as settings;

use filterset_entries::OverrideEntry;
use filterset_listing::GroupOverride;
use filterset_overrides::AskedOverride;
use nextest_filtering::{CompiledExpr, Filterset};
use std::alloc::{AllocError, Global};

/// Returns the compiled expression of a filterset, if there is one.
fn expression_of(made: &Option<Filterset>) -> Option<&CompiledExpr>
    ensures { option_map (λ e. e.now) result ≡ option_map compiled_of made.now }
{
    match made {
        Some(filterset) => Some(&filterset.compiled),
        None => None,
    }
}

/// Returns the overrides, whose filters these filtersets are.
pub fn asked_overrides<'a>(
    alloc: Global,
    entries: &'a [OverrideEntry<'_>],
    filters: &'a [Option<Filterset>],
) -> Result<Vec<AskedOverride<'a>>, AllocError>
    ensures { IfOk result (λ asked. (setting : settings.Setting)
        → AllZip (IsFilterFor setting.graph.now setting.groups.now) entries.entry.now filters.entry.now
        → AllZip (IsAskedFor setting) entries.entry.now asked.items) }
{
    let mut asked = Vec::with_capacity(alloc, entries.len())?;
    for (entry, made) in entries.iter().zip(filters) {
        asked.push(AskedOverride {
            path: entry.path,
            filter: expression_of(made),
            for_target: entry.for_target,
            for_host: entry.for_host,
            settings: entry.settings,
        })?;
    }
    Ok(asked)
}

/// Adds an override, whose filter this filterset is, if it sets a group.
fn push_group<'g>(
    overrides: &mut Vec<GroupOverride<'g>>,
    entry: &'g OverrideEntry<'_>,
    made: &'g Option<Filterset>,
) -> Result<(), AllocError>
    ensures { OnOk result ((more : List declared.GroupOverride) × (overrides.new.items ≡ overrides.old.items ++ more)
        × ((setting : settings.Setting)
        → IsFilterFor setting.graph.now setting.groups.now entry.entry.now made.entry.now
        → AllZip (IsOverrideFor setting) (filter sets_group (entry.entry.now ∷ [])) more)) }
{
    let Some(group) = entry.group else {
        return Ok(());
    };
    overrides.push(GroupOverride {
        path: entry.path,
        filter: expression_of(made),
        for_target: entry.for_target,
        for_host: entry.for_host,
        group,
    })?;
    Ok(())
}

/// Returns those of the overrides that set a group.
pub fn group_overrides<'g>(
    alloc: Global,
    entries: &'g [OverrideEntry<'_>],
    filters: &'g [Option<Filterset>],
) -> Result<Vec<GroupOverride<'g>>, AllocError>
    ensures { IfOk result (λ overrides. (setting : settings.Setting)
        → AllZip (IsFilterFor setting.graph.now setting.groups.now) entries.entry.now filters.entry.now
        → AllZip (IsOverrideFor setting) (filter sets_group entries.entry.now) overrides.items) }
{
    let mut overrides = Vec::new(alloc);
    for (entry, made) in entries.iter().zip(filters) {
        push_group(&mut overrides, entry, made)?;
    }
    Ok(overrides)
}

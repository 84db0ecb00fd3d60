//! Rows of graphs: which packages depend on which, or why a list of packages is no graph.
use crate::reading::{list_or_none, list_under};
use crate::report::Report;
use filterset_graph::{
    BuildTarget, BuildTargetId, DependsRefusal, GraphRefusal, PackageGraph, PackageId,
    PackageMetadata,
};
use filterset_json::{Entry, EntryRefusal, check_keys, optional, required};
use serde_json::Value;
use std::alloc::{AllocError, Global};

/// Reads the packages under `packages`.
pub fn read_packages(alloc: Global, row: &Value) -> Result<Vec<PackageMetadata>, EntryRefusal> {
    let mut packages = Vec::new(alloc);
    for value in list_under(alloc, row, "packages")? {
        packages.push(read_package(alloc, value)?)?;
    }
    Ok(packages)
}

/// Reads a package, whose id is its name.
fn read_package(alloc: Global, value: &Value) -> Result<PackageMetadata, EntryRefusal> {
    check_keys(alloc, value, &["name", "in_workspace", "targets", "links"])?;
    let name = required::<String>(alloc, value, "name")?;
    let mut build_targets = Vec::new(alloc);
    let targets = optional::<Vec<(String, String)>>(alloc, value, "targets", Vec::new(alloc))?;
    for (kind, name) in targets {
        let id = match kind.as_str() {
            "lib" => BuildTargetId::Library,
            "bin" => BuildTargetId::Binary,
            "example" => BuildTargetId::Example,
            "test" => BuildTargetId::Test,
            "bench" => BuildTargetId::Benchmark,
            "build" => BuildTargetId::BuildScript,
            _ => return Err(EntryRefusal::wrong(alloc, "a kind of targets")),
        };
        build_targets.push(BuildTarget { id, name })?;
    }
    Ok(PackageMetadata {
        id: PackageId::new(name.clone()?),
        name,
        in_workspace: required(alloc, value, "in_workspace")?,
        build_targets,
        links: required(alloc, value, "links")?,
    })
}

/// Reads why the list of packages is no graph.
fn read_refusal(alloc: Global, row: &Value) -> Result<Option<GraphRefusal>, EntryRefusal> {
    let Some(value) = row.get("refused") else {
        return Ok(None);
    };
    if value.get("repeated").is_some() {
        check_keys(alloc, value, &["repeated"])?;
        let at = required(alloc, value, "repeated")?;
        return Ok(Some(GraphRefusal::RepeatedId { at }));
    }
    check_keys(alloc, value, &["package", "link"])?;
    Ok(Some(GraphRefusal::UnknownLink {
        package: required(alloc, value, "package")?,
        link: required(alloc, value, "link")?,
    }))
}

/// Puts a row to the library.
pub fn try_graph(report: &mut Report, row: &Value) -> Result<(), EntryRefusal> {
    let alloc = report.alloc;
    report.begin("graph");
    check_keys(alloc, row, &["packages", "refused", "depends", "searches"])?;
    let refused = read_refusal(alloc, row)?;
    let graph = match PackageGraph::new(alloc, read_packages(alloc, row)?) {
        Ok(graph) => graph,
        Err(GraphRefusal::OutOfMemory(refused)) => return Err(EntryRefusal::from(refused)),
        Err(found) => {
            let shown = format!(in alloc; "{found:?}")?;
            return Ok(report.note(refused == Some(found), "refusal", "", shown.as_str())?);
        }
    };
    report.note(refused.is_none(), "refusal", "", "none")?;

    let packages = read_packages(alloc, row)?;
    report.note(
        packages.len() == graph.packages().len(),
        "packages",
        "",
        "another count",
    )?;
    for (package, wanted) in graph.packages().iter().zip(packages.iter()) {
        let same = is_package(Some(package), wanted)
            && is_package(graph.metadata(&wanted.id), wanted);
        report.note(same, "package", wanted.name(), "another one")?;
    }
    for value in list_or_none(alloc, row, "depends")? {
        try_question(report, &graph, value)?;
    }
    for value in list_or_none(alloc, row, "searches")? {
        try_search(report, &graph, value)?;
    }
    Ok(())
}

/// Returns whether the package has the wanted name, id and place.
fn is_package(found: Option<&PackageMetadata>, wanted: &PackageMetadata) -> bool {
    match found {
        Some(package) => {
            package.id == wanted.id
                && package.name() == wanted.name()
                && package.in_workspace == wanted.in_workspace
        }
        None => false,
    }
}

/// Notes whether the answer to a question differs, or a package is known otherwise than it says.
fn try_question(
    report: &mut Report,
    graph: &PackageGraph,
    value: &Value,
) -> Result<(), EntryRefusal> {
    let alloc = report.alloc;
    let (from, to, answer) = <(PackageId, PackageId, Option<bool>)>::read(alloc, value)?;
    let found = match graph.depends_on(alloc, &from, &to) {
        Ok(answer) => Some(answer),
        Err(DependsRefusal::UnknownPackage) => None,
        Err(DependsRefusal::OutOfMemory(refused)) => return Err(EntryRefusal::from(refused)),
    };
    let are_known = graph.metadata(&from).is_some() && graph.metadata(&to).is_some();
    let same = found == answer && are_known == answer.is_some();
    let subject = format!(in alloc; "{} {}", from.repr(), to.repr())?;
    let shown = format!(in alloc; "{found:?}")?;
    Ok(report.note(same, "dependency", subject.as_str(), shown.as_str())?)
}

/// Notes where a search finds other packages than a row lists, in any order.
fn try_search(
    report: &mut Report,
    graph: &PackageGraph,
    value: &Value,
) -> Result<(), EntryRefusal> {
    let alloc = report.alloc;
    check_keys(alloc, value, &["starts", "reached", "reaching"])?;
    let starts = required::<Vec<String>>(alloc, value, "starts")?;
    let mut reached = required::<Vec<String>>(alloc, value, "reached")?;
    let mut reaching = required::<Vec<String>>(alloc, value, "reaching")?;
    reached.sort()?;
    reaching.sort()?;

    let mut marks = Vec::new(alloc);
    for package in graph.packages() {
        marks.push(starts.iter().any(|start| start.as_str() == package.name()))?;
    }
    if marks.len() != graph.packages().len() {
        return Ok(report.note(false, "starts", "", "another count")?);
    }
    let subject = format!(in alloc; "{starts:?}")?;
    let found = list_marked(alloc, graph, &graph.mark_reached(alloc, &marks)?)?;
    report.compare("reached", subject.as_str(), &found, &Some(reached))?;
    let found = list_marked(alloc, graph, &graph.mark_reaching(alloc, &marks)?)?;
    Ok(report.compare("reaching", subject.as_str(), &found, &Some(reaching))?)
}

/// Lists the marked packages of the graph, in the order of their names.
fn list_marked(
    alloc: Global,
    graph: &PackageGraph,
    marks: &[bool],
) -> Result<Vec<String>, AllocError> {
    let mut names = Vec::new(alloc);
    for (package, marked) in graph.packages().iter().zip(marks.iter()) {
        if *marked {
            names.push(String::from_str(alloc, package.name())?)?;
        }
    }
    names.sort()?;
    Ok(names)
}

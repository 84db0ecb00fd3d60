//! Rows of texts: their faults, their trees, and that what a tree prints parses to the same tree.
use crate::reading::{given_text, read_text, value_under};
use crate::report::Report;
use crate::trees::{Spans, print_tree, show_tree};
use filterset_faults::ParseSingleError;
use filterset_json::{EntryRefusal, check_keys, given};
use filterset_language::{ParseStop, ParsedExpr};
use serde_json::Value;
use std::alloc::{AllocError, Global};

/// The faults of a text, and the message, label and help of each.
#[derive(Drop)]
pub struct Refusal {
    /// Each fault by its code, its offset and its length.
    pub faults: Option<Vec<(String, usize, usize)>>,
    told: Option<Vec<Vec<String>>>,
}

impl Refusal {
    /// Reads the keys `faults` and `told` of a row.
    pub fn read(alloc: Global, row: &Value) -> Result<Refusal, EntryRefusal> {
        Ok(Refusal {
            faults: given(alloc, row, "faults")?,
            told: given(alloc, row, "told")?,
        })
    }

    /// Notes where the faults differ.
    pub fn compare(
        &self,
        report: &mut Report,
        text: &str,
        found: &[ParseSingleError],
    ) -> Result<(), AllocError> {
        let alloc = report.alloc;
        let mut told = Vec::new(alloc);
        for fault in found {
            told.push(tell_fault(alloc, fault)?)?;
        }
        report.compare("faults", text, &list_faults(alloc, found)?, &self.faults)?;
        report.compare("messages", text, &told, &self.told)
    }
}

/// Lists the faults as rows do.
pub fn list_faults(
    alloc: Global,
    faults: &[ParseSingleError],
) -> Result<Vec<(String, usize, usize)>, AllocError> {
    let mut all = Vec::new(alloc);
    for fault in faults {
        let code = String::from_str(alloc, fault.code())?;
        match fault.span() {
            Some(span) => all.push((code, span.offset(), span.len()))?,
            // No row has such a span.
            None => all.push((code, usize::MAX, usize::MAX))?,
        }
    }
    Ok(all)
}

/// Lists the message, the label and the help of a fault.
fn tell_fault(alloc: Global, fault: &ParseSingleError) -> Result<Vec<String>, AllocError> {
    let mut parts = vec![in alloc; format!(in alloc; "{fault}")?]?;
    if let Some(label) = fault.label() {
        parts.push(format!(in alloc; "{label}")?)?;
    }
    if let Some(help) = fault.help() {
        parts.push(format!(in alloc; "{help}")?)?;
    }
    Ok(parts)
}

/// Reads the tree that a row wants, as `show_tree` writes it.
fn read_tree(alloc: Global, row: &Value) -> Result<Option<String>, EntryRefusal> {
    match row.get("tree") {
        Some(tree) if tree.is_null() => Ok(Some(String::from_str(alloc, "no tree")?)),
        _ => given_text(alloc, row, "tree"),
    }
}

/// Puts a row to both parsers, and what its tree prints to the parser.
pub fn try_text(report: &mut Report, row: &Value) -> Result<(), EntryRefusal> {
    let alloc = report.alloc;
    report.begin("text");
    let names = ["text", "faults", "tree", "print", "told", "test_alone"];
    check_keys(alloc, row, &names)?;
    let text = read_text(alloc, value_under(alloc, row, "text")?, 0)?;
    let refusal = Refusal::read(alloc, row)?;
    let tree = read_tree(alloc, row)?;
    let print = given_text(alloc, row, "print")?;
    let test_alone = given(alloc, row, "test_alone")?;

    let text = text.as_str();
    let parsed = ParsedExpr::parse_with_faults(alloc, text)?;
    refusal.compare(report, text, &parsed.faults)?;
    let shown = show_tree(alloc, &parsed.tree, Spans::Written)?;
    report.compare("tree", text, &shown, &tree)?;
    report.compare("print", text, &print_tree(alloc, &parsed.tree)?, &print)?;
    match &parsed.tree {
        Some(tree) => compare_predicates(report, text, tree, &test_alone)?,
        None => report.note(test_alone.is_none(), "predicates", text, "no tree")?,
    }
    if parsed.faults.is_empty() {
        try_print(report, text, &parsed.tree)?;
    }

    match ParsedExpr::parse(alloc, text) {
        Ok(tree) => {
            let lenient = show_tree(alloc, &Some(tree), Spans::Written)?;
            report.compare("lenient tree", text, &lenient, &Some(shown))?;
        }
        Err(ParseStop::Faults(faults)) => {
            let same = parsed.tree.is_none() && faults == parsed.faults;
            report.note(same, "lenient faults", text, "others")?;
        }
        Err(ParseStop::OutOfMemory(refused)) => return Err(EntryRefusal::from(refused)),
    }
    Ok(())
}

/// Notes where the predicates that only a test decides differ.
fn compare_predicates(
    report: &mut Report,
    text: &str,
    tree: &ParsedExpr,
    wanted: &Option<Vec<String>>,
) -> Result<(), AllocError> {
    let mut found = Vec::new(report.alloc);
    for leaf in tree.runtime_only_leaves(report.alloc)? {
        found.push(format!(in report.alloc; "{leaf}")?)?;
    }
    if let ParsedExpr::Set(leaf) = tree {
        let same = leaf.is_runtime_only() != found.is_empty();
        report.note(same, "predicate by itself", text, "otherwise")?;
    }
    report.compare("predicates", text, &found, wanted)
}

/// Notes whether what the tree prints has faults, prints otherwise, or parses to another tree, spans aside.
fn try_print(report: &mut Report, text: &str, tree: &Option<ParsedExpr>) -> Result<(), AllocError> {
    let alloc = report.alloc;
    let print = print_tree(alloc, tree)?;
    let again = ParsedExpr::parse_with_faults(alloc, print.as_str())?;
    let faults = list_faults(alloc, &again.faults)?;
    report.compare("faults of the print", text, &faults, &Some(Vec::new(alloc)))?;
    let found = print_tree(alloc, &again.tree)?;
    report.compare("print of the print", text, &found, &Some(print))?;
    let found = show_tree(alloc, &again.tree, Spans::LeftOut)?;
    let wanted = show_tree(alloc, tree, Spans::LeftOut)?;
    report.compare("tree of the print", text, &found, &Some(wanted))
}

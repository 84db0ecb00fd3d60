//! Whether a document holds the same as another, but with other texts.
ghost use Rattle.std.specs.Prelude.{◌≡◌, [], IfOk, length, map, string_bytes, unwrap_or};
ghost use Rattle.std.specs.Bool.{Decides, OnFalse, OnTrue};
ghost use Rattle.filterset_entries.specs.Checked.{text_row};
ghost use Rattle.filterset_server.specs.Becoming.{AreRewritten, Becomes, HasTexts, IsRewritten};
ghost use Rattle.filterset_documents.specs.Contents.{content_row};

use filterset_documents::{Content, OpenDocument, is_same};
use filterset_entries::TextEntry;
use filterset_sources::SourceRefusal;
use std::alloc::{AllocError, Global};

/// Lists strings as texts.
pub fn list_strings(alloc: Global, strings: &[String]) -> Result<Vec<&str>, AllocError>
    ensures { IfOk result (λ texts. map (λ t. t.now) texts.items ≡ map (λ s. string_bytes s) strings.now) }
{
    let mut texts = Vec::with_capacity(alloc, strings.len())?;
    for string in strings {
        texts.push(string.as_str())?;
    }
    Ok(texts)
}

/// Lists the names of the groups of a configuration. A list has none.
fn group_names<'g>(alloc: Global, content: Content<'g, '_>) -> Result<Vec<&'g str>, AllocError>
    ensures { IfOk result (λ names. map (λ n. n.now) names.items ≡ unwrap_or (content_row content.entry).groups []) }
{
    match content.groups {
        Some(groups) => list_strings(alloc, groups),
        None => Ok(Vec::new(alloc)),
    }
}

/// Returns whether a filterset has the path and the kind of another, and this text.
fn is_rewritten(entry: &TextEntry<'_>, text: &str, other: &TextEntry<'_>) -> bool
    ensures is { OnTrue result (IsRewritten (text_row entry.now) text.now (text_row other.now)) }
    ensures other { OnFalse result (¬ IsRewritten (text_row entry.now) text.now (text_row other.now)) }
{
    is_same(other.origin.as_str(), entry.origin.as_str())
        && other.kind == entry.kind
        && is_same(other.text, text)
}

/// Returns whether filtersets have the paths and kinds of others, and these texts.
fn are_rewritten(entries: &[TextEntry<'_>], texts: &[&str], others: &[TextEntry<'_>]) -> bool
    requires { length texts.now ≡ length entries.now }
    ensures are { OnTrue result (AreRewritten (map text_row entries.now) (map (λ t. t.now) texts.now)
        (map text_row others.now)) }
    ensures others { OnFalse result (¬ AreRewritten (map text_row entries.now) (map (λ t. t.now) texts.now)
        (map text_row others.now)) }
{
    if entries.len() != others.len() {
        return false;
    }
    for (i, other) in others.iter().enumerate() {
        if !is_rewritten(&entries[i], texts[i], other) {
            return false;
        }
    }
    true
}

/// Returns whether a document holds the same as another, but with these texts.
fn has_texts(
    alloc: Global,
    content: Content<'_, '_>,
    texts: &[&str],
    other: Content<'_, '_>,
) -> Result<bool, AllocError>
    requires { length texts.now ≡ length content.entries.now }
    ensures { IfOk result (λ answer. Decides answer
        (HasTexts (content_row content.entry) (map (λ t. t.now) texts.now) (content_row other.entry))) }
{
    let groups = group_names(alloc, content)?;
    let others = group_names(alloc, other)?;
    let are_same = others.as_slice() == groups.as_slice();
    if !are_same {
        return Ok(false);
    }
    Ok(are_rewritten(content.entries, texts, other.entries))
}

/// Returns whether a text is a document that holds the same as another, but with these texts.
pub fn becomes(
    alloc: Global,
    content: Content<'_, '_>,
    texts: &[&str],
    after: &str,
) -> Result<bool, AllocError>
    requires { length texts.now ≡ length content.entries.now }
    ensures { IfOk result (Becomes (content_row content.entry) (map (λ t. t.now) texts.now) after.now) }
{
    let is_list = content.groups.is_none();
    match OpenDocument::read(alloc, after, is_list) {
        Ok(document) => {
            let entries = document.filtersets.entries(alloc)?;
            has_texts(alloc, content, texts, document.content(entries.as_slice()))
        }
        Err(SourceRefusal::OutOfMemory(refused)) => Err(refused),
        Err(_) => Ok(false),
    }
}

// Names of files, and their lexical normal form.
ghost use Rattle.std.specs.Prelude.{◌≡◌, if◌then◌else◌, [], ◌∷◌, ◌++◌, List, ℕ, map, IfOk, OnOk, option_map, reverse, string_bytes};
ghost use Rattle.pf_io.specs.Names.{SLASH};
ghost use Rattle.manifest_model.specs.Names.{normal, normal_parts, is_absolute, is_here, ABOVE, go_above, go, behind, name_of, file_name, is_name, ends_in_slash};

use pf_io::{Memory, Text, is_name};
use std::alloc::Global;

/// Whether the name is absolute.
pub(crate) fn is_absolute(name: &str) -> bool
    ensures { result ≡ is_absolute name.now }
{
    matches!(name.as_bytes(), [b'/', ..])
}

// A part that names the folder it stands in.
fn is_here(part: &str) -> bool
    ensures { result ≡ is_here part.now }
{
    part.is_empty() || part == "."
}

// A part `..` behind those that are kept.
fn go_above<'a>(kept: &mut Vec<&'a str>, absolute: bool, part: &'a str) -> Result<(), Memory>
    requires { part.now ≡ ABOVE }
    ensures { OnOk result (reverse (map (λ p. p.now) kept.new.items) ≡ go_above absolute (reverse (map (λ p. p.now) kept.old.items))) }
{
    match kept.last().copied() {
        None if absolute => Ok(()),
        Some(last) if last != ".." => {
            kept.pop();
            Ok(())
        }
        None => Ok(kept.push(part)?),
        Some(_) => Ok(kept.push(part)?),
    }
}

// One more part behind those that are kept.
fn go<'a>(kept: &mut Vec<&'a str>, absolute: bool, part: &'a str) -> Result<(), Memory>
    ensures { OnOk result (reverse (map (λ p. p.now) kept.new.items) ≡ go absolute (reverse (map (λ p. p.now) kept.old.items)) part.now) }
{
    if is_here(part) {
        return Ok(());
    }
    if part == ".." {
        return go_above(kept, absolute, part);
    }
    kept.push(part)?;
    Ok(())
}

// The parts of a name's normal form.
fn normal_parts<'a>(alloc: Global, absolute: bool, name: &'a str) -> Result<Vec<&'a str>, Memory>
    requires { absolute ≡ is_absolute name.now }
    ensures { IfOk result (λ kept. map (λ p. p.now) kept.items ≡ normal_parts name.now) }
{
    let parts: Vec<&str> = name.split('/').collect(alloc)?;
    let mut kept = Vec::new(alloc);
    for part in &parts {
        go(&mut kept, absolute, part)?;
    }
    Ok(kept)
}

// What stands before the first part.
fn lead(absolute: bool) -> &'static str
    ensures { result.now ≡ (if absolute then SLASH ∷ [] else []) }
{
    if absolute { "/" } else { "" }
}

// A name of no parts.
fn no_parts(absolute: bool) -> &'static str
    ensures { result.now ≡ name_of absolute [] }
{
    if absolute { "/" } else { "." }
}

// Writes parts to the end of a name, each behind a slash.
fn push_behind(name: &mut String, parts: &[&str]) -> Result<(), Memory>
    ensures { OnOk result (string_bytes name.new ≡ string_bytes name.old ++ behind (map (λ p. p.now) parts.now)) }
{
    for part in parts {
        name.push_str("/")?;
        name.push_str(part)?;
    }
    Ok(())
}

// Parts as a name.
fn joined(alloc: Global, absolute: bool, parts: &[&str]) -> Result<String, Memory>
    ensures { IfOk result (λ name. string_bytes name ≡ name_of absolute (map (λ p. p.now) parts.now)) }
{
    match parts {
        [] => Ok(String::from_str(alloc, no_parts(absolute))?),
        [first, others @ ..] => {
            let mut name = String::from_str(alloc, lead(absolute))?;
            name.push_str(first)?;
            push_behind(&mut name, others)?;
            Ok(name)
        }
    }
}

/// The lexical normal form of a name: split at `/`, without empty parts and `.`, each `..` taken together with the part
/// before it. At the front of an absolute name `..` is dropped, at the front of another it stays. Without parts it is
/// `/` for an absolute name, and else `.`.
pub fn normal_name(alloc: Global, name: &str) -> Result<Text, Memory>
    ensures { IfOk result (λ made. made ≡ normal name.now) }
{
    let absolute = is_absolute(name);
    let kept = normal_parts(alloc, absolute, name)?;
    let name = joined(alloc, absolute, kept.as_slice())?;
    Ok(Text::from(name))
}

/// What follows `file:` in a uri.
pub(crate) fn file_name(uri: &str) -> Option<&str>
    ensures { option_map (λ name. name.now) result ≡ file_name uri.now }
{
    if uri.as_bytes().starts_with(b"file:") {
        Some(&uri[5..])
    } else {
        None
    }
}

/// Whether the text ends in a slash.
pub(crate) fn ends_in_slash(name: &str) -> bool
    ensures { result ≡ ends_in_slash name.now }
{
    name.as_bytes().ends_with(b"/")
}

/// Whether the text names a file of a host.
pub(crate) fn names_file(name: &str) -> bool
    ensures { result ≡ is_name name.now }
{
    is_name(name)
}

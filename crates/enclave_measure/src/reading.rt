// The two forms of a layout's lines.
ghost use Rattle.std.specs.Prelude.{◌≡◌, ℕ, [], ◌∷◌, IfOk, MatchOption, codes};
ghost use Rattle.enclave_measure.specs.declared.page.Page.{Page as Listing};
ghost use Rattle.enclave_measure.specs.declared.page.Source.{Source as Origin};
ghost use Rattle.enclave_measure.specs.Words.{shown};
ghost use Rattle.enclave_measure.specs.Pages.{IsEnclaveLine, AreEnclaveWords, IsSource, IsPageLine, ArePageWords};

use crate::fields::{read_fields, read_u32};
use crate::hexadecimal::read_hex;
use crate::page::{Page, Source};
use crate::words::{after_word, words_of};
use pf_io::{Memory, Text, is_name};
use std::alloc::Global;

/// The size and the frame pages that a line `enclave SIZE SSA` spells.
pub(crate) fn read_enclave(alloc: Global, line: &[u8]) -> Result<Option<(u64, u32)>, Memory>
    ensures { IfOk result (λ found. MatchOption found
        ((size ssa : ℕ) → ¬ (IsEnclaveLine line.now size ssa))
        (λ numbers. IsEnclaveLine line.now numbers.0 numbers.1)) }
{
    let words = words_of(alloc, line)?;
    Ok(enclave_of(words.as_slice()))
}

fn enclave_of(words: &[&[u8]]) -> Option<(u64, u32)>
    ensures { MatchOption result ((size ssa : ℕ) → ¬ (AreEnclaveWords (shown words.now) size ssa)) (λ numbers. AreEnclaveWords (shown words.now) numbers.0 numbers.1) }
{
    let [size, ssa] = after_word(words, b"enclave")? else {
        return None;
    };
    let size = read_hex(size)?;
    let ssa = read_u32(ssa)?;
    Some((size, ssa))
}

fn read_file(alloc: Global, name: &[u8], at: &[u8]) -> Result<Option<Source>, Memory>
    ensures { IfOk result (λ found. MatchOption found
        ((source : Origin) → ¬ (IsSource (codes "file" ∷ name.now ∷ at.now ∷ []) source))
        (IsSource (codes "file" ∷ name.now ∷ at.now ∷ []))) }
{
    let Ok(name) = str::from_utf8(name) else {
        return Ok(None);
    };
    if !is_name(name) {
        return Ok(None);
    }
    let Some(at) = read_u32(at) else {
        return Ok(None);
    };
    let name = Text::copy(alloc, name)?;
    Ok(Some(Source::File { name, at }))
}

fn read_source(alloc: Global, words: &[&[u8]]) -> Result<Option<Source>, Memory>
    ensures { IfOk result (λ found. MatchOption found
        ((source : Origin) → ¬ (IsSource (shown words.now) source))
        (IsSource (shown words.now))) }
{
    if let Some([]) = after_word(words, b"zero") {
        return Ok(Some(Source::Zero));
    }
    let Some([name, at]) = after_word(words, b"file") else {
        return Ok(None);
    };
    read_file(alloc, name, at)
}

fn page_of(alloc: Global, words: &[&[u8]]) -> Result<Option<Page>, Memory>
    ensures { IfOk result (λ found. MatchOption found
        ((page : Listing) → ¬ (ArePageWords (shown words.now) page))
        (ArePageWords (shown words.now))) }
{
    let Some([offset, permissions, page_type, measured, source @ ..]) = after_word(words, b"page")
    else {
        return Ok(None);
    };
    let Some(fields) = read_fields(offset, permissions, page_type, measured) else {
        return Ok(None);
    };
    let Some(source) = read_source(alloc, source)? else {
        return Ok(None);
    };
    Ok(Some(Page {
        offset: fields.offset,
        permissions: fields.permissions,
        page_type: fields.page_type,
        measured: fields.measured,
        source,
    }))
}

/// The page that a line `page OFFSET PERMS TYPE MEASURED SOURCE` spells.
pub(crate) fn read_page(alloc: Global, line: &[u8]) -> Result<Option<Page>, Memory>
    ensures { IfOk result (λ found. MatchOption found
        ((page : Listing) → ¬ (IsPageLine line.now page))
        (IsPageLine line.now)) }
{
    let words = words_of(alloc, line)?;
    page_of(alloc, words.as_slice())
}

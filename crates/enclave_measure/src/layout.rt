//! A layout of an enclave, as its lines list it.
ghost use Rattle.std.specs.Prelude.{◌≡◌, ◌⊎◌, true, false, ◌++◌, ◌+◌, ◌^◌, ◌<◌, ◌≤◌, ◌↔◌, [], ◌∷◌, List, ℕ, Result, IsTrue, MatchResult, IfOk, length, option_map, slice_get};
ghost use Rattle.enclave_measure.specs.declared.page.Page.{Page as Listing};
ghost use Rattle.enclave_measure.specs.declared.fault.LayoutFault.{LayoutFault as Fault};
ghost use Rattle.enclave_measure.specs.declared.fault.LayoutFault.TheVariants.{Memory as NoMemory, Repeated as IsRepeated};
ghost use Rattle.enclave_measure.specs.Lines.{read_after};
ghost use Rattle.enclave_measure.specs.Pages.{Listed, IsInside, IsEnclaveLine, IsSize, IsPageLine};
ghost use Rattle.enclave_measure.specs.Layouts.{has_offset, ListPages, RefusesEnclave, RefusesPage, FirstRefused, ReadsTo};
ghost use Rattle.enclave_measure.specs.Collecting.{line_of, Tracks};
ghost use Rattle.enclave_measure.specs.Measuring.{file_at};

use crate::LayoutFault;
use crate::lines::{Line, next_line};
use crate::page::{Page, Source};
use crate::reading::{read_enclave, read_page};
use std::alloc::Global;
use std::collections::BTreeSet;
use std::marker::Model;

const PAGE: u64 = 4096;

/// A layout of an enclave. Contracts see its size, the pages of a state save area's frame, and its pages, each with the
/// fields of its line.
#[derive(Drop)]
pub struct Layout {
    pub(crate) size: u64,
    pub(crate) ssa: u32,
    pub(crate) pages: Vec<Page>,
}

impl Model for Layout {
    ghost use Rattle.std.specs.Prelude.{◌^◌, ◌≤◌};
    ghost use Rattle.std.specs.List.{AllByRecursion};
    ghost use Rattle.enclave_measure.specs.Pages.{Listed, IsInside};

    ghost Value = { Listed };

    ghost view = { λ l. record { size = l.size; ssa = l.ssa; pages = l.pages.items } };

    ghost invariant = { λ l. (l.size ≤ 2 ^ 40) × AllByRecursion (IsInside l.size) l.pages.items };
}

fn is_size(size: u64) -> bool
    ensures { IsTrue result ↔ IsSize size }
{
    size.is_power_of_two() && 1 << 12 <= size && size <= 1 << 40
}

// The size and the frame pages of the first line that is read.
fn take_enclave(alloc: Global, line: &Line<'_>) -> Result<(u64, u32), LayoutFault>
    ensures { MatchResult result
        (λ found. IsEnclaveLine line.now.bytes.now found.0 found.1 × IsSize found.0)
        (λ fault. (fault ≡ NoMemory) ⊎ RefusesEnclave (line_of line.now) fault) }
{
    let line_number = line.number;
    let Some((size, ssa)) = read_enclave(alloc, line.bytes)? else {
        return Err(LayoutFault::BadLine { line: line_number });
    };
    if !is_size(size) {
        return Err(LayoutFault::BadSize { line: line_number });
    }
    Ok((size, ssa))
}

// The page of a line, in an enclave of a size.
fn take_page(alloc: Global, size: u64, line: &Line<'_>) -> Result<Page, LayoutFault>
    requires { IsSize size }
    ensures { MatchResult result
        (λ page. IsPageLine line.now.bytes.now page × IsInside size page)
        (λ fault. (fault ≡ NoMemory) ⊎ ((earlier : List Listing) → RefusesPage size earlier (line_of line.now) fault)) }
{
    let Some(page) = read_page(alloc, line.bytes)? else {
        return Err(LayoutFault::BadLine { line: line.number });
    };
    if page.offset > size - PAGE {
        return Err(LayoutFault::OutOfRange { line: line.number });
    }
    Ok(page)
}

// Adds a page whose offset no earlier one has. The set has the offsets of the pages.
fn add_page(
    pages: &mut Vec<Page>,
    offsets: &mut BTreeSet<u64>,
    line: u32,
    page: Page,
) -> Result<(), LayoutFault>
    requires { Tracks offsets.old pages.old.items }
    ensures { MatchResult result
        (λ _. (pages.new.items ≡ pages.old.items ++ page ∷ []) × (has_offset page.offset pages.old.items ≡ false) × Tracks offsets.new pages.new.items)
        (λ fault. (fault ≡ NoMemory) ⊎ ((fault ≡ IsRepeated line) × (has_offset page.offset pages.old.items ≡ true))) }
{
    if !offsets.insert(page.offset)? {
        return Err(LayoutFault::Repeated { line });
    }
    pages.push(page)?;
    Ok(())
}

// The pages of a text that follows so many lines.
fn read_pages(alloc: Global, size: u64, text: &[u8], before: u32) -> Result<Vec<Page>, LayoutFault>
    requires size { IsSize size }
    requires few { before + length text.now < 2 ^ 32 }
    ensures { MatchResult result
        (λ pages. ListPages size (read_after before text.now) pages.items)
        (λ fault. (fault ≡ NoMemory) ⊎ FirstRefused size (read_after before text.now) fault) }
{
    let mut pages = Vec::new(alloc);
    let mut offsets = BTreeSet::new(alloc);
    let mut rest = text;
    let mut number = before;
    while let Ok(line) = next_line(rest, number) {
        let page = take_page(alloc, size, &line)?;
        add_page(&mut pages, &mut offsets, line.number, page)?;
        rest = line.rest;
        number = line.number;
    }
    Ok(pages)
}

impl Layout {
    /// Reads a layout of at most 4,194,304 bytes.
    ///
    /// The text is cut into lines at each line feed; lines are numbered from 1. Empty lines and lines that begin with `#`
    /// are skipped. The first other line is `enclave SIZE SSA`, and all others are
    /// `page OFFSET PERMS TYPE MEASURED SOURCE`, as docs/FORMAT.md says. The first line that is refused decides, and on
    /// one line `BadLine` comes before `BadSize`, `OutOfRange` and `Repeated`.
    pub fn read(alloc: Global, bytes: &[u8]) -> Result<Layout, LayoutFault>
        requires { length bytes.now ≤ 4194304 }
        ensures outcome { (result ≡ Err LayoutFault.Memory) ⊎ ReadsTo bytes.now result }
        ensures no_other { (outcome : Result Listed Fault) → ReadsTo bytes.now outcome → (result ≡ Err LayoutFault.Memory) ⊎ (result ≡ outcome) }
    {
        let first = match next_line(bytes, 0) {
            Ok(line) => line,
            Err(count) => return Err(LayoutFault::BadLine { line: count + 1 }),
        };
        let (size, ssa) = take_enclave(alloc, &first)?;
        let pages = read_pages(alloc, size, first.rest, first.number)?;
        Ok(Layout { size, ssa, pages })
    }

    /// The name of a page's file. `None` where there is no such page, or its source is `zero`.
    pub fn name(&self, page: usize) -> Option<&str>
        ensures { option_map (λ name. name.now) result ≡ file_at (slice_get self.now.pages page) }
    {
        match &self.pages.get(page)?.source {
            Source::Zero => None,
            Source::File { name, .. } => Some(name.as_str()),
        }
    }
}

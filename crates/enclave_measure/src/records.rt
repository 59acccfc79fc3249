// The records that a measurement is taken of.
ghost use Rattle.std.specs.Prelude.{◌≡◌, ◌<◌, ◌^◌, ◌++◌, List, ℕ};
ghost use Rattle.enclave_measure.specs.declared.page.Page.{Page as Listing};
ghost use Rattle.enclave_measure.specs.Records.{creation, flags, addition, extension};

use crate::page::{Page, PageType, Permissions};
use byteorder::{ByteOrder, LittleEndian};

/// ECREATE: the pages of a state save area's frame, and the size.
pub(crate) fn creation(size: u64, ssa: u32) -> [u8; 64]
    ensures { result ≡ creation size ssa }
{
    let mut record = [0; 64];
    record[..7].copy_from_slice(b"ECREATE");
    LittleEndian::write_u32(&mut record[8..], ssa);
    LittleEndian::write_u64(&mut record[12..], size);
    record
}

#[tactic(auto, unfolding(crate::specs::Records::flags))]
fn flags(permissions: Permissions, page_type: PageType) -> u64
    ensures { result ≡ flags permissions page_type }
{
    let read = if permissions.read { 1 } else { 0 };
    let write = if permissions.write { 2 } else { 0 };
    let execute = if permissions.execute { 4 } else { 0 };
    let number = match page_type {
        PageType::Tcs => 1,
        PageType::Reg => 2,
    };
    read + write + execute + 256 * number
}

/// EADD: the offset, and the first 48 bytes of SECINFO.
pub(crate) fn addition(page: &Page) -> [u8; 64]
    ensures { result ≡ addition page.now }
{
    let mut record = [0; 64];
    record[..4].copy_from_slice(b"EADD");
    LittleEndian::write_u64(&mut record[8..], page.offset);
    LittleEndian::write_u64(&mut record[16..], flags(page.permissions, page.page_type));
    record
}

/// The first 64 bytes of EEXTEND, which the chunk at the offset follows.
pub(crate) fn extension_head(offset: u64) -> [u8; 64]
    ensures { (chunk : List ℕ) → result ++ chunk ≡ extension offset chunk }
{
    let mut record = [0; 64];
    record[..7].copy_from_slice(b"EEXTEND");
    LittleEndian::write_u64(&mut record[8..], offset);
    record
}

// The record of the calls that a host has answered.
ghost use Rattle.pf_io.specs.Host.{LengthWas, Gave, Wrote, WasCut, Synced, Made, Swapped, Removed};
ghost use Rattle.pf_fakes.specs.Recording.{answers_of, Records};

use std::alloc::{AllocError, Global};

#[derive(Drop)]
pub(crate) enum Recorded {
    Length(Vec<u8>, Option<u64>),
    Given(Vec<u8>, u64, usize, Vec<u8>),
    Write(Vec<u8>, u64, Vec<u8>),
    Cut(Vec<u8>, u64),
    Sync(Vec<u8>),
    Make(Vec<u8>),
    Swap(Vec<u8>, Vec<u8>),
    Remove(Vec<u8>),
}

pub(crate) fn record_length(
    alloc: Global,
    told: &mut Vec<Recorded>,
    name: &str,
    length: Option<u64>,
) -> Result<(), AllocError>
    ensures { Records result (LengthWas name.now length) told.old.items told.new.items }
{
    told.push(Recorded::Length(name.as_bytes().to_vec(alloc)?, length))?;
    Ok(())
}

pub(crate) fn record_bytes(
    alloc: Global,
    told: &mut Vec<Recorded>,
    name: &str,
    at: u64,
    room: usize,
    bytes: Vec<u8>,
) -> Result<(), AllocError>
    ensures { Records result (Gave name.now at room bytes.items) told.old.items told.new.items }
{
    told.push(Recorded::Given(name.as_bytes().to_vec(alloc)?, at, room, bytes))?;
    Ok(())
}

pub(crate) fn record_write(
    alloc: Global,
    told: &mut Vec<Recorded>,
    name: &str,
    at: u64,
    from: &[u8],
) -> Result<(), AllocError>
    ensures { Records result (Wrote name.now at from.now) told.old.items told.new.items }
{
    let name = name.as_bytes().to_vec(alloc)?;
    told.push(Recorded::Write(name, at, from.to_vec(alloc)?))?;
    Ok(())
}

pub(crate) fn record_cut(
    alloc: Global,
    told: &mut Vec<Recorded>,
    name: &str,
    len: u64,
) -> Result<(), AllocError>
    ensures { Records result (WasCut name.now len) told.old.items told.new.items }
{
    told.push(Recorded::Cut(name.as_bytes().to_vec(alloc)?, len))?;
    Ok(())
}

pub(crate) fn record_sync(
    alloc: Global,
    told: &mut Vec<Recorded>,
    name: &str,
) -> Result<(), AllocError>
    ensures { Records result (Synced name.now) told.old.items told.new.items }
{
    told.push(Recorded::Sync(name.as_bytes().to_vec(alloc)?))?;
    Ok(())
}

pub(crate) fn record_make(
    alloc: Global,
    told: &mut Vec<Recorded>,
    name: &str,
) -> Result<(), AllocError>
    ensures { Records result (Made name.now) told.old.items told.new.items }
{
    told.push(Recorded::Make(name.as_bytes().to_vec(alloc)?))?;
    Ok(())
}

pub(crate) fn record_swap(
    alloc: Global,
    told: &mut Vec<Recorded>,
    from: &str,
    to: &str,
) -> Result<(), AllocError>
    ensures { Records result (Swapped from.now to.now) told.old.items told.new.items }
{
    let from = from.as_bytes().to_vec(alloc)?;
    told.push(Recorded::Swap(from, to.as_bytes().to_vec(alloc)?))?;
    Ok(())
}

pub(crate) fn record_remove(
    alloc: Global,
    told: &mut Vec<Recorded>,
    name: &str,
) -> Result<(), AllocError>
    ensures { Records result (Removed name.now) told.old.items told.new.items }
{
    told.push(Recorded::Remove(name.as_bytes().to_vec(alloc)?))?;
    Ok(())
}

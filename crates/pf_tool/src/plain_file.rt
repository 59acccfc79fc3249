// Plain files that a command writes.
ghost use Rattle.pf_tool.specs.World.{World, with_host};
ghost use Rattle.pf_tool.specs.Outcomes.{ComesOut};
ghost use Rattle.pf_tool.specs.PlainFiles.{WritesWhole, LeavesWhole};

use crate::fault::Fault;
use pf_io::{Host, Text, write_by_side_file};
use std::alloc::Global;

/// Gives a name a plain file of these bytes. A crash at any moment leaves the name as it was or with all of them, the latter
/// only once the side file was to take the name; no other name but the side file's changes.
pub(crate) fn write_plain_file<H: Host>(
    alloc: Global,
    host: &mut H,
    output: &str,
    bytes: &[u8],
) -> Result<(), Fault<'static>>
    ensures { (world : World) → ComesOut (WritesWhole output.now bytes.now) (LeavesWhole output.now bytes.now) result (with_host world (H.state host.old)) (with_host world (H.state host.new)) }
{
    let side = Text::joined(alloc, output, ".new")?;
    write_by_side_file(host, output, side.as_str(), bytes)?;
    Ok(())
}

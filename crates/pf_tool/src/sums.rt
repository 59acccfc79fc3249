// The command `sums`.
ghost use Rattle.std.specs.Prelude.{Some, None, option_map};
ghost use Rattle.manifest_model.specs.Summed.{FitSums};
ghost use Rattle.pf_tool.specs.World.{World, with_host, with_out};
ghost use Rattle.pf_tool.specs.Outcomes.{ComesOut};
ghost use Rattle.pf_tool.specs.Summing.{WritesSums, LeavesSums, SumsLead, SumsLeave};

use crate::fault::Fault;
use crate::manifest::fits_output;
use crate::plain_file::write_plain_file;
use crate::sum_files::{lines_of, read_manifest, sum_files};
use crate::text_output::put_text;
use crate::why::Why;
use crate::words::Sums;
use manifest_model::Manifest;
use pf_io::{Host, Sink};
use std::alloc::Global;

// Writes the lines of the sums to the output, and then the manifest with the sums to a file.
fn write_lines_and_file<H: Host, K: Sink>(
    alloc: Global,
    host: &mut H,
    out: &mut K,
    output: &str,
    manifest: &Manifest,
    sums: &[[u8; 32]],
) -> Result<(), Fault<'static>>
    requires { FitSums manifest.now.lists.trusted sums.now }
    ensures { (world : World) → ComesOut (WritesSums (Some output.now) manifest.now sums.now) (LeavesSums (Some output.now) manifest.now sums.now) result
        (with_out (with_host world (H.state host.old)) (K.state out.old)) (with_out (with_host world (H.state host.new)) (K.state out.new)) }
{
    let lines = lines_of(alloc, manifest, sums)?;
    let summed = manifest.with_sums(alloc, sums)?;
    let text = summed.print(alloc)?;
    put_text(out, lines.as_str().as_bytes())?;
    write_plain_file(alloc, host, output, text.as_str().as_bytes())
}

// Writes the lines of the sums to the output.
fn write_lines<K: Sink>(
    alloc: Global,
    out: &mut K,
    manifest: &Manifest,
    sums: &[[u8; 32]],
) -> Result<(), Fault<'static>>
    requires { FitSums manifest.now.lists.trusted sums.now }
    ensures { (world : World) → ComesOut (WritesSums None manifest.now sums.now) (LeavesSums None manifest.now sums.now) result (with_out world (K.state out.old)) (with_out world (K.state out.new)) }
{
    let lines = lines_of(alloc, manifest, sums)?;
    put_text(out, lines.as_str().as_bytes())
}

// Writes the lines of the sums, and the manifest with the sums where a file is given for it.
fn write_summed<H: Host, K: Sink>(
    alloc: Global,
    host: &mut H,
    out: &mut K,
    output: Option<&str>,
    manifest: &Manifest,
    sums: &[[u8; 32]],
) -> Result<(), Fault<'static>>
    requires { FitSums manifest.now.lists.trusted sums.now }
    ensures { (world : World) → ComesOut (WritesSums (option_map (λ name. name.now) output.entry) manifest.now sums.now) (LeavesSums (option_map (λ name. name.now) output.entry) manifest.now sums.now) result
        (with_out (with_host world (H.state host.old)) (K.state out.old)) (with_out (with_host world (H.state host.new)) (K.state out.new)) }
{
    match output {
        Some(output) => write_lines_and_file(alloc, host, out, output, manifest, sums),
        None => write_lines(alloc, out, manifest, sums),
    }
}

/// Writes a line for each file that a manifest trusts to `out`: its sum, which is the listed one or else that of its
/// bytes, and its uri. Where OUT is given, the manifest with all sums is then written to it by a side file, so that a
/// crash at any moment leaves OUT as it was or whole.
///
/// All files are summed before the first line goes out, and no file is read after the first that is refused.
pub(crate) fn write_sums<'a, H: Host, K: Sink>(
    alloc: Global,
    host: &mut H,
    command: &Sums<'a>,
    out: &mut K,
) -> Result<(), Fault<'a>>
    ensures { (world : World) → ComesOut (SumsLead command.now.manifest.now (option_map (λ name. name.now) command.now.output)) (SumsLeave command.now.manifest.now (option_map (λ name. name.now) command.now.output)) result
        (with_out (with_host world (H.state host.old)) (K.state out.old)) (with_out (with_host world (H.state host.new)) (K.state out.new)) }
{
    if !fits_output(command.output) {
        return Err(Fault::Refused(Why::BadName));
    }
    let manifest = read_manifest(alloc, host, command.manifest)?;
    let sums = sum_files(alloc, host, &manifest)?;
    write_summed(alloc, host, out, command.output, &manifest, sums.as_slice())
}

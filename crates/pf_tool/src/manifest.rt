// The command `manifest`.
ghost use Rattle.std.specs.Prelude.{◌↔◌, IsTrue, option_map};
ghost use Rattle.pf_tool.specs.World.{World, with_host, with_out};
ghost use Rattle.pf_tool.specs.Outcomes.{ComesOut};
ghost use Rattle.pf_tool.specs.Manifests.{FitsOutput, WritesText, LeavesText, ManifestLeads, ManifestLeaves};

use crate::fault::Fault;
use crate::input_file::read_input;
use crate::manifest_words::Manifest;
use crate::plain_file::write_plain_file;
use crate::rendering::render_manifest;
use crate::text_output::put_text;
use crate::why::Why;
use pf_io::{Host, Sink, is_target};
use std::alloc::Global;

/// Whether a file may be made under the name, where one is given.
pub(crate) fn fits_output(output: Option<&str>) -> bool
    ensures { IsTrue result ↔ FitsOutput (option_map (λ name. name.now) output.entry) }
{
    match output {
        Some(output) => is_target(output),
        None => true,
    }
}

// Writes a text to a file, where a name is given, and else to the output.
fn write_text<H: Host, K: Sink>(
    alloc: Global,
    host: &mut H,
    out: &mut K,
    output: Option<&str>,
    text: &[u8],
) -> Result<(), Fault<'static>>
    ensures { (world : World) → ComesOut (WritesText (option_map (λ name. name.now) output.entry) text.now) (LeavesText (option_map (λ name. name.now) output.entry) text.now) result
        (with_out (with_host world (H.state host.old)) (K.state out.old)) (with_out (with_host world (H.state host.new)) (K.state out.new)) }
{
    match output {
        Some(output) => write_plain_file(alloc, host, output, text),
        None => put_text(out, text),
    }
}

/// Renders a template with the values, and writes the text, where it is a manifest: to the output in pieces, or to OUT by a
/// side file, so that a crash at any moment leaves OUT as it was or whole.
pub(crate) fn write_manifest<'a, H: Host, K: Sink>(
    alloc: Global,
    host: &mut H,
    command: &Manifest<'a>,
    out: &mut K,
) -> Result<(), Fault<'a>>
    ensures { (world : World) → ComesOut (ManifestLeads command.now.values command.now.template.now (option_map (λ name. name.now) command.now.output)) (ManifestLeaves command.now.values command.now.template.now (option_map (λ name. name.now) command.now.output)) result
        (with_out (with_host world (H.state host.old)) (K.state out.old)) (with_out (with_host world (H.state host.new)) (K.state out.new)) }
{
    if !fits_output(command.output) {
        return Err(Fault::Refused(Why::BadName));
    }
    let bytes = read_input(alloc, host, command.template)?;
    let text = render_manifest(alloc, bytes.as_slice(), &command.values)?;
    write_text(alloc, host, out, command.output, text.as_str().as_bytes())
}

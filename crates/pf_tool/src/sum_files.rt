// The sums of the files that a manifest trusts.
ghost use Rattle.std.specs.Prelude.{◌≡◌, Option, IfOk, IfErr};
ghost use Rattle.manifest_model.specs.Summed.{FitSums};
ghost use Rattle.pf_io.specs.Disk.{Name};
ghost use Rattle.pf_io.specs.Host.{KeepsFiles};
ghost use Rattle.pf_io.specs.Unchanged.{KeepsDisk};
ghost use Rattle.pf_tool.specs.World.{World, with_host};
ghost use Rattle.pf_tool.specs.Faults.{sums_fault};
ghost use Rattle.pf_tool.specs.Outcomes.{Falls};
ghost use Rattle.pf_tool.specs.ManifestFiles.{ManifestRead, ManifestFails};
ghost use Rattle.pf_tool.specs.Summing.{sum_lines, FilesLead, FilesSummed};

use crate::fault::Fault;
use crate::input_file::read_input;
use crate::why::Why;
use file_sums::{AllFault, SumFault, Sums, sum_all, sum_line};
use manifest_model::Manifest;
use pf_io::{Host, Memory, Text};
use std::alloc::Global;

impl From<AllFault> for Fault<'_> {
    ghost from_gives = { λ fault turned. turned ≡ sums_fault fault };

    fn from(fault: AllFault) -> Self {
        match fault {
            AllFault::At { name, why } => match why {
                SumFault::NotFound => Fault::Refused(Why::Absent(name)),
                SumFault::TooLarge => Fault::Refused(Why::TooLarge),
                SumFault::Host => Fault::Host,
            },
            AllFault::Memory => Fault::Memory,
        }
    }
}

/// Reads a manifest from its file.
pub(crate) fn read_manifest<'a, H: Host>(
    alloc: Global,
    host: &mut H,
    name: &'a str,
) -> Result<Manifest, Fault<'a>>
    ensures files { KeepsFiles (H.state host.old) (H.state host.new) }
    ensures disk { KeepsDisk (H.state host.old) (H.state host.new) }
    ensures read { IfOk result (λ manifest. (world : World) → ManifestRead name.now manifest (with_host world (H.state host.old)) (with_host world (H.state host.new))) }
    ensures fails { IfErr result (λ fault. (world : World) → ManifestFails name.now fault (with_host world (H.state host.old)) (with_host world (H.state host.new))) }
{
    let bytes = read_input(alloc, host, name)?;
    match Manifest::read(alloc, bytes.as_slice()) {
        Ok(manifest) => Ok(manifest),
        Err(fault) => Err(Fault::from(fault)),
    }
}

/// Sums the files of a manifest.
pub(crate) fn sum_files<H: Host>(
    alloc: Global,
    host: &mut H,
    manifest: &Manifest,
) -> Result<Sums, Fault<'static>>
    ensures files { KeepsFiles (H.state host.old) (H.state host.new) }
    ensures disk { KeepsDisk (H.state host.old) (H.state host.new) }
    ensures fit { IfOk result (λ sums. FitSums manifest.now.lists.trusted sums) }
    ensures summed { IfOk result (λ sums. FilesSummed manifest.now.lists.trusted sums (H.state host.old) (H.state host.new)) }
    ensures fails { IfErr result (λ fault. (output : Option Name) (world : World) → Falls (FilesLead output manifest.now) (λ _ _. KeepsDisk) fault (with_host world (H.state host.old)) (with_host world (H.state host.new))) }
{
    match sum_all(alloc, host, manifest) {
        Ok(sums) => Ok(sums),
        Err(fault) => Err(Fault::from(fault)),
    }
}

/// The lines of the sums, one for each trusted file, in their order.
pub(crate) fn lines_of(
    alloc: Global,
    manifest: &Manifest,
    sums: &[[u8; 32]],
) -> Result<Text, Memory>
    requires { FitSums manifest.now.lists.trusted sums.now }
    ensures { IfOk result (λ lines. lines ≡ sum_lines manifest.now.lists.trusted sums.now) }
{
    let mut lines = String::new(alloc);
    for k in 0..sums.len() {
        let entry = manifest.trusted(k);
        let line = sum_line(alloc, &sums[k], entry.uri.as_str())?;
        lines.push_str(line.as_str())?;
    }
    Ok(Text::from(lines))
}

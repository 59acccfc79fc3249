// Templates that are not rendered, and texts that are no manifests or no layouts: what is said of them.
ghost use Rattle.std.specs.Prelude.{◌≡◌};
ghost use Rattle.pf_tool.specs.Endings.{line, template_text, manifest_text, layout_text};
ghost use Rattle.pf_tool.specs.Faults.{template_fault, manifest_fault, layout_fault};
ghost use Rattle.pf_tool.specs.Reports.{Written};

use crate::fault::Fault;
use crate::lines::{write_name, write_name_number, write_number, write_text};
use crate::why::Why;
use enclave_measure::LayoutFault;
use manifest_model::ManifestFault;
use pf_io::{Sink, StreamFault};
use template_text::RenderFault;

impl From<RenderFault> for Fault<'_> {
    ghost from_gives = { λ fault turned. turned ≡ template_fault fault };

    fn from(fault: RenderFault) -> Self {
        match fault {
            RenderFault::Memory => Fault::Memory,
            fault => Fault::Refused(Why::BadTemplate(fault)),
        }
    }
}

impl From<ManifestFault> for Fault<'_> {
    ghost from_gives = { λ fault turned. turned ≡ manifest_fault fault };

    fn from(fault: ManifestFault) -> Self {
        match fault {
            ManifestFault::Memory => Fault::Memory,
            fault => Fault::Refused(Why::BadManifest(fault)),
        }
    }
}

impl From<LayoutFault> for Fault<'_> {
    ghost from_gives = { λ fault turned. turned ≡ layout_fault fault };

    fn from(fault: LayoutFault) -> Self {
        match fault {
            LayoutFault::Memory => Fault::Memory,
            fault => Fault::Refused(Why::BadLayout(fault)),
        }
    }
}

/// Writes the line that names why a template is not rendered.
pub(crate) fn say_template<L: Sink>(fault: &RenderFault, log: &mut L) -> Result<(), StreamFault>
    ensures { Written result (line (template_text fault.now)) (L.state log.old) (L.state log.new) }
{
    match fault {
        RenderFault::Unclosed { at } => {
            write_number(log, "refused template unclosed at ", *at as u64, "")
        }
        RenderFault::BadName { at } => {
            write_number(log, "refused template name at ", *at as u64, "")
        }
        RenderFault::Unknown { at, name } => write_name_number(
            log,
            "refused template unknown ",
            name.as_str(),
            " at ",
            *at as u64,
        ),
        RenderFault::Statement { at } => {
            write_number(log, "refused template statement at ", *at as u64, "")
        }
        RenderFault::TooLong { at } => {
            write_number(log, "refused template too long at ", *at as u64, "")
        }
        RenderFault::Memory => write_text(log, "want of memory"),
    }
}

/// Writes the line that names why a text is no manifest.
pub(crate) fn say_manifest<L: Sink>(fault: &ManifestFault, log: &mut L) -> Result<(), StreamFault>
    ensures { Written result (line (manifest_text fault.now)) (L.state log.old) (L.state log.new) }
{
    match fault {
        ManifestFault::NotToml => write_text(log, "refused manifest not toml"),
        ManifestFault::BadField { key } => write_name(log, "refused manifest field ", key.as_str()),
        ManifestFault::BadUri { uri } => write_name(log, "refused manifest uri ", uri.as_str()),
        ManifestFault::BadSum { uri } => write_name(log, "refused manifest sum ", uri.as_str()),
        ManifestFault::TwoSums { uri } => {
            write_name(log, "refused manifest two sums ", uri.as_str())
        }
        ManifestFault::BadKey { name } => write_name(log, "refused manifest key ", name.as_str()),
        ManifestFault::BadPolicy { text } => {
            write_name(log, "refused manifest policy ", text.as_str())
        }
        ManifestFault::Memory => write_text(log, "want of memory"),
    }
}

/// Writes the line that names why a text is no layout.
pub(crate) fn say_layout<L: Sink>(fault: &LayoutFault, log: &mut L) -> Result<(), StreamFault>
    ensures { Written result (line (layout_text fault.now)) (L.state log.old) (L.state log.new) }
{
    match fault {
        LayoutFault::BadLine { line } => {
            write_number(log, "refused layout line ", *line as u64, "")
        }
        LayoutFault::BadSize { line } => {
            write_number(log, "refused layout line ", *line as u64, " size")
        }
        LayoutFault::OutOfRange { line } => {
            write_number(log, "refused layout line ", *line as u64, " out of range")
        }
        LayoutFault::Repeated { line } => {
            write_number(log, "refused layout line ", *line as u64, " repeated")
        }
        LayoutFault::Memory => write_text(log, "want of memory"),
    }
}

// Why a command is refused, and what it then says.
ghost use Rattle.pf_tool.specs.Endings.{line, refusal_text};
ghost use Rattle.pf_tool.specs.Faults.{refusal_of};
ghost use Rattle.pf_tool.specs.Reports.{Written};

use crate::lines::{write_name, write_number, write_text, write_version};
use crate::text_refusals::{say_layout, say_manifest, say_template};
use enclave_measure::LayoutFault;
use manifest_model::ManifestFault;
use pf_io::{Sink, StreamFault, Text};
use template_text::RenderFault;

/// Why a command is refused.
#[derive(Drop)]
pub(crate) enum Why<'a> {
    /// A name of the command line is none that it may be.
    BadName,
    /// No file has this name.
    NotFound(&'a str),
    /// The key file has another number of bytes than 16.
    KeyFile(u64),
    /// The file is no protected file.
    NotProtected,
    /// The protected file has another version than 1.0.
    BadVersion { major: u8, minor: u8 },
    /// The file has more bytes than it may have.
    TooLarge,
    /// The template is no UTF-8.
    NotUtf8,
    /// The template is not rendered.
    BadTemplate(RenderFault),
    /// The text is no manifest.
    BadManifest(ManifestFault),
    /// The text is no layout of an enclave.
    BadLayout(LayoutFault),
    /// A file that an input lists is absent.
    Absent(Text),
    /// The case is not built yet.
    Unbuilt,
}

impl Why<'_> {
    /// Writes the line that names it. No memory is taken for it.
    pub(crate) fn say<L: Sink>(&self, log: &mut L) -> Result<(), StreamFault>
        ensures { Written result (line (refusal_text (refusal_of self.now))) (L.state log.old) (L.state log.new) }
    {
        match self {
            Why::BadName => write_text(log, "refused bad name"),
            Why::NotFound(name) => write_name(log, "refused not found ", name),
            Why::KeyFile(number) => write_number(log, "refused key file ", *number, ""),
            Why::NotProtected => write_text(log, "refused not protected"),
            Why::BadVersion { major, minor } => {
                write_version(log, "refused version ", *major as u64, *minor as u64)
            }
            Why::TooLarge => write_text(log, "refused too large"),
            Why::NotUtf8 => write_text(log, "refused template not utf-8"),
            Why::BadTemplate(fault) => say_template(fault, log),
            Why::BadManifest(fault) => say_manifest(fault, log),
            Why::BadLayout(fault) => say_layout(fault, log),
            Why::Absent(name) => write_name(log, "refused not found ", name.as_str()),
            Why::Unbuilt => write_text(log, "refused unbuilt"),
        }
    }
}

// The rendering of a template to the text of a manifest.
ghost use Rattle.std.specs.Prelude.{IfOk, IfErr, Ok};
ghost use Rattle.pf_tool.specs.Rendering.{Renders, RenderFails};

use crate::defines::Defines;
use crate::fault::Fault;
use crate::why::Why;
use manifest_model::Manifest;
use pf_io::Text;
use std::alloc::Global;
use std::str;
use template_text::render;

/// The text that the bytes of a template are rendered to with these values, where it is a manifest.
pub(crate) fn render_manifest(
    alloc: Global,
    bytes: &[u8],
    values: &Defines<'_>,
) -> Result<Text, Fault<'static>>
    ensures text { IfOk result (λ text. Renders values.now bytes.now (Ok text)) }
    ensures fails { IfErr result (RenderFails values.now bytes.now) }
{
    let Ok(template) = str::from_utf8(bytes) else {
        return Err(Fault::Refused(Why::NotUtf8));
    };
    let pairs = values.to_pairs(alloc)?;
    let text = render(alloc, template, &pairs)?;
    Manifest::read(alloc, text.as_str().as_bytes())?;
    Ok(text)
}

// The words of the command `manifest`.
ghost use Rattle.std.specs.Prelude.{◌≡◌, IfSome, IfNone, MatchOption, Option, List, ℕ, option_map};
ghost use Rattle.template_text.specs.Rendering.{Values};
ghost use Rattle.pf_tool.specs.Texts.{texts};
ghost use Rattle.pf_tool.specs.Requests.{operands, AreOperands, AsksManifest};

use crate::defines::{Defines, cut_defines};
use crate::words::is_operand;

/// The words `manifest`, any number of `-D NAME=VALUE` and `-DNAME=VALUE`, TEMPLATE, and optionally OUT.
#[derive(Drop)]
pub struct Manifest<'a> {
    /// The values of names.
    pub values: Defines<'a>,
    /// The name of the template.
    pub template: &'a str,
    /// The name of the file that gets the text, where it is not the output.
    pub output: Option<&'a str>,
}

// TEMPLATE, and OUT where it is given.
fn operands_of(words: &[String]) -> Option<(&str, Option<&str>)>
    ensures { MatchOption result ((template : List ℕ) (output : Option (List ℕ)) → texts words.now ≡ operands template output → AreOperands template output → ⊥) (λ found. (texts words.now ≡ operands found.0.now (option_map (λ name. name.now) found.1)) × AreOperands found.0.now (option_map (λ name. name.now) found.1)) }
{
    match words {
        [template] if is_operand(template.as_str()) => Some((template.as_str(), None)),
        [template, output] if is_operand(template.as_str()) && is_operand(output.as_str()) => {
            Some((template.as_str(), Some(output.as_str())))
        }
        _ => None,
    }
}

/// The words of `manifest`, or `None` where they are none.
pub(crate) fn manifest_of(words: &[String]) -> Option<Manifest<'_>>
    ensures found { IfSome result (λ command. AsksManifest (texts words.now) command.values command.template.now (option_map (λ name. name.now) command.output)) }
    ensures none { IfNone result ((values : Values) (template : List ℕ) (output : Option (List ℕ)) → AsksManifest (texts words.now) values template output → ⊥) }
{
    let [command, behind @ ..] = words else {
        return None;
    };
    if command.as_str() != "manifest" {
        return None;
    }
    let (values, rest) = cut_defines(behind);
    let (template, output) = operands_of(rest)?;
    Some(Manifest {
        values,
        template,
        output,
    })
}

//! The parts of a template are one list, and rendering is a function.
ghost use Rattle.std.specs.Prelude.{◌≡◌, ℕ, List, Result};
ghost use Rattle.template_text.specs.declared.fault.RenderFault.{RenderFault};
ghost use Rattle.template_text.specs.Parts.{Part, ArePartsOf};
ghost use Rattle.template_text.specs.Rendering.{Values, RendersTo};

/// A text has one list of parts.
pub fn text_has_its_parts()
    ensures there { (text : List ℕ) → (parts : List Part) × ArePartsOf text parts }
    ensures no_others { (text : List ℕ) (parts others : List Part) → ArePartsOf text parts → ArePartsOf text others → parts ≡ others }
{}

/// A text with values has one outcome.
pub fn text_has_its_outcome()
    ensures there { (text : List ℕ) (values : Values) → (outcome : Result (List ℕ) RenderFault) × RendersTo text values outcome }
    ensures no_other { (text : List ℕ) (values : Values) (outcome other : Result (List ℕ) RenderFault) → RendersTo text values outcome → RendersTo text values other → outcome ≡ other }
{}

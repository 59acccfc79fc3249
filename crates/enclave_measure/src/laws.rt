//! A text has one outcome, and so have the answers to a measurement.
ghost use Rattle.std.specs.Prelude.{◌≡◌, ◌↔◌, ℕ, true, List, Result, Err};
ghost use Rattle.std.specs.List.{list_any};
ghost use Rattle.pf_io.specs.Host.{Answer};
ghost use Rattle.enclave_measure.specs.declared.fault.LayoutFault.{LayoutFault};
ghost use Rattle.enclave_measure.specs.declared.fault.MeasureFault.{MeasureFault};
ghost use Rattle.enclave_measure.specs.declared.fault.MeasureFault.TheVariants.{NotFound};
ghost use Rattle.enclave_measure.specs.Pages.{Listed};
ghost use Rattle.enclave_measure.specs.Layouts.{ReadsTo};
ghost use Rattle.enclave_measure.specs.Measuring.{Measures, IsDecided, is_absence};

/// Each text has an outcome, and no other: it lists one layout, or is refused for one cause.
pub fn text_has_one_outcome()
    ensures there { (text : List ℕ) → (outcome : Result Listed LayoutFault) × ReadsTo text outcome }
    ensures no_other { (text : List ℕ) (outcome other : Result Listed LayoutFault) → ReadsTo text outcome → ReadsTo text other → outcome ≡ other }
{}

/// `NotFound` comes exactly where one of the answers is that a file has no length.
pub fn absence_is_refused()
    ensures { (layout : Listed) (these : List Answer) (outcome : Result (List ℕ) MeasureFault) → Measures layout these outcome → ((page : ℕ) × (outcome ≡ Err (NotFound page))) ↔ (list_any is_absence these ≡ true) }
{}

/// The same answers lead to one outcome, where no call failed.
pub fn answers_have_one_outcome()
    ensures { (layout : Listed) (these : List Answer) (outcome other : Result (List ℕ) MeasureFault) → Measures layout these outcome → Measures layout these other → IsDecided outcome → IsDecided other → outcome ≡ other }
{}

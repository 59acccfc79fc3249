//! Names and tables computed by their definitions. Each function is a theorem, with nothing to do.
ghost use Rattle.manifest_model.specs.Examples.{NamesAreNormal, TablesAreRefused, TablesList};

/// Normal forms of names.
pub fn names()
    ensures { NamesAreNormal }
{}

/// The first refusal of small tables.
pub fn refusals()
    ensures { TablesAreRefused }
{}

/// What small tables list.
pub fn lists()
    ensures { TablesList }
{}

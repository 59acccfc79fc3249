//! What templates are rendered to, computed on small ones. Each function is a theorem, with nothing to do.
ghost use Rattle.template_text.specs.Examples.{HelloRenders, ValuesRender, RawRenders, RefusalsRender, NamesAre};

/// A comment, a value of two pairs, and newlines.
pub fn hello()
    ensures { HelloRenders }
{}

/// Values between blanks and braces, a value that has marks itself, and marks inside of a comment.
pub fn values_and_comments()
    ensures { ValuesRender }
{}

/// Raw text with marks, none, and a statement that only begins as `endraw`.
pub fn raw_text()
    ensures { RawRenders }
{}

/// Each kind of part that is refused, at its place.
pub fn refusals()
    ensures { RefusalsRender }
{}

/// Names of values, and texts that are none.
pub fn names()
    ensures { NamesAre }
{}

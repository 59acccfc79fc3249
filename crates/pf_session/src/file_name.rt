// The names of a session.
ghost use Rattle.std.specs.Prelude.{◌≡◌, cond};
ghost use Rattle.pf_io.specs.Names.{side_of};

use crate::session::Session;
use pf_io::Text;

/// The name, or where the file is made beside it the side name.
pub(crate) fn file_name<'a>(beside: bool, name: &'a Text, side: &'a Text) -> &'a str
    ensures { result.now ≡ cond beside side.now name.now }
{
    if beside { side.as_str() } else { name.as_str() }
}

impl Session {
    /// The name.
    pub(crate) fn own_name(&self) -> &str
        ensures { result.now ≡ self.now.name }
    {
        self.name.as_str()
    }

    /// The name of the file that is made beside the name.
    pub(crate) fn side_name(&self) -> &str
        ensures { result.now ≡ side_of self.now.name }
    {
        self.side.as_str()
    }
}

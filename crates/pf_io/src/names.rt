// Which texts name a file on a host.
ghost use Rattle.std.specs.Prelude.{◌≡◌, ◌↔◌, IsTrue};
ghost use Rattle.pf_io.specs.Names.{IsName, IsTarget, IsTargetPart, EndsIn, last_part};

const LONGEST: usize = 512;

/// Whether the text names a file: 1 to 512 bytes, none of them 0.
pub fn is_name(name: &str) -> bool
    ensures { IsTrue result ↔ IsName name.now }
{
    let bytes = name.as_bytes();
    !bytes.is_empty() && bytes.len() <= LONGEST && bytes.iter().all(|byte| *byte != 0)
}

// The part after the last '/'.
fn last_part(name: &[u8]) -> &[u8]
    ensures { result.now ≡ last_part name.now }
{
    let mut start = 0;
    for (i, byte) in name.iter().enumerate() {
        if *byte == b'/' {
            start = i + 1;
        }
    }
    &name[start..]
}

fn ends_in(part: &[u8], end: &[u8]) -> bool
    ensures { IsTrue result ↔ EndsIn end.now part.now }
{
    part.ends_with(end)
}

fn is_target_part(part: &[u8]) -> bool
    ensures { IsTrue result ↔ IsTargetPart part.now }
{
    !matches!(part, b"" | b"." | b"..") && !ends_in(part, b".recovery") && !ends_in(part, b".new")
}

/// Whether the text may name a protected file: it is a name, and the part after its last `/` is not empty, not `.`,
/// not `..`, and does not end in `.recovery` or `.new`.
pub fn is_target(name: &str) -> bool
    ensures { IsTrue result ↔ IsTarget name.now }
{
    is_name(name) && is_target_part(last_part(name.as_bytes()))
}

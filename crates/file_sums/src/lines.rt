// The line of a sum.
ghost use Rattle.std.specs.Prelude.{◌≡◌, IfOk};
ghost use Rattle.file_sums.specs.Lines.{sum_line};

use pf_io::{Memory, Text};
use std::alloc::Global;

/// The line of a sum: 64 lower-case hexadecimal digits, two spaces, the uri and a newline.
pub fn sum_line(alloc: Global, sum: &[u8; 32], uri: &str) -> Result<Text, Memory>
    ensures { IfOk result (λ line. line ≡ sum_line sum.now uri.now) }
{
    let mut line = hex::encode(alloc, &sum[..])?;
    line.push_str("  ")?;
    line.push_str(uri)?;
    line.push_str("\n")?;
    Ok(Text::from(line))
}

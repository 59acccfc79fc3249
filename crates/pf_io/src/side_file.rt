// Plain files written as a whole.
ghost use Rattle.std.specs.Prelude.{◌≢◌, OnOk, OnErr};
ghost use Rattle.pf_io.specs.Counts.{HasCause};
ghost use Rattle.pf_io.specs.SideFile.{WroteFile, FailedFile};
ghost use Rattle.pf_io.specs.SideSteps.{WritesPieces, FailedPieces, WroteSide, FailedSide};

use crate::{Host, HostFault};

// The most bytes of one write.
const PIECE: usize = 32_768;

// Writes the bytes into an empty side file.
fn write_pieces<H: Host>(host: &mut H, side: &str, bytes: &[u8]) -> Result<(), HostFault>
    ensures cause { HasCause (H.state host.old).faults (H.state host.new).faults result }
    ensures done { OnOk result (WritesPieces side.now bytes.now (H.state host.old) (H.state host.new)) }
    ensures failed { OnErr result (FailedPieces side.now bytes.now (H.state host.old) (H.state host.new)) }
{
    for count in 0..bytes.len().div_ceil(PIECE) {
        let start = count * PIECE;
        let piece = &bytes[start..bytes.len().min(start + PIECE)];
        host.write_at(side, start as u64, piece)?;
    }
    Ok(())
}

// Makes a side file of the bytes, which stays after a crash.
fn make_side_file<H: Host>(host: &mut H, side: &str, bytes: &[u8]) -> Result<(), HostFault>
    ensures cause { HasCause (H.state host.old).faults (H.state host.new).faults result }
    ensures done { OnOk result (WroteSide side.now bytes.now (H.state host.old) (H.state host.new)) }
    ensures failed { OnErr result (FailedSide side.now bytes.now (H.state host.old) (H.state host.new)) }
{
    host.make(side)?;
    write_pieces(host, side, bytes)?;
    host.sync(side)
}

/// Gives a name a plain file of these bytes: makes the side file, writes it in pieces of 32,768 bytes, syncs it, and
/// gives it the name. So a crash at any moment leaves the name as it was or whole, and whole only once the swap was
/// asked. A fault ends it at once, and may leave the side file behind.
pub fn write_by_side_file<H: Host>(
    host: &mut H,
    name: &str,
    side: &str,
    bytes: &[u8],
) -> Result<(), HostFault>
    requires { side.now ≢ name.now }
    ensures cause { HasCause (H.state host.old).faults (H.state host.new).faults result }
    ensures done { OnOk result (WroteFile name.now side.now bytes.now (H.state host.old) (H.state host.new)) }
    ensures failed { OnErr result (FailedFile name.now side.now bytes.now (H.state host.old) (H.state host.new)) }
{
    make_side_file(host, side, bytes)?;
    host.swap_name(side, name)
}

//! The copying of nodes.
ghost use Rattle.std.specs.Prelude.{◌≡◌, ◌≢◌, ◌<◌, ◌≤◌, ◌^◌, ◌∷◌, []};
ghost use Rattle.pf_io.specs.Counts.{HasCause};
ghost use Rattle.pf_io.specs.Host.{OnDisk};
ghost use Rattle.pf_io.specs.Moments.{Ran};
ghost use Rattle.pf_session.specs.Copying.{CopyGoes, CopyLeaves, clean_from, clean_below};
ghost use Rattle.pf_session.specs.Sealing.{LeavesOthers};
ghost use Rattle.pf_session.specs.Flushing.{host_part};

use crate::fault::FlushFault;
use node_layout::{Damage, Kind};
use pf_io::Host;

// Copies a node, all of whose bytes have to be there.
fn copy_node<H: Host>(host: &mut H, from: &str, to: &str, number: u64) -> Result<(), FlushFault>
    requires apart { from.now ≢ to.now }
    requires high { number < 2 ^ 30 }
    ensures goes { CopyGoes result from.now to.now (number ∷ []) (H.state host.old) (H.state host.new) }
    ensures cause { HasCause (H.state host.old).faults (H.state host.new).faults (host_part result) }
    ensures disk { OnDisk (H.state host.old) (H.state host.new) (Ran (LeavesOthers to.now) (CopyLeaves result from.now to.now (number ∷ []))) }
{
    let mut block = [0; 4096];
    let given = host.read_at(from, 4096 * number, &mut block)?;
    if given < 4096 {
        return Err(FlushFault::Damaged(Damage {
            node: number,
            kind: Kind::Short,
        }));
    }
    host.write_at(to, 4096 * number, &block)?;
    Ok(())
}

// Copies a node that is not dirty.
fn copy_where_clean<H: Host>(
    host: &mut H,
    from: &str,
    to: &str,
    dirty: &[u64],
    number: u64,
) -> Result<(), FlushFault>
    requires apart { from.now ≢ to.now }
    requires high { number < 2 ^ 30 }
    ensures goes { CopyGoes result from.now to.now (clean_from dirty.now number 1) (H.state host.old) (H.state host.new) }
    ensures cause { HasCause (H.state host.old).faults (H.state host.new).faults (host_part result) }
    ensures disk { OnDisk (H.state host.old) (H.state host.new) (Ran (LeavesOthers to.now) (CopyLeaves result from.now to.now (clean_from dirty.now number 1))) }
{
    if dirty.contains(&number) {
        return Ok(());
    }
    copy_node(host, from, to, number)
}

/// Copies the nodes from 1 on, of `count` in all, that are not dirty.
pub(crate) fn copy_clean<H: Host>(
    host: &mut H,
    from: &str,
    to: &str,
    dirty: &[u64],
    count: u64,
) -> Result<(), FlushFault>
    requires apart { from.now ≢ to.now }
    requires high { count ≤ 2 ^ 30 }
    ensures goes { CopyGoes result from.now to.now (clean_below dirty.now count) (H.state host.old) (H.state host.new) }
    ensures cause { HasCause (H.state host.old).faults (H.state host.new).faults (host_part result) }
    ensures disk { OnDisk (H.state host.old) (H.state host.new) (Ran (LeavesOthers to.now) (CopyLeaves result from.now to.now (clean_below dirty.now count))) }
{
    for number in 1..count {
        copy_where_clean(host, from, to, dirty, number)?;
    }
    Ok(())
}

//! Changes of a tree's content.
ghost use Rattle.std.specs.Prelude.{◌≡◌, ◌+◌, ◌*◌, ◌^◌, ◌≤◌, ℕ, max, length, replicate};
ghost use Rattle.pf_io.specs.Counts.{HasCause};
ghost use Rattle.pf_io.specs.Unchanged.{KeepsDisk};
ghost use Rattle.node_layout.specs.Places.{data_count};
ghost use Rattle.node_tree.specs.Fetching.{host_part};
ghost use Rattle.node_tree.specs.Marks.{MayChange};
ghost use Rattle.node_tree.specs.Putting.{IsPutting};
ghost use Rattle.node_tree.specs.Applying.{Step, Write, Size, from_of, to_of};
ghost use Rattle.node_tree.specs.Stepping.{Steps, StepsFew, StepDamageComes, BackedStep, StepsStanding, HonestStep};

use crate::change::{add_zeroed, count_below, drop_from, mark};
use crate::fault::TreeFault;
use crate::nodes::fetch_all;
use crate::numbers::touched;
use crate::putting::put_bytes_at;
use crate::tree::Tree;
use node_layout::node_count;
use pf_io::Host;

impl Tree {
    /// Writes at most 32,768 bytes into the content, from the byte at `at` on, which is at most its length; the end is at
    /// most 2^32. At most 48 nodes may be dirty or touched (`changed_count`).
    ///
    /// The touched nodes of the content that are not held are fetched from the host's file `name` in rising number before
    /// anything changes. `Damaged` names the first that is short or does not open under its entry. `Host` comes where a
    /// call of the host failed, and `Memory` is want of memory. After a refusal the content and the dirty nodes are as
    /// before; nodes that were fetched may stay held.
    pub fn write<H: Host>(
        &mut self,
        host: &mut H,
        name: &str,
        at: u64,
        from: &[u8],
    ) -> Result<(), TreeFault>
        requires few { length from.now ≤ 32768 }
        requires no_gap { at ≤ self.old.size }
        requires small { at + length from.now ≤ 2 ^ 32 }
        requires fits { MayChange self.old.dirty at (at + length from.now) }
        ensures steps { Steps result name.now (Write at from.now) self.old self.new (H.state host.old) (H.state host.new) }
        ensures cause { HasCause (H.state host.old).faults (H.state host.new).faults (host_part result) }
        ensures few { StepsFew (Write at from.now) self.old (H.state host.old) (H.state host.new) }
        ensures disk { KeepsDisk (H.state host.old) (H.state host.new) }
        ensures damage { StepDamageComes result name.now (Write at from.now) self.old (H.state host.old) (H.state host.new) }
        ensures backed { BackedStep result name.now (Write at from.now) self.old self.new (H.state host.old) (H.state host.new) }
        ensures standing { StepsStanding result name.now (Write at from.now) self.old self.new (H.state host.old) }
        ensures honest { HonestStep result name.now (Write at from.now) self.old self.new (H.state host.old) }
    {
        let size = self.size.max(at + from.len() as u64);
        self.change(host, name, at, from, size)
    }

    /// Makes the content `size` bytes long, at most 2^32 and at most 32,768 above its length. Bytes that come are zeros.
    /// At most 48 nodes may be dirty or touched (`changed_count` of the `resized_range`).
    ///
    /// The faults are those of `write`, and after a refusal the content and the dirty nodes are as before.
    pub fn resize<H: Host>(&mut self, host: &mut H, name: &str, size: u64) -> Result<(), TreeFault>
        requires small { size ≤ 2 ^ 32 }
        requires near { size ≤ self.old.size + 32768 }
        requires fits { MayChange self.old.dirty (from_of (Size size) self.old.size) (to_of (Size size) self.old.size) }
        ensures steps { Steps result name.now (Size size) self.old self.new (H.state host.old) (H.state host.new) }
        ensures cause { HasCause (H.state host.old).faults (H.state host.new).faults (host_part result) }
        ensures few { StepsFew (Size size) self.old (H.state host.old) (H.state host.new) }
        ensures disk { KeepsDisk (H.state host.old) (H.state host.new) }
        ensures damage { StepDamageComes result name.now (Size size) self.old (H.state host.old) (H.state host.new) }
        ensures backed { BackedStep result name.now (Size size) self.old self.new (H.state host.old) (H.state host.new) }
        ensures standing { StepsStanding result name.now (Size size) self.old self.new (H.state host.old) }
        ensures honest { HonestStep result name.now (Size size) self.old self.new (H.state host.old) }
    {
        let (from, end) = resized_range(self.size, size);
        let zeros = zeros();
        self.change(host, name, from, &zeros[..(end - from) as usize], size)
    }

    // Puts bytes into the content at a place, and makes it `size` bytes long.
    fn change<H: Host>(
        &mut self,
        host: &mut H,
        name: &str,
        at: u64,
        from: &[u8],
        size: u64,
    ) -> Result<(), TreeFault>
        requires few { length from.now ≤ 32768 }
        requires no_gap { at ≤ self.old.size }
        requires within { at ≤ size }
        requires small { size ≤ 2 ^ 32 }
        requires grows { size ≤ max self.old.size (at + length from.now) }
        requires live { at + length from.now ≤ max size (3072 + 4096 * data_count size) }
        requires fits { MayChange self.old.dirty at (at + length from.now) }
        requires putting { (step : Step) × IsPutting step self.old.size at from.now size }
        ensures steps { (step : Step) → IsPutting step self.old.size at from.now size → Steps result name.now step self.old self.new (H.state host.old) (H.state host.new) }
        ensures cause { HasCause (H.state host.old).faults (H.state host.new).faults (host_part result) }
        ensures few { (step : Step) → IsPutting step self.old.size at from.now size → StepsFew step self.old (H.state host.old) (H.state host.new) }
        ensures disk { KeepsDisk (H.state host.old) (H.state host.new) }
    {
        let numbers = touched(at, at + from.len() as u64);
        let live = count_below(&numbers, node_count(self.size));
        fetch_all(
            &mut self.nodes,
            &self.root,
            host,
            name,
            &numbers[..live],
            self.alloc,
        )?;
        add_zeroed(&mut self.nodes, &numbers[live..], self.alloc)?;
        mark(&mut self.nodes, &numbers);
        put_bytes_at(&mut self.first, &mut self.nodes, at, from);
        self.size = size;
        drop_from(&mut self.nodes, node_count(size));
        Ok(())
    }
}

// As many zeros as may come at once.
fn zeros() -> [u8; 32_768]
    ensures { result ≡ replicate 32768 0 }
{
    [0; 32_768]
}

/// The bytes that a resize concerns, from the first up to the second: those that come, or those that go of the last data
/// node that is left. Both lengths are at most 2^32.
pub fn resized_range(old: u64, new: u64) -> (u64, u64)
    requires old { old ≤ 2 ^ 32 }
    requires new { new ≤ 2 ^ 32 }
    ensures { result ≡ (from_of (Size new) old, to_of (Size new) old) }
{
    (old.min(new), new.max(old.min(data_end(new))))
}

// The end of the last data node of a content of this size.
fn data_end(size: u64) -> u64
    requires { size ≤ 2 ^ 32 }
    ensures { result ≡ 3072 + 4096 * data_count size }
{
    3072 + size.saturating_sub(3072).div_ceil(4096) * 4096
}

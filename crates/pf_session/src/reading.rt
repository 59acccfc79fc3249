// Reads of a session, and what it is.
ghost use Rattle.std.specs.Prelude.{◌≡◌, ◌≤◌, ◌^◌, IfOk, OnErr, length, is_some, false};
ghost use Rattle.pf_io.specs.Counts.{HasCause};
ghost use Rattle.pf_io.specs.Host.{KeepsRest};
ghost use Rattle.pf_io.specs.Unchanged.{KeepsDisk};
ghost use Rattle.node_tree.specs.Fetching.{host_part};
ghost use Rattle.node_tree.specs.Reading.{Reads, ReadsFew, DamageComes, HonestRead};
ghost use Rattle.node_tree.specs.State.{held_at};
ghost use Rattle.pf_session.specs.State.{file_of, IsSoundSession};
ghost use Rattle.pf_session.specs.Reading.{KeepsFields, BackedRead, UnforgedRead, ReadsStanding};

use crate::file_name::file_name;
use crate::session::Session;
use node_layout::PathText;
use node_tree::TreeFault;
use pf_io::Host;

impl Session {
    /// The length of the content in bytes, at most 2^32.
    pub fn size(&self) -> u64
        ensures same { result ≡ self.now.tree.size }
        ensures small { result ≤ 2 ^ 32 }
    {
        self.tree.size()
    }

    /// The nonce of the last sealing.
    pub fn nonce(&self) -> &[u8; 32]
        ensures { result.now ≡ self.now.nonce }
    {
        &self.nonce
    }

    /// The path that the file is stored under.
    pub fn path(&self) -> &PathText
        ensures { result.now ≡ self.now.path }
    {
        &self.path
    }

    /// Whether the content was changed since the last sealing.
    pub fn changed(&self) -> bool
        ensures { result ≡ self.now.changed }
    {
        self.changed
    }

    /// Whether a change or a sealing failed, after which the session may only be closed.
    pub fn broken(&self) -> bool
        ensures { result ≡ self.now.broken }
    {
        self.broken
    }

    /// Whether the file stands at the side name until it is published.
    pub fn beside(&self) -> bool
        ensures { result ≡ self.now.beside }
    {
        self.beside
    }

    /// How many nodes were changed since the last sealing, at most 48.
    pub fn dirty(&self) -> usize
        ensures same { result ≡ length self.now.tree.dirty }
        ensures sound { IsSoundSession self.now }
    {
        self.tree.dirty()
    }

    /// Whether the session holds the node of this number.
    pub fn holds(&self, number: u64) -> bool
        ensures { result ≡ is_some (held_at self.now.tree number) }
    {
        self.tree.holds(number)
    }

    /// Reads the content from the byte at `at` on, as far as `to`, of at most 32,768 bytes, and the content reach, and
    /// answers how many bytes.
    ///
    /// The touched nodes that are not held are fetched in rising number and opened. `Damaged` names the first that is short
    /// or does not open under its entry. `Host` comes where a call of the host failed, and `Memory` is want of memory. The
    /// content stays.
    pub fn read<H: Host>(
        &mut self,
        host: &mut H,
        at: u64,
        to: &mut [u8],
    ) -> Result<usize, TreeFault>
        requires whole { self.old.broken ≡ false }
        requires room { length to.old ≤ 32768 }
        ensures fields { KeepsFields self.old self.new }
        ensures reads { Reads result (file_of self.old) at to.new self.old.tree self.new.tree (H.state host.old) (H.state host.new) }
        ensures rest { IfOk result (λ n. KeepsRest n to.old to.new) }
        ensures unchanged { OnErr result (to.new ≡ to.old) }
        ensures cause { HasCause (H.state host.old).faults (H.state host.new).faults (host_part result) }
        ensures few { ReadsFew at (length to.old) self.old.tree (H.state host.old) (H.state host.new) }
        ensures disk { KeepsDisk (H.state host.old) (H.state host.new) }
        ensures damage { DamageComes result (file_of self.old) at (length to.old) self.old.tree (H.state host.old) (H.state host.new) }
        ensures backed { BackedRead result at to.new self.old self.new (H.state host.old) (H.state host.new) }
        ensures unforged { UnforgedRead result at to.new self.old self.new (H.state host.old) (H.state host.new) }
        ensures standing { ReadsStanding result at to.new self.old self.new (H.state host.old) }
        ensures honest { HonestRead result (file_of self.old) at to.new self.old.tree self.new.tree (H.state host.old) }
    {
        let name = file_name(self.beside, &self.name, &self.side);
        self.tree.read(host, name, at, to)
    }
}

//! The flush of a session.
ghost use Rattle.std.specs.Prelude.{◌≡◌, ◌≤◌, length, false, OnOk};
ghost use Rattle.pf_io.specs.Counts.{HasCause};
ghost use Rattle.node_tree.specs.Existing.{AreKeys};
ghost use Rattle.node_tree.specs.Next.{KeepsShape};
ghost use Rattle.node_tree.specs.State.{IsSound};
ghost use Rattle.pf_session.specs.Aside.{Aside};
ghost use Rattle.pf_session.specs.Flushing.{SealedAll, SealGoes, FlushGoes, UndamagedFlush, KeepsName, host_part, words_part};
ghost use Rattle.pf_session.specs.Versions.{VersionGoes, SealsOns};
ghost use Rattle.pf_session.specs.Making.{KeptAtDamage};

use crate::drawing::take_words;
use crate::fault::FlushFault;
use crate::sealing::{replace, seal_nodes};
use crate::session::Session;
use arrayvec::ArrayVec;
use node_tree::Tree;
use pf_io::{Host, Words};

/// The numbers of the dirty nodes, in rising order.
pub(crate) fn dirty_numbers(tree: &Tree) -> ArrayVec<u64, 48>
    ensures same { result.items ≡ tree.now.dirty }
    ensures sound { IsSound tree.now }
{
    let count = tree.dirty();
    let mut numbers = ArrayVec::new();
    for k in 0..count {
        numbers.push(tree.dirty_at(k));
    }
    numbers
}

impl Session {
    // Writes the content as a new version, in place of the last one or beside the name.
    fn write_version<H: Host>(
        &mut self,
        host: &mut H,
        nonce: &[u8; 32],
        dirty: &[u64],
        keys: &[[u8; 16]],
    ) -> Result<(), FlushFault>
        requires dirty { dirty.now ≡ self.old.tree.dirty }
        requires one_each { length keys.now ≡ length self.old.tree.dirty }
        ensures rest { self.new ≡ record self.old { tree = self.new.tree } }
        ensures shape { KeepsShape self.old.tree self.new.tree }
        ensures kept { KeptAtDamage result self.old.tree self.new.tree }
        ensures goes { VersionGoes result nonce.now keys.now self.old self.new.tree (H.state host.old) (H.state host.new) }
        ensures sealed { OnOk result (SealedAll nonce.now keys.now self.old self.new.tree) }
        ensures seals { SealsOns result nonce.now keys.now self.old (H.state host.old) (H.state host.new) }
        ensures beside { KeepsName self.old (H.state host.old) (H.state host.new) }
        ensures aside { Aside self.old.name (H.state host.old) (H.state host.new) }
        ensures undamaged { UndamagedFlush result self.old (H.state host.old) }
        ensures cause { HasCause (H.state host.old).faults (H.state host.new).faults (host_part result) }
    {
        if self.beside {
            seal_nodes(
                host,
                self.side.as_str(),
                &self.key,
                &self.path,
                nonce,
                &mut self.tree,
                keys,
            )?;
            return Ok(());
        }
        replace(
            host,
            self.name.as_str(),
            self.side.as_str(),
            &self.key,
            &self.path,
            nonce,
            &mut self.tree,
            dirty,
            keys,
        )
    }

    /// Seals the content under a nonce, with a key for each dirty node.
    pub(crate) fn seal<H: Host>(
        &mut self,
        host: &mut H,
        nonce: &[u8; 32],
        dirty: &[u64],
        keys: &[[u8; 16]],
    ) -> Result<(), FlushFault>
        requires dirty { dirty.now ≡ self.old.tree.dirty }
        requires sound { IsSound self.old.tree }
        requires keys { AreKeys (length self.old.tree.dirty) keys.now }
        ensures goes { SealGoes result nonce.now keys.now self.old self.new (H.state host.old) (H.state host.new) }
        ensures aside { Aside self.old.name (H.state host.old) (H.state host.new) }
        ensures undamaged { UndamagedFlush result self.old (H.state host.old) }
        ensures cause { HasCause (H.state host.old).faults (H.state host.new).faults (host_part result) }
    {
        if let Err(fault) = self.write_version(host, nonce, dirty, keys) {
            self.broken = true;
            return Err(fault);
        }
        self.tree.settle();
        self.nonce = *nonce;
        self.drawn = None;
        self.changed = false;
        Ok(())
    }

    /// Seals the content as a new version, which takes the place of the last one at once. A file that is not published yet is
    /// sealed in place.
    ///
    /// `Words` comes where a random word was wanting, and then nothing is changed but for the words that were taken.
    /// `Damaged` comes where a node to be copied is short, and `Host` where a call failed; the session is broken then.
    pub fn flush<H: Host, R: Words>(
        &mut self,
        host: &mut H,
        random: &mut R,
    ) -> Result<(), FlushFault>
        requires { self.old.broken ≡ false }
        ensures goes { FlushGoes result self.old self.new (H.state host.old) (H.state host.new) (R.state random.old) (R.state random.new) }
        ensures cause { HasCause (H.state host.old).faults (H.state host.new).faults (host_part result) }
        ensures random_cause { HasCause (R.state random.old).faults (R.state random.new).faults (words_part result) }
        ensures aside { Aside self.old.name (H.state host.old) (H.state host.new) }
        ensures undamaged { UndamagedFlush result self.old (H.state host.old) }
    {
        let dirty = dirty_numbers(&self.tree);
        let (nonce, keys) = take_words(&self.drawn, dirty.len(), random)?;
        self.seal(host, &nonce, &dirty, &keys)
    }
}

//! The move of a protected file to another name.
ghost use Rattle.std.specs.Prelude.{◌≡◌, ◌≢◌, ◌≤◌, ◌^◌, ◌↔◌, IsSome, IfSome, OnOk, true, false, []};
ghost use Rattle.node_layout.specs.Metadata.{IsPath};
ghost use Rattle.node_layout.specs.Places.{node_count};
ghost use Rattle.pf_io.specs.Counts.{HasCause};
ghost use Rattle.pf_io.specs.Host.{OnDisk};
ghost use Rattle.pf_io.specs.Moments.{Ran};
ghost use Rattle.pf_io.specs.Names.{IsTarget, recovery_of, side_of};
ghost use Rattle.pf_session.specs.Aside.{AsideBoth, LeavesOthers};
ghost use Rattle.pf_session.specs.Copying.{clean_below};
ghost use Rattle.pf_session.specs.Flushing.{host_part, words_part};
ghost use Rattle.pf_session.specs.Making.{StepsGo, ReplaceUndamaged, done_of};
ghost use Rattle.pf_session.specs.Moving.{CarryGoes, Carries, CarryEnds, IsGone, MoveGoes, UndamagedMove, UndamagedCarry, UndamagedAtRest, after_carry, move_host_part, move_words_part};
ghost use Rattle.pf_session.specs.Relocating.{PutLeaves, MakesCopy, CopyFileGoes, NameImage, NameLeaves, RelocateImage, RelocateLeaves, RelocateGoes, put_steps, name_steps};

use crate::copying::copy_clean;
use crate::drawing::{draw_nonce, take_words};
use crate::fault::{FlushFault, MoveFault};
use crate::flushing::dirty_numbers;
use crate::sealing::make_node;
use crate::session::Session;
use node_layout::{PathText, node_count};
use pf_io::{Host, HostFault, Text, Words, is_target};
use std::alloc::Global;

// The name as a path, where a protected file may have it.
fn target_path(name: &str) -> Option<PathText>
    ensures named { IsSome result ↔ IsTarget name.now }
    ensures same { IfSome result (λ path. path ≡ name.now) }
{
    if !is_target(name) {
        return None;
    }
    PathText::new(name)
}

// Writes node 0 to a file, and syncs it.
fn put_node<H: Host>(host: &mut H, name: &str, node: &[u8; 4096]) -> Result<(), HostFault>
    ensures goes { StepsGo result (put_steps name.now node.now) (H.state host.old) (H.state host.new) }
    ensures cause { HasCause (H.state host.old).faults (H.state host.new).faults result }
    ensures disk { OnDisk (H.state host.old) (H.state host.new) (Ran (LeavesOthers name.now) (PutLeaves result name.now node.now)) }
{
    host.write_at(name, 0, node)?;
    host.sync(name)
}

// Makes a side file of a new node 0 and of the other nodes of a file.
fn copy_file<H: Host>(
    host: &mut H,
    from: &str,
    side: &str,
    node: &[u8; 4096],
    count: u64,
) -> Result<(), FlushFault>
    requires apart { from.now ≢ side.now }
    requires high { count ≤ 2 ^ 30 }
    ensures goes { CopyFileGoes result from.now side.now node.now (clean_below [] count) (H.state host.old) (H.state host.new) }
    ensures cause { HasCause (H.state host.old).faults (H.state host.new).faults (host_part result) }
    ensures disk { OnDisk (H.state host.old) (H.state host.new) (Ran (LeavesOthers side.now) (MakesCopy result from.now side.now node.now (clean_below [] count))) }
    ensures short { ReplaceUndamaged result from.now (clean_below [] count) (H.state host.old) }
{
    host.make(side)?;
    copy_clean(host, from, side, &[], count)?;
    put_node(host, side, node)?;
    Ok(())
}

// Gives the side file the new name, once nothing is pending at its recovery name, and takes the old name away.
fn change_name<H: Host>(
    host: &mut H,
    from: &str,
    to: &str,
    side: &str,
    recovery: &str,
) -> Result<(), HostFault>
    requires old { IsTarget from.now }
    requires side { side.now ≡ side_of to.now }
    requires recovery { recovery.now ≡ recovery_of to.now }
    ensures goes { StepsGo result (name_steps from.now to.now) (H.state host.old) (H.state host.new) }
    ensures cause { HasCause (H.state host.old).faults (H.state host.new).faults result }
    ensures disk { OnDisk (H.state host.old) (H.state host.new) (Ran (NameImage from.now to.now) (NameLeaves result from.now to.now)) }
{
    host.sync(recovery)?;
    host.swap_name(side, to)?;
    host.remove(from)
}

// Copies a file to a new name, with a new node 0, and takes the old name away.
fn move_file<H: Host>(
    host: &mut H,
    from: &str,
    to: &str,
    side: &str,
    recovery: &str,
    node: &[u8; 4096],
    count: u64,
) -> Result<(), FlushFault>
    requires old { IsTarget from.now }
    requires side { side.now ≡ side_of to.now }
    requires recovery { recovery.now ≡ recovery_of to.now }
    requires high { count ≤ 2 ^ 30 }
    ensures goes { RelocateGoes result from.now to.now node.now (clean_below [] count) (H.state host.old) (H.state host.new) }
    ensures cause { HasCause (H.state host.old).faults (H.state host.new).faults (host_part result) }
    ensures disk { OnDisk (H.state host.old) (H.state host.new) (Ran (RelocateImage from.now to.now node.now (clean_below [] count)) (RelocateLeaves result from.now to.now node.now (clean_below [] count))) }
    ensures short { ReplaceUndamaged result from.now (clean_below [] count) (H.state host.old) }
{
    copy_file(host, from, side, node, count)?;
    change_name(host, from, to, side, recovery)?;
    Ok(())
}

impl Session {
    // Moves the file, of which nothing is to be sealed, under a node 0 of this path and nonce.
    fn carry<H: Host>(
        &mut self,
        host: &mut H,
        path: &PathText,
        side: &str,
        recovery: &str,
        nonce: &[u8; 32],
    ) -> Result<(), FlushFault>
        requires target { IsTarget path.now }
        requires side { side.now ≡ side_of path.now }
        requires recovery { recovery.now ≡ recovery_of path.now }
        ensures state { self.new ≡ after_carry result nonce.now self.old }
        ensures goes { CarryGoes result path.now nonce.now self.old (H.state host.old) (H.state host.new) }
        ensures carries { Carries (done_of result) path.now nonce.now self.old (H.state host.old) (H.state host.new) }
        ensures cause { HasCause (H.state host.old).faults (H.state host.new).faults (host_part result) }
        ensures undamaged { UndamagedAtRest result self.old (H.state host.old) }
    {
        let node = make_node(&self.key, path, nonce, &self.tree);
        let count = node_count(self.tree.size());
        if let Err(fault) = move_file(
            host,
            self.name.as_str(),
            path.as_str(),
            side,
            recovery,
            &node,
            count,
        ) {
            self.broken = true;
            return Err(fault);
        }
        self.nonce = *nonce;
        Ok(())
    }

    // Moves the file of a session that is not changed.
    fn move_unchanged<H: Host, R: Words>(
        &mut self,
        host: &mut H,
        random: &mut R,
        path: &PathText,
        side: &str,
        recovery: &str,
    ) -> Result<(), FlushFault>
        requires target { IsTarget path.now }
        requires side { side.now ≡ side_of path.now }
        requires recovery { recovery.now ≡ recovery_of path.now }
        requires named { self.old.beside ≡ false }
        requires calm { self.old.changed ≡ false }
        ensures ends { CarryEnds result path.now self.old self.new (H.state host.old) (H.state host.new) (R.state random.old) (R.state random.new) }
        ensures cause { HasCause (H.state host.old).faults (H.state host.new).faults (host_part result) }
        ensures random_cause { HasCause (R.state random.old).faults (R.state random.new).faults (words_part result) }
        ensures aside { AsideBoth self.old.name path.now (H.state host.old) (H.state host.new) }
        ensures undamaged { UndamagedCarry result path.now self.old (H.state host.old) }
    {
        let nonce = draw_nonce(random)?;
        self.carry(host, path, side, recovery, &nonce)
    }

    // Flushes the session and then moves its file. All words are taken before.
    fn move_changed<H: Host, R: Words>(
        &mut self,
        host: &mut H,
        random: &mut R,
        path: &PathText,
        side: &str,
        recovery: &str,
    ) -> Result<(), FlushFault>
        requires target { IsTarget path.now }
        requires side { side.now ≡ side_of path.now }
        requires recovery { recovery.now ≡ recovery_of path.now }
        requires named { self.old.beside ≡ false }
        requires changed { self.old.changed ≡ true }
        ensures ends { CarryEnds result path.now self.old self.new (H.state host.old) (H.state host.new) (R.state random.old) (R.state random.new) }
        ensures cause { HasCause (H.state host.old).faults (H.state host.new).faults (host_part result) }
        ensures random_cause { HasCause (R.state random.old).faults (R.state random.new).faults (words_part result) }
        ensures aside { AsideBoth self.old.name path.now (H.state host.old) (H.state host.new) }
        ensures undamaged { UndamagedCarry result path.now self.old (H.state host.old) }
    {
        let dirty = dirty_numbers(&self.tree);
        let (sealed, keys) = take_words(&self.drawn, dirty.len(), random)?;
        let own = draw_nonce(random)?;
        self.seal(host, &sealed, &dirty, &keys)?;
        self.carry(host, path, side, recovery, &own)
    }

    // Moves the file, after a flush where the session is changed.
    fn move_file<H: Host, R: Words>(
        &mut self,
        host: &mut H,
        random: &mut R,
        path: &PathText,
        side: &str,
        recovery: &str,
    ) -> Result<(), FlushFault>
        requires target { IsTarget path.now }
        requires side { side.now ≡ side_of path.now }
        requires recovery { recovery.now ≡ recovery_of path.now }
        requires named { self.old.beside ≡ false }
        ensures ends { CarryEnds result path.now self.old self.new (H.state host.old) (H.state host.new) (R.state random.old) (R.state random.new) }
        ensures cause { HasCause (H.state host.old).faults (H.state host.new).faults (host_part result) }
        ensures random_cause { HasCause (R.state random.old).faults (R.state random.new).faults (words_part result) }
        ensures aside { AsideBoth self.old.name path.now (H.state host.old) (H.state host.new) }
        ensures undamaged { UndamagedCarry result path.now self.old (H.state host.old) }
    {
        if self.changed {
            return self.move_changed(host, random, path, side, recovery);
        }
        self.move_unchanged(host, random, path, side, recovery)
    }

    // Takes the new name, as name and as path.
    fn rename(&mut self, name: Text, side: Text, path: PathText)
        requires target { IsTarget name }
        requires side { side ≡ side_of name }
        requires path { IsPath path }
        ensures { self.new ≡ record self.old { name = name; path = path } }
    {
        self.name = name;
        self.side = side;
        self.path = path;
    }

    /// Moves the file to a new name, which also becomes its path. What was changed is flushed first. On an honest disk where
    /// the file stood for what was last sealed, a crash up to the end of that flush leaves this or what it seals under the old
    /// name; from then on the content is at every moment under one of the two names, or under both.
    ///
    /// The refusals are, in this order: `BadName`, where a protected file may not have the new name; `Memory`; `Host`, where
    /// the host failed to say whether the new name is there; `TargetExists`, where it is, also where it is the session's own;
    /// `Words`, where a random word was wanting; `Damaged`, where a node to be copied is short; `Host`, where a later call
    /// failed. Up to `Words` the session is unchanged, but for words that were taken. After the last two it is broken: on such
    /// a disk the content is under the old name, under the new one, or under both, and where the flush failed the old name
    /// has the content that was last sealed or the one that was to be.
    pub fn move_to<H: Host, R: Words>(
        &mut self,
        alloc: Global,
        host: &mut H,
        random: &mut R,
        new: &str,
    ) -> Result<(), MoveFault>
        requires whole { self.old.broken ≡ false }
        requires named { self.old.beside ≡ false }
        ensures gone { OnOk result (IsGone self.old.name (H.state host.old) (H.state host.new)) }
        ensures goes { MoveGoes result new.now self.old self.new (H.state host.old) (H.state host.new) (R.state random.old) (R.state random.new) }
        ensures cause { HasCause (H.state host.old).faults (H.state host.new).faults (move_host_part result) }
        ensures random_cause { HasCause (R.state random.old).faults (R.state random.new).faults (move_words_part result) }
        ensures aside { AsideBoth self.old.name new.now (H.state host.old) (H.state host.new) }
        ensures undamaged { UndamagedMove result self.old (H.state host.old) }
    {
        let Some(path) = target_path(new) else {
            return Err(MoveFault::BadName);
        };
        let name = Text::copy(alloc, new)?;
        let side = Text::joined(alloc, new, ".new")?;
        let recovery = Text::joined(alloc, new, ".recovery")?;
        if host.len(new)?.is_some() {
            return Err(MoveFault::TargetExists);
        }
        self.move_file(host, random, &path, side.as_str(), recovery.as_str())?;
        self.rename(name, side, path);
        Ok(())
    }
}

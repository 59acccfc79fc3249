//! The random words of a session.
ghost use Rattle.std.specs.Prelude.{◌≡◌, ◌≤◌, length, [], IfOk, OnErr, IfSome, Some, false};
ghost use Rattle.pf_io.specs.Counts.{HasCause};
ghost use Rattle.node_tree.specs.Existing.{AreKeys};
ghost use Rattle.pf_session.specs.Asking.{Took, TookFewer};
ghost use Rattle.pf_session.specs.Drawing.{IsDrawn, IsNonce, WordsCame, WordsLacked, DrawGoes, nonce_words};

use crate::session::Session;
use arrayvec::ArrayVec;
use pf_io::{Words, WordsFault};

/// A nonce of two random words.
pub(crate) fn draw_nonce<R: Words>(random: &mut R) -> Result<[u8; 32], WordsFault>
    ensures drawn { IfOk result (λ nonce. IsDrawn nonce (R.state random.old) (R.state random.new)) }
    ensures failed { OnErr result (TookFewer 2 (R.state random.old) (R.state random.new)) }
    ensures cause { HasCause (R.state random.old).faults (R.state random.new).faults result }
{
    let first = random.next16()?;
    let second = random.next16()?;
    let mut nonce = [0; 32];
    nonce[..16].copy_from_slice(&first);
    nonce[16..].copy_from_slice(&second);
    Ok(nonce)
}

// The nonce that was drawn, or two random words.
fn take_nonce<R: Words>(drawn: &Option<[u8; 32]>, random: &mut R) -> Result<[u8; 32], WordsFault>
    requires { IfSome drawn.now (λ nonce. length nonce ≡ 32) }
    ensures taken { IfOk result (λ nonce. WordsCame drawn.now 0 nonce [] (R.state random.old) (R.state random.new)) }
    ensures failed { OnErr result (TookFewer (nonce_words drawn.now) (R.state random.old) (R.state random.new)) }
    ensures cause { HasCause (R.state random.old).faults (R.state random.new).faults result }
{
    match drawn {
        Some(nonce) => Ok(*nonce),
        None => draw_nonce(random),
    }
}

// One random word as a key for each of some nodes.
fn take_keys<R: Words>(count: usize, random: &mut R) -> Result<ArrayVec<[u8; 16], 48>, WordsFault>
    requires { count ≤ 48 }
    ensures taken { IfOk result (λ keys. AreKeys count keys.items × Took keys.items (R.state random.old) (R.state random.new)) }
    ensures failed { OnErr result (TookFewer count (R.state random.old) (R.state random.new)) }
    ensures cause { HasCause (R.state random.old).faults (R.state random.new).faults result }
{
    let mut keys = ArrayVec::new();
    for _ in 0..count {
        keys.push(random.next16()?);
    }
    Ok(keys)
}

/// The nonce of the next sealing, and a key for each of its nodes.
pub(crate) fn take_words<R: Words>(
    drawn: &Option<[u8; 32]>,
    count: usize,
    random: &mut R,
) -> Result<([u8; 32], ArrayVec<[u8; 16], 48>), WordsFault>
    requires nonce { IfSome drawn.now (λ nonce. length nonce ≡ 32) }
    requires few { count ≤ 48 }
    ensures taken { IfOk result (λ words. WordsCame drawn.now count words.0 words.1.items (R.state random.old) (R.state random.new)) }
    ensures failed { OnErr result (WordsLacked drawn.now count (R.state random.old) (R.state random.new)) }
    ensures cause { HasCause (R.state random.old).faults (R.state random.new).faults result }
{
    let nonce = take_nonce(drawn, random)?;
    let keys = take_keys(count, random)?;
    Ok((nonce, keys))
}

impl Session {
    /// The nonce that the next flush seals under: two random words, or the one that was drawn since the last flush. Where no
    /// word comes, the session stays as it is.
    pub fn draw<R: Words>(&mut self, random: &mut R) -> Result<[u8; 32], WordsFault>
        requires { self.old.broken ≡ false }
        ensures goes { DrawGoes result self.old self.new (R.state random.old) (R.state random.new) }
        ensures cause { HasCause (R.state random.old).faults (R.state random.new).faults result }
    {
        if let Some(nonce) = self.drawn {
            return Ok(nonce);
        }
        let nonce = draw_nonce(random)?;
        self.drawn = Some(nonce);
        Ok(nonce)
    }
}

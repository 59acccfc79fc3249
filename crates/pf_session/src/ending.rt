//! The end of a session.
ghost use Rattle.std.specs.Prelude.{◌≡◌, false, true};
ghost use Rattle.pf_io.specs.Counts.{HasCause};
ghost use Rattle.pf_session.specs.Aside.{Aside};
ghost use Rattle.pf_session.specs.Flushing.{KeepsName, UndamagedFlush, host_part, words_part};
ghost use Rattle.pf_session.specs.Ending.{PublishGoes, CloseGoes};

use crate::fault::FlushFault;
use crate::session::Session;
use pf_io::{Host, Words};

impl Session {
    /// Flushes the file that was created beside the name, and gives it the name. After a refusal the name is as before, or
    /// where that last call failed it may have the file.
    pub fn publish<H: Host, R: Words>(
        mut self,
        host: &mut H,
        random: &mut R,
    ) -> Result<(), FlushFault>
        requires beside { self.beside ≡ true }
        requires whole { self.broken ≡ false }
        ensures goes { PublishGoes result self (H.state host.old) (H.state host.new) (R.state random.old) (R.state random.new) }
        ensures cause { HasCause (H.state host.old).faults (H.state host.new).faults (host_part result) }
        ensures random_cause { HasCause (R.state random.old).faults (R.state random.new).faults (words_part result) }
        ensures aside { Aside self.name (H.state host.old) (H.state host.new) }
        ensures undamaged { UndamagedFlush result self (H.state host.old) }
    {
        self.flush(host, random)?;
        host.swap_name(self.side_name(), self.own_name())?;
        Ok(())
    }

    /// Flushes what was changed, and lets the session go. A broken session is only let go.
    pub fn close<H: Host, R: Words>(
        mut self,
        host: &mut H,
        random: &mut R,
    ) -> Result<(), FlushFault>
        ensures goes { CloseGoes result self (H.state host.old) (H.state host.new) (R.state random.old) (R.state random.new) }
        ensures cause { HasCause (H.state host.old).faults (H.state host.new).faults (host_part result) }
        ensures random_cause { HasCause (R.state random.old).faults (R.state random.new).faults (words_part result) }
        ensures aside { Aside self.name (H.state host.old) (H.state host.new) }
        ensures beside { KeepsName self (H.state host.old) (H.state host.new) }
        ensures undamaged { UndamagedFlush result self (H.state host.old) }
    {
        if self.changed && !self.broken {
            return self.flush(host, random);
        }
        Ok(())
    }
}

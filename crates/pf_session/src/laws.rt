//! What the definitions of openings say together.
ghost use Rattle.pf_session.specs.Opening.{OneOpening};

/// The same answers lead two openings to one end, where no call of the host failed and memory was there.
pub fn openings_are_decided()
    ensures { OneOpening }
{}

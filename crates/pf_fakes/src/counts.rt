// Counts that stand still at their last value.
ghost use Rattle.std.specs.Prelude.{◌≡◌, ◌≤◌, IfOk, OnErr, Ok, Err, alloc_error};
ghost use Rattle.pf_io.specs.Counts.{counted, HasCause};

use pf_io::HostFault;
use std::alloc::AllocError;

pub(crate) fn raise(count: &mut u64)
    ensures counted { count.new ≡ counted count.old }
    ensures later { count.old ≤ count.new }
{
    *count = count.saturating_add(1);
}

// Want of memory is a counted fault, which is counted apart too.
pub(crate) fn count_starved<T>(
    faults: &mut u64,
    starved: &mut u64,
    outcome: Result<T, AllocError>,
) -> Result<T, HostFault>
    ensures cause { HasCause faults.old faults.new result }
    ensures starves { HasCause starved.old starved.new result }
    ensures value { IfOk result (λ value. outcome ≡ Ok value) }
    ensures error { OnErr result (outcome ≡ Err alloc_error) }
{
    match outcome {
        Ok(value) => Ok(value),
        Err(_) => {
            raise(faults);
            raise(starved);
            Err(HostFault)
        }
    }
}

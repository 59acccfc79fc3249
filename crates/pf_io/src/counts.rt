// Counts that stand still at their last value.
ghost use Rattle.std.specs.Prelude.{◌≡◌, ◌≤◌};
ghost use Rattle.pf_io.specs.Counts.{counted, counted_by};

pub(crate) fn raise(count: &mut u64)
    ensures counted { count.new ≡ counted count.old }
    ensures later { count.old ≤ count.new }
{
    *count = count.saturating_add(1);
}

pub(crate) fn raise_by(count: &mut u64, n: usize)
    ensures { count.new ≡ counted_by n count.old }
{
    *count = count.saturating_add(n as u64);
}

// The sums of all files that a manifest trusts.
ghost use Rattle.std.specs.Prelude.{◌≡◌, IfOk};
ghost use Rattle.pf_io.specs.Counts.{HasCause};
ghost use Rattle.pf_io.specs.Host.{KeepsFiles};
ghost use Rattle.pf_io.specs.Unchanged.{KeepsDisk};
ghost use Rattle.manifest_model.specs.Summed.{FitSums};
ghost use Rattle.file_sums.specs.Summing.{host_part};
ghost use Rattle.file_sums.specs.Collecting.{EntryEnds, all_host_part, AreSummed, AreOfFiles};

use crate::summing::sum;
use crate::{AllFault, SumFault};
use manifest_model::{Manifest, Trusted};
use pf_io::{Host, Text};
use std::alloc::Global;
use std::marker::Model;

/// Sums of files, which contracts see as their list.
#[derive(Drop)]
pub struct Sums {
    sums: Vec<[u8; 32]>,
}

impl Model for Sums {
    ghost use Rattle.std.specs.Prelude.{List, ℕ};

    ghost Value = { List (List ℕ) };

    ghost view = { λ s. s.sums.items };
}

impl Sums {
    /// The sums, in their order.
    pub fn as_slice(&self) -> &[[u8; 32]]
        ensures { result.now ≡ self.now }
    {
        self.sums.as_slice()
    }
}

// The sum of an entry: the listed one, or else that of its file.
fn sum_entry<H: Host>(host: &mut H, entry: &Trusted) -> Result<[u8; 32], SumFault>
    ensures ends { EntryEnds result entry.now (H.state host.old) (H.state host.new) }
    ensures cause { HasCause (H.state host.old).faults (H.state host.new).faults (host_part result) }
    ensures disk { KeepsDisk (H.state host.old) (H.state host.new) }
{
    match entry.sum {
        Some(listed) => Ok(listed),
        None => sum(host, entry.name.as_str()),
    }
}

/// One sum for each trusted file of the manifest, in their order: the listed one, for which the host is not asked, or else
/// that of the file.
///
/// `At` names the first file without a listed sum that `sum` refuses, and why; nothing is asked after it. `Memory` is
/// want of memory, which comes before a file that is left, and not after a call that failed or once all sums are there.
pub fn sum_all<H: Host>(alloc: Global, host: &mut H, manifest: &Manifest) -> Result<Sums, AllFault>
    ensures summed { AreSummed result manifest.now.lists.trusted (H.state host.old) (H.state host.new) }
    ensures fit { IfOk result (λ sums. FitSums manifest.now.lists.trusted sums) }
    ensures honest { AreOfFiles result manifest.now.lists.trusted (H.state host.old) }
    ensures cause { HasCause (H.state host.old).faults (H.state host.new).faults (all_host_part result) }
    ensures disk { KeepsDisk (H.state host.old) (H.state host.new) }
    ensures files { KeepsFiles (H.state host.old) (H.state host.new) }
{
    let mut sums = Vec::new(alloc);
    let mut name = String::new(alloc);
    for k in 0..manifest.trusted_len() {
        let entry = manifest.trusted(k);
        sums.push([0; 32])?;
        name.clear();
        name.push_str(entry.name.as_str())?;
        match sum_entry(host, entry) {
            Ok(sum) => sums[k] = sum,
            Err(why) => {
                let name = Text::from(name);
                return Err(AllFault::At { name, why });
            }
        }
    }
    Ok(Sums { sums })
}

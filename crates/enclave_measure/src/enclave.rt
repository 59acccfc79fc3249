// The measurement of a layout.
ghost use Rattle.std.specs.Prelude.{◌+◌, ◌^◌, ◌≤◌, ◌++◌, List, ℕ};
ghost use Rattle.std.specs.List.{AllByRecursion};
ghost use Rattle.pf_io.specs.Counts.{HasCause};
ghost use Rattle.pf_io.specs.Host.{KeepsFiles};
ghost use Rattle.pf_io.specs.Unchanged.{KeepsDisk};
ghost use Rattle.sha2.specs.Hashers.{Holds256};
ghost use Rattle.enclave_measure.specs.declared.page.Source.TheVariants.{File as IsFile};
ghost use Rattle.enclave_measure.specs.Records.{extensions};
ghost use Rattle.enclave_measure.specs.Pages.{PAGE, IsInside};
ghost use Rattle.enclave_measure.specs.Measuring.{IsMeasured, IsOfFiles, host_part};
ghost use Rattle.enclave_measure.specs.Hashing.{Asking, SourceEnds, PageEnds, PagesEnd};

use crate::page::{Page, Source};
use crate::records::{addition, creation, extension_head};
use crate::{Layout, MeasureFault};
use pf_io::Host;
use sha2::{Digest, Sha256};

// A page has 16 chunks of 256 bytes.
const CHUNK: usize = 256;

const CHUNKS: usize = 16;

// A page's bytes of a file, and zeros past its end, for the page at a place.
fn read_file<H: Host>(
    host: &mut H,
    place: usize,
    name: &str,
    at: u32,
) -> Result<[u8; 4096], MeasureFault>
    ensures asking { Asking result (H.state host.old) (H.state host.new) }
    ensures ends { SourceEnds result place (IsFile name.now at) (H.state host.old) (H.state host.new) }
{
    let Some(_) = host.len(name)? else {
        return Err(MeasureFault::NotFound { page: place });
    };
    let mut bytes = [0; 4096];
    host.read_at(name, at as u64, &mut bytes)?;
    Ok(bytes)
}

// The bytes of a source, for the page at a place.
fn read_bytes<H: Host>(
    host: &mut H,
    place: usize,
    source: &Source,
) -> Result<[u8; 4096], MeasureFault>
    ensures asking { Asking result (H.state host.old) (H.state host.new) }
    ensures ends { SourceEnds result place source.now (H.state host.old) (H.state host.new) }
{
    match source {
        Source::Zero => Ok([0; 4096]),
        Source::File { name, at } => read_file(host, place, name.as_str(), *at),
    }
}

// Hashes the EEXTEND records of a page's bytes.
fn extend(hasher: &mut Sha256, offset: u64, bytes: &[u8; 4096])
    requires { offset + PAGE ≤ 2 ^ 40 }
    ensures { (message : List ℕ) → Holds256 hasher.old message → Holds256 hasher.new (message ++ extensions 16 offset bytes.now) }
{
    for i in 0..CHUNKS {
        let start = CHUNK * i;
        hasher.update(&extension_head(offset + start as u64));
        hasher.update(&bytes[start..start + CHUNK]);
    }
}

// Hashes the records of the page at a place.
fn hash_page<H: Host>(
    hasher: &mut Sha256,
    host: &mut H,
    place: usize,
    page: &Page,
) -> Result<(), MeasureFault>
    requires { IsInside (2 ^ 40) page.now }
    ensures asking { Asking result (H.state host.old) (H.state host.new) }
    ensures ends { PageEnds result place page.now (Holds256 hasher.old) (Holds256 hasher.new) (H.state host.old) (H.state host.new) }
{
    hasher.update(&addition(page));
    if !page.measured {
        return Ok(());
    }
    let bytes = read_bytes(host, place, &page.source)?;
    extend(hasher, page.offset, &bytes);
    Ok(())
}

// Hashes the records of all pages.
fn hash_pages<H: Host>(
    hasher: &mut Sha256,
    host: &mut H,
    pages: &[Page],
) -> Result<(), MeasureFault>
    requires { AllByRecursion (IsInside (2 ^ 40)) pages.now }
    ensures asking { Asking result (H.state host.old) (H.state host.new) }
    ensures ends { PagesEnd result pages.now (Holds256 hasher.old) (Holds256 hasher.new) (H.state host.old) (H.state host.new) }
{
    for (place, page) in pages.iter().enumerate() {
        hash_page(hasher, host, place, page)?;
    }
    Ok(())
}

/// The measurement (MRENCLAVE) of a layout: SHA-256 of the bytes that ECREATE, EADD and EEXTEND measure.
///
/// The host is asked for measured pages of files alone, in order: for the length of the file, and then for 4096 bytes from
/// its place on, with zeros past what it gave. `NotFound` names the page, counted from 0, at which the host had no length.
/// `Host` comes where a call of the host failed. Nothing is asked after either. No memory is taken.
pub fn measure<H: Host>(host: &mut H, layout: &Layout) -> Result<[u8; 32], MeasureFault>
    ensures measured { IsMeasured result layout.now (H.state host.old) (H.state host.new) }
    ensures honest { IsOfFiles result layout.now (H.state host.old) }
    ensures cause { HasCause (H.state host.old).faults (H.state host.new).faults (host_part result) }
    ensures disk { KeepsDisk (H.state host.old) (H.state host.new) }
    ensures files { KeepsFiles (H.state host.old) (H.state host.new) }
{
    let mut hasher = Sha256::new();
    hasher.update(&creation(layout.size, layout.ssa));
    hash_pages(&mut hasher, host, &layout.pages)?;
    Ok(hasher.finalize())
}

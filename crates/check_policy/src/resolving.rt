// Where a path leads.
ghost use Rattle.std.specs.Prelude.{◌≡◌, ◌⊎◌, ◌↔◌, ℕ, List, ◌++◌, IfOk, IsTrue, Result, bytes_eq};
ghost use Rattle.std.specs.Map.{lookup};
ghost use Rattle.manifest_model.specs.Names.{normal, behind};
ghost use Rattle.check_policy.specs.declared.place.Place.{Place as PlaceView};
ghost use Rattle.check_policy.specs.declared.place.ResolveFault.{ResolveFault as Fault};
ghost use Rattle.check_policy.specs.Places.{IsPath, Gives, Resolves};
ghost use Rattle.check_policy.specs.Giving.{NamesHost, GivesFile, GivesProtected};

use crate::place::{Place, ResolveFault};
use crate::seeking::mount_for;
use manifest_model::{Manifest, Mount, MountKind, normal_name};
use pf_io::{Memory, Text, is_name};
use std::alloc::Global;

// The most bytes that a name on the host may have.
const LONGEST: usize = 512;

/// The lexical normal form of a path.
pub fn normal(alloc: Global, path: &str) -> Result<Text, Memory>
    ensures { IfOk result (λ made. made ≡ normal path.now) }
{
    normal_name(alloc, path)
}

// Whether the text is a path: an absolute name.
fn is_path(path: &str) -> bool
    ensures { IsTrue result ↔ IsPath path.now }
{
    is_name(path) && matches!(path.as_bytes(), [b'/', ..])
}

// The name on the host of what stands behind a mount's place.
fn host_name(alloc: Global, name: &str, rest: &str) -> Result<Text, ResolveFault>
    ensures { NamesHost (normal (name.now ++ rest.now)) result }
{
    let name = Text::joined(alloc, name, rest)?;
    let name = normal(alloc, name.as_str())?;
    if name.as_str().len() > LONGEST {
        return Err(ResolveFault::BadPath);
    }
    Ok(name)
}

// What a mount of files of the host gives.
fn host_file(alloc: Global, name: &str, rest: &str) -> Result<Place, ResolveFault>
    ensures { GivesFile (normal (name.now ++ rest.now)) result }
{
    let name = host_name(alloc, name, rest)?;
    let uri = Text::joined(alloc, "file:", name.as_str())?;
    Ok(Place::HostFile { uri, name })
}

// What a mount of protected files gives.
fn protected(
    alloc: Global,
    manifest: &Manifest,
    key_name: &str,
    name: &str,
    rest: &str,
) -> Result<Place, ResolveFault>
    ensures { GivesProtected (lookup (bytes_eq key_name.now) manifest.now.lists.keys) key_name.now (normal (name.now ++ rest.now)) result }
{
    let host = host_name(alloc, name, rest)?;
    match manifest.key(key_name) {
        Some(key) => Ok(Place::Protected { name: host, key }),
        None => {
            let name = Text::copy(alloc, key_name)?;
            Err(ResolveFault::NoKey { name })
        }
    }
}

// What a mount gives for the rest of a path.
fn given(
    alloc: Global,
    manifest: &Manifest,
    mount: &Mount,
    rest: &str,
) -> Result<Place, ResolveFault>
    ensures { (parts : List (List ℕ)) → rest.now ≡ behind parts → (result ≡ Err ResolveFault.Memory) ⊎ Gives manifest.now.lists.keys mount.now parts result }
{
    let Some(name) = &mount.name else {
        return Ok(Place::Nothing);
    };
    let name = name.as_str();
    match mount.kind {
        MountKind::Chroot => host_file(alloc, name, rest),
        MountKind::Encrypted => protected(alloc, manifest, mount.key_name.as_str(), name, rest),
        MountKind::Other => Ok(Place::Nothing),
    }
}

/// Where a path leads. What is no path is refused; else the mounts decide whose parts begin the path's: the one with the
/// most parts is taken, and of several with as many the last.
pub fn resolve(alloc: Global, manifest: &Manifest, path: &str) -> Result<Place, ResolveFault>
    ensures outcome { (result ≡ Err ResolveFault.Memory) ⊎ Resolves manifest.now.lists path.now result }
    ensures no_other { (outcome : Result PlaceView Fault) → Resolves manifest.now.lists path.now outcome → (result ≡ Err ResolveFault.Memory) ⊎ (result ≡ outcome) }
{
    if !is_path(path) {
        return Err(ResolveFault::BadPath);
    }
    let path = normal(alloc, path)?;
    match mount_for(manifest, path.as_str()) {
        Some(found) => given(alloc, manifest, found.mount, found.rest),
        None => Ok(Place::Nothing),
    }
}

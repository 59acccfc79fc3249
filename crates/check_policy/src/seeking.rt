// The mount that serves a path.
ghost use Rattle.std.specs.Prelude.{◌≡◌, ◌+◌, ℕ, List, MatchOption, Some, length, option_map, slice_get};
ghost use Rattle.manifest_model.specs.declared.entries.Mount.{Mount as MountView};
ghost use Rattle.manifest_model.specs.Names.{behind, normal_parts};
ghost use Rattle.check_policy.specs.Places.{Begins, NoneServes};
ghost use Rattle.check_policy.specs.Served.{seen};
ghost use Rattle.check_policy.specs.Seeking.{is_edge, IsNormal, Leaves, IsBest, IsServing};

use manifest_model::{Manifest, Mount};

/// A mount, and what stands behind its place in a path: nothing, or a slash and more parts.
#[derive(Clone, Copy)]
pub(crate) struct Serving<'a> {
    pub(crate) mount: &'a Mount,
    pub(crate) rest: &'a str,
}

// The parts of a normal path, each behind a slash.
fn trail(path: &str) -> &str
    requires { IsNormal path.now }
    ensures { result.now ≡ behind (normal_parts path.now) }
{
    if path == "/" { "" } else { path }
}

// Whether a part ends where the text begins: the text is empty or begins with a slash.
fn is_edge(text: &str) -> bool
    ensures { result ≡ is_edge text.now }
{
    matches!(text.as_bytes(), [] | [b'/', ..])
}

// What stands behind a place in a path.
fn rest_behind<'a>(place: &str, path: &'a str) -> Option<&'a str>
    requires place { IsNormal place.now }
    requires path { IsNormal path.now }
    ensures { MatchOption result (Begins (normal_parts place.now) (normal_parts path.now) → ⊥) (λ rest. Leaves (normal_parts place.now) (normal_parts path.now) rest.now) }
{
    let rest = trail(path).strip_prefix(trail(place))?;
    if is_edge(rest) { Some(rest) } else { None }
}

// The better of what was found and a further mount: the one with more parts, and of two with as many the further.
fn better<'a>(found: Option<Serving<'a>>, mount: &'a Mount, path: &'a str) -> Option<Serving<'a>>
    requires mount { IsNormal mount.now.path }
    requires path { IsNormal path.now }
    ensures { (mounts : List MountView) (n : ℕ) → slice_get mounts n ≡ Some mount.now → IsBest mounts (normal_parts path.now) n (seen found.entry) → IsBest mounts (normal_parts path.now) (n + 1) (seen result) }
{
    let Some(rest) = rest_behind(mount.path.as_str(), path) else {
        return found;
    };
    match found {
        Some(other) if other.rest.len() < rest.len() => found,
        _ => Some(Serving { mount, rest }),
    }
}

/// The mount that serves a path in normal form.
pub(crate) fn mount_for<'a>(manifest: &'a Manifest, path: &'a str) -> Option<Serving<'a>>
    requires { IsNormal path.now }
    ensures { MatchOption result (NoneServes manifest.now.lists.mounts (normal_parts path.now)) (λ found. IsServing manifest.now.lists.mounts (normal_parts path.now) found.mount.now found.rest.now) }
{
    let mut found = None;
    for k in 0..manifest.mounts_len() {
        found = better(found, manifest.mount(k), path);
    }
    found
}

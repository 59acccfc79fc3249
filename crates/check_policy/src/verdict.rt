// What a manifest says of a file of the host.
ghost use Rattle.std.specs.Prelude.{◌≡◌, bytes_eq};
ghost use Rattle.std.specs.List.{list_any};
ghost use Rattle.check_policy.specs.declared.verdict.Verdict.{Verdict as VerdictView};
ghost use Rattle.check_policy.specs.Verdicts.{has_uri, listed_sum, sum_for, IsVerdict};

use manifest_model::{Manifest, Policy, Trusted};

/// What a manifest says of a file of the host.
#[derive(Clone, Copy, PartialEq, Eq, Drop)]
pub enum Verdict {
    /// It is trusted, with this SHA-256.
    Trusted([u8; 32]),
    /// It is trusted, and no sum of it is listed.
    NoSum,
    /// It is allowed.
    Allowed,
    /// It is in neither list: it is allowed, and that is logged.
    Logged,
    /// It is in neither list: it is denied.
    Denied,
}

// Whether a trusted entry has that normal uri.
fn has_uri(entry: &Trusted, uri: &str) -> bool
    ensures { result ≡ has_uri uri.now entry.now }
{
    match uri.strip_prefix("file:") {
        Some(name) => name == entry.name.as_str(),
        None => false,
    }
}

// The sum of a trusted entry with that normal uri.
fn listed_sum(entry: &Trusted, uri: &str) -> Option<[u8; 32]>
    ensures { result ≡ listed_sum uri.now entry.now }
{
    if has_uri(entry, uri) { entry.sum } else { None }
}

// The first sum that a trusted entry with that normal uri has.
fn sum_for(manifest: &Manifest, uri: &str) -> Option<[u8; 32]>
    ensures { result ≡ sum_for uri.now manifest.now.lists.trusted }
{
    for k in 0..manifest.trusted_len() {
        if let Some(sum) = listed_sum(manifest.trusted(k), uri) {
            return Some(sum);
        }
    }
    None
}

fn is_trusted(manifest: &Manifest, uri: &str) -> bool
    ensures { result ≡ list_any (has_uri uri.now) manifest.now.lists.trusted }
{
    for k in 0..manifest.trusted_len() {
        if has_uri(manifest.trusted(k), uri) {
            return true;
        }
    }
    false
}

fn is_allowed(manifest: &Manifest, uri: &str) -> bool
    ensures { result ≡ list_any (bytes_eq uri.now) manifest.now.lists.allowed }
{
    for k in 0..manifest.allowed_len() {
        if uri == manifest.allowed(k).as_str() {
            return true;
        }
    }
    false
}

/// What a manifest says of a file of the host, by its uri as it is given: a uri that is not in normal form is in neither
/// list.
pub fn decide(manifest: &Manifest, uri: &str) -> Verdict
    ensures verdict { IsVerdict manifest.now.lists uri.now result }
    ensures no_other { (other : VerdictView) → IsVerdict manifest.now.lists uri.now other → result ≡ other }
{
    if let Some(sum) = sum_for(manifest, uri) {
        return Verdict::Trusted(sum);
    }
    if is_trusted(manifest, uri) {
        return Verdict::NoSum;
    }
    if is_allowed(manifest, uri) {
        return Verdict::Allowed;
    }
    match manifest.policy() {
        Policy::Strict => Verdict::Denied,
        Policy::AllowAllButLog => Verdict::Logged,
    }
}

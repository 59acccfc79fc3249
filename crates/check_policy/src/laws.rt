//! What the definitions of places and verdicts say together.
ghost use Rattle.std.specs.Prelude.{◌≡◌, ℕ, List, Contains, Result, codes};
ghost use Rattle.manifest_model.specs.declared.entries.Mount.{Mount};
ghost use Rattle.manifest_model.specs.declared.entries.Trusted.{Trusted};
ghost use Rattle.manifest_model.specs.Names.{normal, normal_parts, uri_of};
ghost use Rattle.manifest_model.specs.Listed.{Lists};
ghost use Rattle.manifest_model.specs.Trusting.{entries_of};
ghost use Rattle.check_policy.specs.declared.place.Place.{Place};
ghost use Rattle.check_policy.specs.declared.place.ResolveFault.{ResolveFault};
ghost use Rattle.check_policy.specs.declared.verdict.Verdict.{Verdict};
ghost use Rattle.check_policy.specs.Places.{IsPath, Serves, Resolves};
ghost use Rattle.check_policy.specs.Verdicts.{sum_for, IsVerdict};
ghost use Rattle.check_policy.specs.Laws.{IsByCases};

/// Each text has one outcome as a path.
pub fn paths_have_one_outcome()
    ensures there { (lists : Lists) (path : List ℕ) → (outcome : Result Place ResolveFault) × Resolves lists path outcome }
    ensures no_other { (lists : Lists) (path : List ℕ) (outcome other : Result Place ResolveFault) → Resolves lists path outcome → Resolves lists path other → outcome ≡ other }
{}

/// Paths with one normal form have one outcome.
pub fn normal_forms_decide()
    ensures { (lists : Lists) (path other : List ℕ) (outcome : Result Place ResolveFault) → IsPath path → IsPath other → normal path ≡ normal other → Resolves lists path outcome → Resolves lists other outcome }
{}

/// Where a mount stands at `/`, as that of the root does, a mount serves each path.
pub fn mounts_with_a_root_serve()
    ensures { (mounts : List Mount) (root : Mount) (path : List ℕ) → Contains mounts root → root.path ≡ codes "/" → (mount : Mount) × (rest : List (List ℕ)) × Serves mounts (normal_parts path) mount rest }
{}

/// Each uri has one verdict.
pub fn uris_have_one_verdict()
    ensures there { (lists : Lists) (uri : List ℕ) → (verdict : Verdict) × IsVerdict lists uri verdict }
    ensures no_other { (lists : Lists) (uri : List ℕ) (verdict other : Verdict) → IsVerdict lists uri verdict → IsVerdict lists uri other → verdict ≡ other }
{}

/// Each verdict comes exactly under its condition.
pub fn verdicts_come_by_cases()
    ensures { (lists : Lists) (uri : List ℕ) (verdict : Verdict) → IsVerdict lists uri verdict → IsByCases lists uri verdict }
{}

/// Among what the items of a list give, the sum of an entry is the one that decides on its uri.
pub fn listed_sums_decide()
    ensures { (items : List Trusted) (entry : Trusted) → Contains (entries_of items) entry → sum_for (uri_of entry.name) (entries_of items) ≡ entry.sum }
{}

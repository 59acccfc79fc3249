// A manifest: its table, and what is listed of it.
ghost use Rattle.std.specs.Prelude.{◌≡◌, ◌<◌, ◌⊎◌, ℕ, List, Result, Some, Err, IfOk, length, bytes_eq};

use crate::entries::{Mount, Policy, Trusted};
use crate::fault::ManifestFault;
use crate::listing::{Taken, key_in, table_of, take};
use crate::summing::with_sums_of;
use pf_io::{Memory, Text};
use std::alloc::Global;
use std::marker::Model;
use toml::Table;
use toml::ser::Error as PrintError;

/// A manifest, which contracts see as its table and what is listed of it.
#[derive(Drop)]
pub struct Manifest {
    table: Table,
    policy: Policy,
    trusted: Vec<Trusted>,
    allowed: Vec<Text>,
    mounts: Vec<Mount>,
}

impl Model for Manifest {
    ghost use Rattle.std.specs.Prelude.{◌≡◌, None};
    ghost use Rattle.toml.specs.View.{table_view};
    ghost use Rattle.manifest_model.specs.Coding.{coded_seen};
    ghost use Rattle.manifest_model.specs.Listed.{Seen, seen_of, fs, keying_of, refusal, lists_of};

    ghost Value = { Seen };

    ghost coded = { coded_seen };

    ghost view = { λ m. seen_of (table_view m.«table») m.policy m.trusted.items m.allowed.items m.mounts.items };

    ghost invariant = { λ m. (refusal (table_view m.«table») ≡ None) × ((seen_of (table_view m.«table») m.policy m.trusted.items m.allowed.items m.mounts.items).lists ≡ lists_of (table_view m.«table»)) };
}

impl Manifest {
    ghost use Rattle.std.specs.Prelude.{slice_get, IfOk, Ok, true};
    ghost use Rattle.std.specs.Map.{lookup};
    ghost use Rattle.toml.specs.Data.{Members, members_are_sorted};
    ghost use Rattle.toml.specs.Parse.{parse_document};
    ghost use Rattle.manifest_model.specs.Names.{normal, is_absolute};
    ghost use Rattle.manifest_model.specs.Listed.{Seen, Listed, ReadsAs, IsTextOf, refusal, lists_of};
    ghost use Rattle.manifest_model.specs.Reading.{IsTaken};
    ghost use Rattle.toml.specs.View.{table_view};
    ghost use Rattle.manifest_model.specs.Summed.{FitSums, with_trusted, summed_items};
    ghost use Rattle.manifest_model.specs.declared.fault.ManifestFault.{ManifestFault as Fault};

    // The manifest of a table, and of what is taken from it.
    fn of(table: Table, taken: Taken) -> Manifest
        requires accepted { refusal (table_view «table») ≡ None }
        requires taken { IsTaken (table_view «table») taken }
        ensures whole { result.«table» ≡ table_view «table» }
        ensures lists { result.lists ≡ lists_of (table_view «table») }
    {
        let Taken {
            policy,
            trusted,
            allowed,
            mounts,
        } = taken;
        Manifest {
            table,
            policy,
            trusted,
            allowed,
            mounts,
        }
    }

    // The manifest of a table of which nothing is refused.
    fn of_accepted(alloc: Global, table: Table) -> Result<Manifest, Memory>
        requires { refusal (table_view «table») ≡ None }
        ensures whole { IfOk result (λ made. made.«table» ≡ table_view «table») }
        ensures lists { IfOk result (λ made. made.lists ≡ lists_of (table_view «table»)) }
    {
        match take(alloc, &table) {
            Ok(taken) => Ok(Manifest::of(table, taken)),
            Err(ManifestFault::Memory) => Err(Memory),
            Err(_) => unreachable!(),
        }
    }

    // The manifest of bytes.
    fn read_whole(alloc: Global, bytes: &[u8]) -> Result<Manifest, ManifestFault>
        ensures { (result ≡ Err ManifestFault.Memory) ⊎ ReadsAs bytes.now result }
    {
        let table = table_of(alloc, bytes)?;
        let taken = take(alloc, &table)?;
        Ok(Manifest::of(table, taken))
    }

    /// Reads a manifest: a TOML text in UTF-8. The first refusal decides, in the order of docs/FORMAT.md.
    pub fn read(alloc: Global, bytes: &[u8]) -> Result<Manifest, ManifestFault>
        ensures outcome { (result ≡ Err ManifestFault.Memory) ⊎ ReadsAs bytes.now result }
        ensures no_other { (outcome : Result Seen Fault) → ReadsAs bytes.now outcome → (result ≡ Err ManifestFault.Memory) ⊎ (result ≡ outcome) }
        ensures keys_rise { (ms : Members) → IsTextOf bytes.now ms → members_are_sorted ms ≡ true }
    {
        Manifest::read_whole(alloc, bytes)
    }

    /// What is done with a file that is in neither list.
    pub fn policy(&self) -> Policy
        ensures { result ≡ self.now.lists.policy }
    {
        self.policy
    }

    /// How many trusted files there are.
    pub fn trusted_len(&self) -> usize
        ensures { result ≡ length self.now.lists.trusted }
    {
        self.trusted.len()
    }

    /// The trusted file at a place in their list, counted from 0.
    pub fn trusted(&self, k: usize) -> &Trusted
        requires { k < length self.now.lists.trusted }
        ensures { slice_get self.now.lists.trusted k ≡ Some result.now }
    {
        &self.trusted[k]
    }

    /// How many allowed files there are.
    pub fn allowed_len(&self) -> usize
        ensures { result ≡ length self.now.lists.allowed }
    {
        self.allowed.len()
    }

    /// The normal uri of the allowed file at a place in their list, counted from 0.
    pub fn allowed(&self, k: usize) -> &Text
        requires { k < length self.now.lists.allowed }
        ensures { slice_get self.now.lists.allowed k ≡ Some result.now }
    {
        &self.allowed[k]
    }

    /// How many mounts there are, with that of the root.
    pub fn mounts_len(&self) -> usize
        ensures { result ≡ length self.now.lists.mounts }
    {
        self.mounts.len()
    }

    /// The mount at a place in their list, counted from 0, where the root stands.
    pub fn mount(&self, k: usize) -> &Mount
        requires { k < length self.now.lists.mounts }
        ensures value { slice_get self.now.lists.mounts k ≡ Some result.now }
        ensures normal { normal result.now.path ≡ result.now.path }
        ensures absolute { is_absolute result.now.path ≡ true }
    {
        &self.mounts[k]
    }

    /// The key of a name.
    pub fn key(&self, name: &str) -> Option<[u8; 16]>
        ensures { result ≡ lookup (bytes_eq name.now) self.now.lists.keys }
    {
        key_in(&self.table, name)
    }

    /// The manifest with all sums, one for each trusted file in their order; a listed one stays.
    pub fn with_sums(&self, alloc: Global, sums: &[[u8; 32]]) -> Result<Manifest, Memory>
        requires { FitSums self.now.lists.trusted sums.now }
        ensures whole { IfOk result (λ made. made.«table» ≡ with_trusted (summed_items self.now.lists.trusted sums.now) self.now.«table») }
        ensures lists { IfOk result (λ made. Listed made.«table» (Ok made.lists)) }
    {
        let table = with_sums_of(alloc, &self.table, self.trusted.as_slice(), sums)?;
        Manifest::of_accepted(alloc, table)
    }

    /// A TOML text of the manifest's table, which is read as this manifest.
    pub fn print(&self, alloc: Global) -> Result<Text, Memory>
        ensures text { IfOk result (λ text. IsTextOf text self.now.«table») }
        ensures reads { IfOk result (λ text. ReadsAs text (Ok self.now)) }
    {
        match toml::table_to_string(alloc, &self.table) {
            Ok(text) => Ok(Text::from(text)),
            Err(PrintError::OutOfMemory) => Err(Memory),
            Err(PrintError::DateInvalid) => unreachable!(),
        }
    }
}

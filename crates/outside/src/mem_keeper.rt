// A keeper in memory.
ghost use Rattle.std.specs.Prelude.{◌≡◌, ◌-◌, ◌↔◌, min, length, drop, Some, Err, IfOk, OnOk, OnErr, IsErr, IsErrOf};
ghost use Rattle.std.specs.Option.{option_copied};
ghost use Rattle.outside.specs.declared.keeper.KeeperFault.TheVariants.{Failed};
ghost use Rattle.outside.specs.Files.{file_at, stored};
ghost use Rattle.outside.specs.Keeper.{GotFrom, LoadsAs, FillsFront};
ghost use Rattle.outside.specs.Memory.{new_memory, load_of, after_load, after_store};
ghost use Rattle.outside.specs.Plan.{FailsNext};

use crate::keeper::{Keeper, KeeperFault, Load};
use crate::plan::FaultPlan;
use std::alloc::{AllocError, Global};
use std::collections::BTreeMap;
use std::marker::Model;

/// A keeper that holds its files in memory, and fails where it is told to.
///
/// Its loads and its stores are numbered apart, each from 0, and each call takes the next number. A call that is to fail
/// raises the count of faults of its kind, and nothing else raises one.
#[derive(Drop)]
pub struct MemKeeper {
    alloc: Global,
    files: BTreeMap<String, Vec<u8>>,
    loads: FaultPlan,
    stores: FaultPlan,
    failed_load: Option<String>,
}

impl Model for MemKeeper {
    ghost use Rattle.std.specs.String.{string_bytes};
    ghost use Rattle.std.specs.Option.{option_map};
    ghost use Rattle.outside.specs.Memory.{Memory, memory_code};
    ghost use Rattle.outside.specs.MemFiles.{files_of};

    ghost Value = { Memory };

    ghost coded = { memory_code };

    ghost view = { λ k. record { files = files_of k.files.entries; loads = k.loads; stores = k.stores; failed_load = option_map string_bytes k.failed_load } };
}

impl MemKeeper {
    /// A keeper without files, whose loads and stores with these numbers are to fail.
    pub fn new(
        alloc: Global,
        fail_loads: &[u64],
        fail_stores: &[u64],
    ) -> Result<MemKeeper, AllocError>
        ensures { IfOk result (λ keeper. keeper ≡ new_memory fail_loads.now fail_stores.now) }
    {
        Ok(MemKeeper {
            alloc,
            files: BTreeMap::new(alloc),
            loads: FaultPlan::new(alloc, fail_loads)?,
            stores: FaultPlan::new(alloc, fail_stores)?,
            failed_load: None,
        })
    }

    /// Makes the file `name` hold `bytes`, and leaves the other files as they were. Counts as no store.
    #[tactic(auto, using(crate::proofs::FileEntries::file_entries))]
    pub fn put_file(&mut self, name: &str, bytes: &[u8]) -> Result<(), AllocError>
        ensures ok { OnOk result (self.new ≡ record self.old { files = stored self.old.files name.now bytes.now }) }
        ensures err { OnErr result (self.new ≡ self.old) }
    {
        let name = String::from_str(self.alloc, name)?;
        let bytes = Vec::from_slice(self.alloc, bytes)?;
        self.files.insert(name, bytes)?;
        Ok(())
    }

    /// The bytes of the file `name`, or `None` exactly where no such file is there.
    #[tactic(auto, using(crate::proofs::FileEntries::file_entries))]
    pub fn bytes_of(&self, name: &str) -> Option<&[u8]>
        ensures { option_copied result ≡ file_at self.now.files name.now }
    {
        self.files.get(name).map(|bytes| bytes.as_slice())
    }
}

// Copies what `bytes` has from `at` on to the front of `into`, and says how many bytes it copied.
fn copy_from(bytes: &[u8], at: u64, into: &mut [u8]) -> usize
    ensures count { result ≡ min (length into.old) (length bytes.now - at) }
    ensures got { GotFrom bytes.now at result into.new }
    ensures rest { drop result into.new ≡ drop result into.old }
{
    let start = bytes.len().min(at as usize);
    let count = into.len().min(bytes.len() - start);
    into[..count].copy_from_slice(&bytes[start..start + count]);
    count
}

impl Keeper for MemKeeper {
    ghost files = { λ k. Some k.files };

    ghost load_faults = { λ k. k.loads.faults };

    ghost store_faults = { λ k. k.stores.faults };

    ghost failed = { λ k. Some k.failed_load };

    /// Takes memory only where the load is to fail, for the name. A failing load that finds none answers `NoMemory` and
    /// counts as no fault.
    fn load(&mut self, name: &str, at: u64, into: &mut [u8]) -> Result<Load, KeeperFault>
        ensures fails { IsErr result ↔ FailsNext self.old.loads }
        ensures found { IfOk result (λ load. load ≡ load_of (file_at self.old.files name.now) at (length into.old)) }
        ensures answer { IfOk result (LoadsAs (file_at self.old.files name.now) at into.new) }
        ensures front { IfOk result (FillsFront into.old into.new) }
        ensures kept { OnErr result (into.new ≡ into.old) }
        ensures after { self.new ≡ after_load self.old name.now result }
    {
        if self.loads.fails_next() {
            return Err(self.fail_load(name));
        }
        self.loads.pass();
        match self.bytes_of(name) {
            None => Ok(Load::Missing),
            Some(bytes) => Ok(Load::Got(copy_from(bytes, at, into))),
        }
    }

    /// Takes memory for the name and the bytes, and puts them in the place of an older file.
    fn store(&mut self, name: &str, bytes: &[u8]) -> Result<(), KeeperFault>
        ensures fails { IsErrOf result Failed ↔ FailsNext self.old.stores }
        ensures after { self.new ≡ after_store self.old name.now bytes.now result }
    {
        if self.stores.fails_next() {
            self.stores.fail();
            return Err(KeeperFault::Failed);
        }
        self.stores.pass();
        self.put_file(name, bytes)?;
        Ok(())
    }
}

impl MemKeeper {
    // Counts a load that is to fail, and keeps its name.
    fn fail_load(&mut self, name: &str) -> KeeperFault
        ensures { self.new ≡ after_load {T = Load} self.old name.now (Err result) }
    {
        match String::from_str(self.alloc, name) {
            Ok(name) => {
                self.failed_load = Some(name);
                self.loads.fail();
                KeeperFault::Failed
            }
            Err(_) => {
                self.loads.pass();
                KeeperFault::NoMemory
            }
        }
    }
}

// Where files are kept.
ghost use Rattle.std.specs.Prelude.{◌≡◌, ℕ, List, Option, IfOk};
ghost use Rattle.outside.specs.declared.keeper.KeeperFault.TheVariants.{Failed, NoMemory};
ghost use Rattle.outside.specs.Faults.{HasCause};
ghost use Rattle.outside.specs.Files.{Files};
ghost use Rattle.outside.specs.Keeper.{Loads, FillsFront, failed_name, files_after};

use std::alloc::AllocError;

/// What a load found.
#[derive(Clone, Copy, Debug, PartialEq, Eq)]
pub enum Load {
    /// No file has this name.
    Missing,
    /// So many bytes of the file stand at the front of the buffer.
    Got(usize),
}

/// Why a load or a store did nothing.
#[derive(Clone, Copy, Debug, PartialEq, Eq)]
pub enum KeeperFault {
    /// The keeper could not read or write.
    Failed,
    /// There was no memory for the call.
    NoMemory,
}

impl From<AllocError> for KeeperFault {
    ghost from_gives = { λ _ fault. fault ≡ NoMemory };

    fn from(_: AllocError) -> KeeperFault {
        KeeperFault::NoMemory
    }
}

/// Keeps files by their names.
///
/// It may tell its files and the name of the last load that failed (`Some None` where none has), and always counts its
/// faults.
pub trait Keeper {
    /// The files by their names, where the keeper tells them.
    ghost files: { Self → Option Files };

    /// How often a load has failed.
    ghost load_faults: { Self → ℕ };

    /// How often a store has failed.
    ghost store_faults: { Self → ℕ };

    /// The name of the last load that failed, if any has, where the keeper tells it.
    ghost failed: { Self → Option (Option (List ℕ)) };

    /// Reads bytes of the file `name` from the place `at` on into the front of `into`, and says how many.
    ///
    /// The count is 0 only where `at` is not before the file's end, or `into` is empty. After an `Err` the buffer may hold
    /// anything.
    fn load(&mut self, name: &str, at: u64, into: &mut [u8]) -> Result<Load, KeeperFault>
        ensures answer { Loads (files self.old) name.now at into.new result }
        ensures front { IfOk result (FillsFront into.old into.new) }
        ensures files { files self.new ≡ files self.old }
        ensures cause { HasCause Failed (load_faults self.old) (load_faults self.new) result }
        ensures stores { store_faults self.new ≡ store_faults self.old }
        ensures failed { failed self.new ≡ failed_name (failed self.old) name.now result };

    /// Makes the file `name` hold exactly `bytes`, and leaves the other files as they were. After an `Err` each file is as
    /// it was.
    fn store(&mut self, name: &str, bytes: &[u8]) -> Result<(), KeeperFault>
        ensures files { files self.new ≡ files_after (files self.old) name.now bytes.now result }
        ensures cause { HasCause Failed (store_faults self.old) (store_faults self.new) result }
        ensures loads { load_faults self.new ≡ load_faults self.old }
        ensures failed { failed self.new ≡ failed self.old };
}

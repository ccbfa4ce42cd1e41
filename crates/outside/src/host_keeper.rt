// The files of the host as a keeper.
ghost use Rattle.std.specs.Prelude.{◌≡◌, None, IfOk};
ghost use Rattle.outside.specs.Faults.{counted};
ghost use Rattle.outside.specs.HostFaults.{no_faults};
ghost use Rattle.outside.specs.Keeper.{FillsFront};

use crate::keeper::{Keeper, KeeperFault, Load};
use std::fs::{self, OpenFile};
use std::io::{ErrorKind, Read, Seek, SeekFrom, Write};
use std::marker::Model;
use std::rt::Files;

// At most so many bytes come of one load.
const PIECE: usize = 65536;

/// The files of a runtime, by their paths from the current folder. It tells nothing of them, and counts its faults.
///
/// A file that is not there is missing. A folder, a file that can't be read and a path through a file fail the load, so
/// that none of them is taken for a name that is free.
pub struct HostKeeper<'r, R> {
    rt: &'r R,
    load_faults: u64,
    store_faults: u64,
}

impl<'r, R> Model for HostKeeper<'r, R> {
    ghost use Rattle.outside.specs.HostFaults.{HostFaults};

    ghost Value = { HostFaults };

    ghost view = { λ k. record { loads = k.load_faults; stores = k.store_faults } };
}

impl<R> Drop for HostKeeper<'_, R> {
    fn drop(self) {
        let HostKeeper {
            rt: _,
            load_faults: _,
            store_faults: _,
        } = self;
    }
}

impl<'r, R: Files + Alloc> HostKeeper<'r, R> {
    /// A keeper that has not failed yet.
    pub fn new(rt: &'r R) -> HostKeeper<'r, R>
        ensures { result ≡ no_faults }
    {
        HostKeeper {
            rt,
            load_faults: 0,
            store_faults: 0,
        }
    }
}

impl<R: Files + Alloc> Keeper for HostKeeper<'_, R> {
    ghost files = { λ _. None };

    ghost load_faults = { λ k. k.loads };

    ghost store_faults = { λ k. k.stores };

    ghost failed = { λ _. None };

    /// Opens the file and reads once, at most 64 KiB. Takes no memory.
    fn load(&mut self, name: &str, at: u64, into: &mut [u8]) -> Result<Load, KeeperFault>
        ensures front { IfOk result (FillsFront into.old into.new) }
        ensures faults { self.new ≡ record self.old { loads = counted self.old.loads result } }
    {
        let loaded = load_piece(self.rt, name, at, into);
        if loaded.is_err() {
            self.load_faults = self.load_faults.saturating_add(1);
        }
        loaded
    }

    /// Writes the file `NAME~`, over what it held, waits until the bytes are on the disk, and renames it, so that the file
    /// `name` never holds a part of the bytes. Where that fails, `NAME~` is removed.
    fn store(&mut self, name: &str, bytes: &[u8]) -> Result<(), KeeperFault>
        ensures faults { self.new ≡ record self.old { stores = counted self.old.stores result } }
    {
        let stored = replace_file(self.rt, name, bytes);
        if stored.is_err() {
            self.store_faults = self.store_faults.saturating_add(1);
        }
        stored
    }
}

// One read of the file from the place on.
fn load_piece<R: Files>(rt: &R, name: &str, at: u64, into: &mut [u8]) -> Result<Load, KeeperFault>
    ensures front { IfOk result (FillsFront into.old into.new) }
{
    let mut file = match fs::open(rt, name) {
        Ok(file) => file,
        Err(error) if error.kind() == ErrorKind::NotFound => return Ok(Load::Missing),
        Err(_) => return Err(KeeperFault::Failed),
    };
    let mut piece = [0; PIECE];
    let room = into.len().min(PIECE);
    match file
        .seek(SeekFrom::Start(at))
        .and_then(|_| file.read(&mut piece[..room]))
    {
        Ok(count) => {
            into[..count].copy_from_slice(&piece[..count]);
            Ok(Load::Got(count))
        }
        Err(_) => Err(KeeperFault::Failed),
    }
}

// Writes the bytes beside the file, and puts them in its place once all are on the disk.
fn replace_file<R: Files + Alloc>(rt: &R, name: &str, bytes: &[u8]) -> Result<(), KeeperFault> {
    let beside = format!(in rt.alloc(); "{name}~")?;
    let beside = beside.as_str();
    let Ok(mut file) = fs::create(rt, beside) else {
        return Err(KeeperFault::Failed);
    };
    let written = file.write_all(bytes).and_then(|()| file.sync_all());
    if written.is_ok() && fs::rename(rt, beside, name).is_ok() {
        return Ok(());
    }
    let _ = fs::remove_file(rt, beside);
    Err(KeeperFault::Failed)
}

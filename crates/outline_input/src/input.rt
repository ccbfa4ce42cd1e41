//! Files that are loaded: one in pieces, to its end or past the limit, and a name that has to be new.

ghost use Rattle.std.specs.Prelude.{◌≡◌, ◌<◌, ◌≤◌, ◌+◌, ◌^◌, ℕ, List, Some, Ok, Err, length, vec_len, IfOk, OnOk};
ghost use Rattle.std.specs.Option.{option_map};
ghost use Rattle.outside.specs.Files.{Files, file_at};
ghost use Rattle.outside.specs.Keeper.{OnlyLoaded};
ghost use Rattle.outside.specs.declared.keeper.KeeperFault.TheVariants.{Failed, NoMemory};
ghost use Rattle.model.specs.File.{file_limit};
ghost use Rattle.outline_meaning.specs.Meaning.{Loaded, exactly, read, input_bytes, unused};
ghost use Rattle.outline_meaning.specs.Run.{IsLoad, IsLoadOf};
ghost use Rattle.outside.specs.Seen.{LoadFailed, seen_by};
ghost use Rattle.outline_meaning.specs.Follows.{Follows};
ghost use Rattle.outline_input.specs.Input.{named_of};
ghost use Rattle.outline_input.specs.Input.{IsFrontOf, BringsMore, Grows, KeepsName};

use outline_meaning::Status;
use outside::{Keeper, KeeperFault, Load};
use std::alloc::{AllocError, Global};

/// How many bytes a file may have.
pub const FILE_LIMIT: usize = 16_777_216;

/// How many bytes a load asks for.
const PIECE: usize = 65_536;

/// A word that names a file, and the name.
#[derive(Clone, Copy)]
pub struct Named<'w> {
    pub word: u32,
    pub name: &'w str,
}

/// What one load brought.
#[derive(Clone, Copy, Debug)]
enum Piece {
    Missing,
    End,
    More,
}

fn zeros(alloc: Global, len: usize) -> Result<Vec<u8>, AllocError>
    ensures { IfOk result (λ bytes. vec_len bytes ≡ len) }
{
    vec![in alloc; 0u8; len]
}

// Loads what follows the bytes that are there, and appends it.
fn load_piece<K: Keeper>(
    keeper: &mut K,
    name: &str,
    room: &mut [u8],
    bytes: &mut Vec<u8>,
) -> Result<Piece, KeeperFault>
    requires { 0 < length room.old }
    ensures told { (files : Files) → K.files keeper.old ≡ Some files
        → IsFrontOf (file_at files name.now) bytes.old.items
        → BringsMore (file_at files name.now) bytes.old.items bytes.new.items result }
    ensures grows { Grows (vec_len bytes.old) (vec_len bytes.new) result }
    ensures loads { OnlyLoaded K.files K.load_faults K.store_faults keeper.old keeper.new }
    ensures same_failed { OnOk result (K.failed keeper.new ≡ K.failed keeper.old) }
    ensures no_memory { result ≡ Err NoMemory → K.failed keeper.new ≡ K.failed keeper.old }
    ensures fault { let seen = seen_by K.files K.load_faults K.store_faults K.failed in
        result ≡ Err Failed → LoadFailed name.now (seen keeper.old) (seen keeper.new) }
{
    match keeper.load(name, bytes.len() as u64, room)? {
        Load::Missing => Ok(Piece::Missing),
        Load::Got(0) => Ok(Piece::End),
        Load::Got(count) => match bytes.extend_from_slice(&room[..count]) {
            Ok(()) => Ok(Piece::More),
            Err(_) => Err(KeeperFault::NoMemory),
        },
    }
}

/// All bytes of the file that a word of the command line names.
fn load_file<K: Keeper>(
    alloc: Global,
    keeper: &mut K,
    word: u32,
    name: &str,
) -> Result<Vec<u8>, Status>
    ensures loaded { let seen = seen_by K.files K.load_faults K.store_faults K.failed in
        (load : Loaded) × IsLoad (seen keeper.old) (seen keeper.new) name.now load
        × Follows (λ bytes. bytes.items) result (exactly (read word load)) }
    ensures bound { IfOk result (λ bytes. vec_len bytes ≤ file_limit) }
    ensures loads { OnlyLoaded K.files K.load_faults K.store_faults keeper.old keeper.new }
    ensures same_failed { KeepsName result (K.failed keeper.old) (K.failed keeper.new) }
{
    let mut room = zeros(alloc, PIECE)?;
    let mut bytes = Vec::new(alloc);
    while bytes.len() <= FILE_LIMIT {
        match load_piece(keeper, name, &mut room, &mut bytes) {
            Ok(Piece::Missing) => return Err(Status::Missing { word }),
            Ok(Piece::End) => return Ok(bytes),
            Ok(Piece::More) => {}
            Err(KeeperFault::Failed) => return Err(Status::ReadFault { word }),
            Err(KeeperFault::NoMemory) => return Err(Status::NoMemory),
        }
    }
    Err(Status::TooLarge {
        word,
        bytes: FILE_LIMIT as u64 + 1,
    })
}

/// All bytes of a file that a command reads, and none where it reads no such file.
pub fn load_input<K: Keeper>(
    alloc: Global,
    keeper: &mut K,
    input: Option<Named<'_>>,
) -> Result<Vec<u8>, Status>
    ensures loaded { let seen = seen_by K.files K.load_faults K.store_faults K.failed in
        (load : Loaded) × IsLoadOf (seen keeper.old) (seen keeper.new) (option_map named_of input.entry) load
        × Follows (λ bytes. bytes.items) result (exactly (input_bytes (option_map named_of input.entry) load)) }
    ensures bound { IfOk result (λ bytes. vec_len bytes ≤ file_limit) }
    ensures loads { OnlyLoaded K.files K.load_faults K.store_faults keeper.old keeper.new }
    ensures same_failed { KeepsName result (K.failed keeper.old) (K.failed keeper.new) }
{
    match input {
        Some(named) => load_file(alloc, keeper, named.word, named.name),
        None => Ok(Vec::new(alloc)),
    }
}

/// Finds that no file has the name yet that a command gives to a new one.
pub fn check_unused<K: Keeper>(keeper: &mut K, new_name: Option<Named<'_>>) -> Result<(), Status>
    ensures loaded { let seen = seen_by K.files K.load_faults K.store_faults K.failed in
        (load : Loaded) × IsLoadOf (seen keeper.old) (seen keeper.new) (option_map named_of new_name.entry) load
        × Follows (λ u. u) result (exactly (unused (option_map named_of new_name.entry) load)) }
    ensures loads { OnlyLoaded K.files K.load_faults K.store_faults keeper.old keeper.new }
{
    match new_name {
        Some(named) => check_missing(keeper, named.word, named.name),
        None => Ok(()),
    }
}

// Finds that no file has the name yet that this word gives.
fn check_missing<K: Keeper>(keeper: &mut K, word: u32, name: &str) -> Result<(), Status>
    ensures loaded { let seen = seen_by K.files K.load_faults K.store_faults K.failed in
        (load : Loaded) × IsLoad (seen keeper.old) (seen keeper.new) name.now load
        × Follows (λ u. u) result (exactly (unused (Some (word, name.now)) load)) }
    ensures loads { OnlyLoaded K.files K.load_faults K.store_faults keeper.old keeper.new }
{
    match keeper.load(name, 0, &mut [0]) {
        Ok(Load::Missing) => Ok(()),
        Ok(Load::Got(_)) => Err(Status::Exists { word }),
        Err(KeeperFault::Failed) => Err(Status::ReadFault { word }),
        Err(KeeperFault::NoMemory) => Err(Status::NoMemory),
    }
}

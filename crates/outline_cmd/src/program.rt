//! The program: the command that the words give, over the files, stored and printed.

ghost use Rattle.std.specs.Prelude.{◌≡◌, ◌<◌, ◌≤◌, ℕ, List, [], Some, Ok, Err, IfOk, IfErr, length, vec_len};
ghost use Rattle.outside.specs.Files.{Files, file_at};
ghost use Rattle.outside.specs.Keeper.{OnlyLoaded};
ghost use Rattle.outside.specs.Seen.{seen_by};
ghost use Rattle.model.specs.Change.{Change};
ghost use Rattle.model.specs.Command.{Command as TheCommand, found as founds, show as shows_name, items as lists_items};
ghost use Rattle.model.specs.File.{file_limit};
ghost use Rattle.model.specs.Stands.{Ledgers, AllStand};
ghost use Rattle.outline_words.specs.Table.{Order, command as ordering, Spell};
ghost use Rattle.outline_meaning.specs.Ending.{ending, refused};
ghost use Rattle.outline_meaning.specs.Ledgers.{ShowsFile, ShowsLedger, KeepsLedgers, IsDone};
ghost use Rattle.outline_meaning.specs.Meaning.{Loaded, Loads, exactly, input_bytes, roles, ordered, order_meaning};
ghost use Rattle.outline_cmd.specs.Tasks.{Does, order_made_of, over};
ghost use Rattle.outline_meaning.specs.Run.{AreLoads, Runs, given_by, outside_by};
ghost use Rattle.outline_meaning.specs.Works.{OrderWorks};
ghost use Rattle.outline_meaning.specs.Follows.{Follows};
ghost use Rattle.outline_cmd.specs.Stages.{answer_of};
ghost use Rattle.outline_meaning.specs.declared.status.Status.{Status as TheStatus};
ghost use Rattle.outline_meaning.specs.declared.status.Status.TheVariants.{Done};

use crate::ack::ack_file;
use crate::answer::{Answer, Store, check_size, finish};
use crate::bundle::bundle_file;
use crate::deliver::deliver_file;
use crate::edit::edit_file;
use crate::lines::holds_text;
use crate::scope::{Task, names_untaken, take};
use crate::show::show_file;
use cbor_det::{DiagnosticFault, diagnostic};
use outline_input::{check_unused, load_input};
use outline_meaning::Status;
use outline_words::{Words, read_words};
use outside::{Keeper, Sink, Tally};
use replica::{BadFile, DocRef, found as first_file};
use std::alloc::Global;

/// The answer of `items` over the bytes of a file.
fn items<'w>(alloc: Global, bytes: &[u8]) -> Result<Answer<'w>, Status>
    requires { length bytes.now ≤ file_limit }
    ensures { (name : List ℕ) (second : Loaded)
        → Follows answer_of result (order_made_of (ordering (lists_items name)) bytes.now second) }
{
    match diagnostic(alloc, bytes) {
        Ok(text) => Ok(Answer { text, store: None }),
        Err(DiagnosticFault::Cbor(fault)) => Err(Status::BadFile {
            word: 1,
            why: BadFile::Cbor(fault),
        }),
        Err(DiagnosticFault::NoMemory) => Err(Status::NoMemory),
    }
}

/// The answer of `found`.
fn found<'w>(
    alloc: Global,
    document: [u8; 16],
    members: u8,
    name: &'w str,
) -> Result<Answer<'w>, Status>
    requires some { 1 ≤ members }
    requires few { members ≤ 32 }
    ensures { (bytes : List ℕ) (second : Loaded)
        → Follows answer_of result (order_made_of (ordering (founds document members name.now)) bytes second) }
{
    let bytes = first_file(
        alloc,
        DocRef {
            id: document,
            n: members,
        },
    )?;
    let text = holds_text(alloc, members)?;
    Ok(Answer {
        text,
        store: Some(Store {
            word: 3,
            name,
            bytes,
        }),
    })
}

/// What a task makes of the bytes of its file, if it reads one, and of those of its second file, or what is wrong with reading it.
fn make<'w>(
    alloc: Global,
    task: Task<'w>,
    bytes: &[u8],
    second: &Result<Vec<u8>, Status>,
    tally: &mut Tally,
) -> Result<Answer<'w>, Status>
    requires given { (order : Order) × Does task order }
    requires short { length bytes.now ≤ file_limit }
    requires short_second { IfOk second.now (λ b. vec_len b ≤ file_limit) }
    ensures meant { (order : Order) (load : Loaded) → Does task.entry order
        → Follows (λ b. b.items) second.now (exactly (input_bytes (roles order).second load))
        → Follows answer_of result (order_made_of order bytes.now load) }
    ensures works { (order : Order) (load : Loaded) → Does task.entry order
        → Follows (λ b. b.items) second.now (exactly (input_bytes (roles order).second load))
        → OrderWorks order (over bytes.now load) tally.old tally.new }
{
    match task {
        Task::Found {
            document,
            members,
            name,
        } => found(alloc, document, members, name),
        Task::Edit { name, edit } => edit_file(alloc, bytes, name, edit, tally),
        Task::Ack { name } => ack_file(alloc, bytes, name),
        Task::Show { .. } => show_file(alloc, bytes, tally),
        Task::Items { .. } => items(alloc, bytes),
        Task::Bundle {
            vector,
            new_name,
            ..
        } => bundle_file(alloc, bytes, &vector, new_name),
        Task::Deliver { name, .. } => deliver_file(alloc, bytes, second, name, tally),
    }
}

/// The answer of a task, over the files that it names.
fn answer<'w, K: Keeper>(
    alloc: Global,
    keeper: &mut K,
    task: Task<'w>,
    tally: &mut Tally,
) -> Result<Answer<'w>, Status>
    requires { (order : Order) × Does task order }
    ensures meant { let seen = seen_by K.files K.load_faults K.store_faults K.failed in
        (order : Order) → Does task.entry order
        → (loads : Loads) × AreLoads (seen keeper.old) (seen keeper.new) (roles order) loads
        × Follows answer_of result (order_meaning loads order) × OrderWorks order loads tally.old tally.new }
    ensures loads { OnlyLoaded K.files K.load_faults K.store_faults keeper.old keeper.new }
{
    let new_name = task.new_name();
    let bytes = load_input(alloc, keeper, task.input())?;
    // What is wrong with the second file is told behind what is wrong with the first.
    let second = load_input(alloc, keeper, task.second());
    let answer = make(alloc, task, &bytes, &second, tally)?;
    check_unused(keeper, new_name)?;
    check_size(&answer)?;
    Ok(answer)
}

/// The task that the words give.
fn read_task(alloc: Global, words: &Words) -> Result<Task<'_>, Status>
    ensures ok { IfOk result (λ task. (order : Order) × Does task order × ordered 0 words.now (Ok order)) }
    ensures err { IfErr result (λ status. ordered 0 words.now (Err status)) }
    ensures early { IfErr result (λ status. ending status ≡ refused) }
{
    if names_untaken(words) {
        return Err(Status::NotBuilt { word: 0 });
    }
    match read_words(alloc, words) {
        Ok(command) => take(command),
        Err(fault) => Err(Status::Words {
            line: 0,
            word: fault.word,
        }),
    }
}

/// Does all that the program does: the command that the words give, over the keeper's files, its file stored and its
/// text printed to `out`. It takes any words. Counts the operations that it decodes and the moves that it does.
pub fn run<K: Keeper, S: Sink>(
    alloc: Global,
    words: &Words,
    keeper: &mut K,
    out: &mut S,
    tally: &mut Tally,
) -> Status
    // The status, what is stored and what is printed are those that are meant over what the run loads, whatever the
    // keeper and the sink tell.
    ensures meant { Runs result 0 words.now
        (outside_by (seen_by K.files K.load_faults K.store_faults K.failed keeper.old) (given_by S.written S.faults out.old))
        (outside_by (seen_by K.files K.load_faults K.store_faults K.failed keeper.new) (given_by S.written S.faults out.new)) }
    // The headline. A file that is shown is one file value, and the view of its document is printed.
    ensures shows { (files : Files) (name : List ℕ) → K.files keeper.old ≡ Some files
        → Spell words.now (ordering (shows_name name)) → result ≡ Done
        → ShowsFile files name (S.written out.old) (S.written out.new) }
    // Where it stands for a ledger, that is the view of replaying the ledger.
    ensures shows_ledger { (files : Files) (ledgers : Ledgers) (name : List ℕ) (h : List Change)
        → K.files keeper.old ≡ Some files → AllStand (file_at files) ledgers → ledgers name ≡ Some h
        → Spell words.now (ordering (shows_name name)) → result ≡ Done
        → ShowsLedger h (S.written out.old) (S.written out.new) }
    // What a command leaves stands for the ledgers that it makes of those before.
    ensures ledgers { (files now : Files) (ledgers : Ledgers) (c : TheCommand)
        → K.files keeper.old ≡ Some files → K.files keeper.new ≡ Some now → AllStand (file_at files) ledgers
        → ordered 0 words.now (Ok (ordering c)) → IsDone result → KeepsLedgers files now ledgers c }
    // Words that are refused are refused before anything is loaded.
    ensures unread { (refusal : TheStatus) → ordered 0 words.now (Err refusal)
        → (keeper.new ≡ keeper.old) × (tally.new ≡ tally.old) }
    // What is counted is bounded by the files that are read.
    ensures works { let seen = seen_by K.files K.load_faults K.store_faults K.failed in
        (order : Order) → ordered 0 words.now (Ok order)
        → (loads : Loads) × AreLoads (seen keeper.old) (seen keeper.new) (roles order) loads
        × OrderWorks order loads tally.old tally.new }
{
    let task = match read_task(alloc, words) {
        Ok(task) => task,
        Err(status) => return status,
    };
    match answer(alloc, keeper, task, tally) {
        Ok(answer) => finish(keeper, out, &answer),
        Err(status) => status,
    }
}

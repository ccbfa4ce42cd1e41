// Command lines that are run over files in memory.
use outline_cmd::{Status, Words, run};
use outside::{MemKeeper, MemSink, Tally};
use std::alloc::Global;
use std::test::*;

/// A command line, and what is to come of it.
#[derive(Clone, Copy)]
pub(crate) struct Step<'a> {
    pub(crate) line: &'a [&'a str],
    pub(crate) status: Status,
    pub(crate) text: &'a str,
    /// The bytes of the file `a` afterwards.
    pub(crate) after: &'a [u8],
}

/// Which loads, stores and puts fail, by their numbers, and how many bytes can be printed.
#[derive(Clone, Copy)]
pub(crate) struct Faults<'a> {
    pub(crate) loads: &'a [u64],
    pub(crate) stores: &'a [u64],
    pub(crate) puts: &'a [u64],
    pub(crate) room: usize,
}

/// None, and room for what these commands print, but of the largest files.
pub(crate) const NO_FAULTS: Faults<'_> = Faults {
    loads: &[],
    stores: &[],
    puts: &[],
    room: 4096,
};

/// How a command ended, whether it printed what it was to print, and whether its file is as it is to be.
pub(crate) type Went = (Status, bool, bool);

/// Runs a command line, and says how it ended and whether it printed this text.
fn run_line(
    alloc: Global,
    keeper: &mut MemKeeper,
    mut out: MemSink,
    line: &[&str],
    text: &str,
) -> Result<(Status, bool), Fail> {
    let mut words = Words::new(alloc);
    for word in line {
        words.push(word)?;
    }
    let mut tally = Tally::new();
    let status = run(alloc, &words, keeper, &mut out, &mut tally);
    Ok((status, out.bytes() == text.as_bytes()))
}

fn holds(keeper: &MemKeeper, bytes: &[u8]) -> bool {
    match keeper.bytes_of("a") {
        Some(held) => held == bytes,
        None => false,
    }
}

/// Takes a step over the files of a keeper.
pub(crate) fn take(alloc: Global, keeper: &mut MemKeeper, step: &Step<'_>) -> Result<Went, Fail> {
    let out = MemSink::new(alloc, NO_FAULTS.room, &[])?;
    let (status, printed) = run_line(alloc, keeper, out, step.line, step.text)?;
    Ok((status, printed, holds(keeper, step.after)))
}

/// Takes a step over the one file `a`, where some calls fail.
pub(crate) fn take_with(
    alloc: Global,
    before: &[u8],
    faults: &Faults<'_>,
    step: &Step<'_>,
) -> Result<Went, Fail> {
    let mut keeper = MemKeeper::new(alloc, faults.loads, faults.stores)?;
    keeper.put_file("a", before)?;
    let out = MemSink::new(alloc, faults.room, faults.puts)?;
    let (status, printed) = run_line(alloc, &mut keeper, out, step.line, step.text)?;
    Ok((status, printed, holds(&keeper, step.after)))
}

/// How a command over the one file `a` ends, and how many bytes the file has afterwards.
pub(crate) fn status_over(
    alloc: Global,
    before: &[u8],
    line: &[&str],
) -> Result<(Status, usize), Fail> {
    let mut keeper = MemKeeper::new(alloc, &[], &[])?;
    keeper.put_file("a", before)?;
    let out = MemSink::new(alloc, 1 << 18, &[])?;
    let (status, _) = run_line(alloc, &mut keeper, out, line, "")?;
    let len = match keeper.bytes_of("a") {
        Some(bytes) => bytes.len(),
        None => 0,
    };
    Ok((status, len))
}

//! What came of a delivery.

ghost use Rattle.std.specs.Prelude.{◌≡◌, ◌++◌, flat_map, map, string_bytes, IfOk, OnOk};
ghost use Rattle.model.specs.Text as printed;
ghost use Rattle.causal_inbox.specs.Names.{name_by, names_of};
ghost use Rattle.member_replica.specs.Reports.{named_line, numbers_line, refusal_of, report_of};

use causal_inbox::FullNames;
use cbor_det::OwnText;
use replica::Misfit;
use std::alloc::{AllocError, Global};

/// A ready change that was refused, and why.
#[derive(Clone, Copy, Debug, PartialEq, Eq)]
pub struct Refusal {
    pub member: u8,
    pub number: u32,
    pub misfit: Misfit,
}

/// What came of a delivery.
#[derive(Drop)]
pub struct Report {
    /// How many changes were accepted, those among them that had waited.
    pub accepted: u32,
    /// How many were held already.
    pub known: u32,
    /// How many were offered twice.
    pub same: u32,
    /// How many wait afterwards.
    pub waiting: u32,
    /// Those that differ from a kept or a waiting change of their name, in the order offered.
    pub forked: FullNames,
    /// Those that were ready and didn't fit, in that order.
    pub refused: Vec<Refusal>,
    /// Those for which there is no room to wait.
    pub full: FullNames,
}

impl Report {
    /// The report in printed lines: the numbers, and a line for each change that is named. Fails only where memory runs out.
    pub fn text(&self, alloc: Global) -> Result<OwnText, AllocError>
        ensures { IfOk result (λ text. text ≡ printed.report_text (report_of self.now) self.now.waiting) }
    {
        let mut text = String::new(alloc);
        push_numbers(&mut text, self)?;
        push_names(&mut text, "forked", &self.forked)?;
        push_refusals(&mut text, self.refused.as_slice())?;
        push_names(&mut text, "full", &self.full)?;
        Ok(OwnText::from_string(text))
    }
}

/// Appends the line of the numbers. After a refusal for want of memory a part of it may stand, here and below.
fn push_numbers(text: &mut String, report: &Report) -> Result<(), AllocError>
    ensures { OnOk result (string_bytes text.new ≡ string_bytes text.old
        ++ numbers_line (report_of report.now) report.now.waiting) }
{
    writeln!(
        text,
        "accepted {} known {} same {} waiting {}",
        report.accepted, report.known, report.same, report.waiting
    )
}

/// Appends a line for each name, behind a word.
fn push_names(text: &mut String, word: &str, names: &FullNames) -> Result<(), AllocError>
    ensures { OnOk result (string_bytes text.new ≡ string_bytes text.old
        ++ flat_map (named_line word.now) (names_of names.now)) }
{
    for i in 0..names.len() {
        push_name(text, word, names.at(i))?;
    }
    Ok(())
}

/// Appends the line of a name, behind a word.
fn push_name(text: &mut String, word: &str, name: &(u8, u32)) -> Result<(), AllocError>
    ensures { OnOk result (string_bytes text.new ≡ string_bytes text.old
        ++ named_line word.now (name_by name.now)) }
{
    let (member, number) = *name;
    writeln!(text, "{word} {member} {number}")
}

/// Appends a line for each refusal.
fn push_refusals(text: &mut String, refused: &[Refusal]) -> Result<(), AllocError>
    ensures { OnOk result (string_bytes text.new ≡ string_bytes text.old
        ++ flat_map printed.refused_line (map refusal_of refused.now)) }
{
    for refusal in refused {
        writeln!(
            text,
            "refused {} {} {}",
            refusal.member, refusal.number, refusal.misfit
        )?;
    }
    Ok(())
}

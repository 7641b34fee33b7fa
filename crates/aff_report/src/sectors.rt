//! The text of unreadable sectors.
ghost use Rattle.std.specs.Prelude.{◌≡◌, ◌+◌, ◌<◌, ◌≤◌, ◌∷◌, ◌++◌, ◌↔◌, IsTrue, IfOk, Some, drop, length};
ghost use Rattle.std.specs.String.{string_bytes};
ghost use Rattle.aff_spec.specs.Report.{bad_text, sector_run_text, sector_runs};
ghost use Rattle.aff_report.specs.Runs.{sector_run, sectors_text};

use crate::comma::comma_if;
use std::alloc::{AllocError, Global};
use std::fmt;

// Neighbouring sectors: the first of them, and how many there are.
#[derive(Clone, Copy)]
struct SectorRun {
    first: u32,
    count: usize,
}

impl fmt::Display for SectorRun {
    ghost output = { λ run. Some (sector_run_text (sector_run run)) };

    fn fmt<W: fmt::Write>(&self, f: &mut fmt::Formatter<W>) -> fmt::Result {
        let SectorRun { first, count } = *self;
        write!(f, "{first}+{count}")
    }
}

// The runs of a list of sectors with commas between them, or `-` if there are no sectors.
pub(crate) fn bad_text(alloc: Global, bad: &[u32]) -> Result<String, AllocError>
    ensures { IfOk result (λ text. string_bytes text ≡ bad_text bad.now) }
{
    if bad.is_empty() {
        format!(in alloc; "-")
    } else {
        runs_text(alloc, bad)
    }
}

fn runs_text(alloc: Global, sectors: &[u32]) -> Result<String, AllocError>
    ensures { IfOk result (λ text. string_bytes text ≡ sectors_text sectors.now) }
{
    let mut text = String::new(alloc);
    let mut done = 0;
    while done < sectors.len() {
        done += push_run(&mut text, &sectors[done..])?;
    }
    Ok(text)
}

// Adds the run that a list begins with, and a comma if more come. Gives how many sectors the run has.
fn push_run(text: &mut String, sectors: &[u32]) -> Result<usize, AllocError>
    requires { 0 < length sectors.now }
    ensures some { IfOk result (λ n. 0 < n) }
    ensures inside { IfOk result (λ n. n ≤ length sectors.now) }
    ensures text { IfOk result (λ n. string_bytes text.new ++ sectors_text (drop n sectors.now) ≡ string_bytes text.old ++ sectors_text sectors.now) }
{
    let run = first_run(sectors);
    let comma = comma_if(run.count < sectors.len());
    write!(text, "{run}{comma}")?;
    Ok(run.count)
}

// The greatest run that a list begins with.
fn first_run(sectors: &[u32]) -> SectorRun
    requires { 0 < length sectors.now }
    ensures some { 0 < result.count }
    ensures inside { result.count ≤ length sectors.now }
    ensures run { sector_runs sectors.now ≡ sector_run result ∷ sector_runs (drop result.count sectors.now) }
{
    let first = sectors[0];
    for count in 1..sectors.len() {
        if !goes_on(sectors[count - 1], sectors[count]) {
            return SectorRun { first, count };
        }
    }
    SectorRun {
        first,
        count: sectors.len(),
    }
}

// Whether a sector is the next one.
fn goes_on(before: u32, sector: u32) -> bool
    ensures { IsTrue result ↔ sector ≡ before + 1 }
{
    before.checked_add(1) == Some(sector)
}

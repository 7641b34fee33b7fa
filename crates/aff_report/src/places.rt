//! The text of places.
ghost use Rattle.std.specs.Prelude.{◌≡◌, ◌<◌, ◌≤◌, ◌∷◌, ◌++◌, ◌↔◌, IsTrue, IfOk, Some, drop, length};
ghost use Rattle.std.specs.String.{string_bytes};
ghost use Rattle.aff_spec.specs.Report.{place_run_text, place_runs, places_text};
ghost use Rattle.aff_report.specs.Runs.{next_place, place_run};

use crate::comma::comma_if;
use aff_model::Place;
use std::alloc::{AllocError, Global};
use std::fmt;

// Places of one kind, chunks of the stream in a row among them: the first of them, and how many there are.
#[derive(Clone, Copy)]
struct PlaceRun {
    first: Place,
    count: usize,
}

impl fmt::Display for PlaceRun {
    ghost output = { λ run. Some (place_run_text (place_run run)) };

    fn fmt<W: fmt::Write>(&self, f: &mut fmt::Formatter<W>) -> fmt::Result {
        let count = self.count;
        match self.first {
            Place::Zero => write!(f, "z{count}"),
            Place::Nothing => write!(f, "n{count}"),
            Place::Chunk(first) => write!(f, "c{first}+{count}"),
        }
    }
}

// The runs of a list of places with commas between them.
pub(crate) fn places_text(alloc: Global, places: &[Place]) -> Result<String, AllocError>
    ensures { IfOk result (λ text. string_bytes text ≡ places_text places.now) }
{
    let mut text = String::new(alloc);
    let mut done = 0;
    while done < places.len() {
        done += push_run(&mut text, &places[done..])?;
    }
    Ok(text)
}

// Adds the run that a list begins with, and a comma if more come. Gives how many places the run has.
fn push_run(text: &mut String, places: &[Place]) -> Result<usize, AllocError>
    requires { 0 < length places.now }
    ensures some { IfOk result (λ n. 0 < n) }
    ensures inside { IfOk result (λ n. n ≤ length places.now) }
    ensures text { IfOk result (λ n. string_bytes text.new ++ places_text (drop n places.now) ≡ string_bytes text.old ++ places_text places.now) }
{
    let run = first_run(places);
    let comma = comma_if(run.count < places.len());
    write!(text, "{run}{comma}")?;
    Ok(run.count)
}

// The greatest run that a list begins with.
fn first_run(places: &[Place]) -> PlaceRun
    requires { 0 < length places.now }
    ensures some { 0 < result.count }
    ensures inside { result.count ≤ length places.now }
    ensures run { place_runs places.now ≡ place_run result ∷ place_runs (drop result.count places.now) }
{
    let first = places[0];
    for count in 1..places.len() {
        if !goes_on(places[count - 1], places[count]) {
            return PlaceRun { first, count };
        }
    }
    PlaceRun {
        first,
        count: places.len(),
    }
}

// Whether a place goes on the run of the place before it.
fn goes_on(before: Place, place: Place) -> bool
    ensures { IsTrue result ↔ place ≡ next_place before }
{
    match (before, place) {
        (Place::Zero, Place::Zero) | (Place::Nothing, Place::Nothing) => true,
        (Place::Chunk(before), Place::Chunk(chunk)) => before.checked_add(1) == Some(chunk),
        _ => false,
    }
}

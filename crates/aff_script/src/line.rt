//! One line of a script, by itself.
ghost use Rattle.std.specs.Prelude.{◌≡◌, ◌≢◌, ◌⊎◌, ◌∷◌, [], List, ℕ, MatchOption};
ghost use Rattle.aff_plan.specs.Line.{IsNoNumber, IsNumber};
ghost use Rattle.aff_plan.specs.Reading.{parts_behind};
ghost use Rattle.aff_script.specs.Line.{AreThere, Fits, HasForm, LackNumber, fields_of, form_of, numbers_of, word_of};
ghost use Rattle.aff_script.specs.declared.line.Form.{Form};

use crate::script::Request;
use aff_plan::{cut_at, number};

/// The forms of a line.
#[derive(Clone, Copy, Debug, PartialEq, Eq)]
pub enum Form {
    Session,
    Read,
    Raise,
    Await,
    After,
}

/// What a line says: a session begins, or the one that began last has one request more.
#[derive(Clone, Copy, Debug, PartialEq, Eq)]
pub enum Said {
    Begin,
    Ask(Request),
}

// The form with this first word.
fn form_with(word: &[u8]) -> Option<Form>
    ensures { MatchOption result ((f : Form) → word.now ≢ word_of f) (λ f. word.now ≡ word_of f) }
{
    if word == b"session".as_slice() {
        Some(Form::Session)
    } else if word == b"read".as_slice() {
        Some(Form::Read)
    } else if word == b"raise".as_slice() {
        Some(Form::Raise)
    } else if word == b"await".as_slice() {
        Some(Form::Await)
    } else if word == b"after".as_slice() {
        Some(Form::After)
    } else {
        None
    }
}

// The one field behind a word.
fn one_field(rest: Option<&[u8]>) -> Option<&[u8]>
    ensures { MatchOption result ((a : List ℕ) → a ≢ [] → parts_behind 32 rest.entry ≢ a ∷ [])
        (λ a. (parts_behind 32 rest.entry ≡ a.now ∷ []) × (a.now ≢ [])) }
{
    let (field, more) = cut_at(rest?, b' ');
    if more.is_some() {
        return None;
    }
    if field.is_empty() {
        return None;
    }
    Some(field)
}

fn two_fields(rest: Option<&[u8]>) -> Option<(&[u8], &[u8])>
    ensures { MatchOption result ((a b : List ℕ) → (a ≢ []) × (b ≢ []) → parts_behind 32 rest.entry ≢ a ∷ b ∷ [])
        (λ f. (parts_behind 32 rest.entry ≡ f.0.now ∷ f.1.now ∷ []) × ((f.0.now ≢ []) × (f.1.now ≢ []))) }
{
    let (first, more) = cut_at(rest?, b' ');
    let second = one_field(more)?;
    if first.is_empty() {
        return None;
    }
    Some((first, second))
}

// The fields of a form, from what is behind its word. Those that the form has not got are empty.
fn fields(form: Form, rest: Option<&[u8]>) -> Option<(&[u8], &[u8])>
    ensures { MatchOption result ((a b : List ℕ) → AreThere form a b → parts_behind 32 rest.entry ≢ fields_of form a b)
        (λ f. (parts_behind 32 rest.entry ≡ fields_of form f.0.now f.1.now) × AreThere form f.0.now f.1.now) }
{
    let none = b"".as_slice();
    match form {
        Form::Session => match rest {
            None => Some((none, none)),
            Some(_) => None,
        },
        Form::Read => two_fields(rest),
        Form::Raise => two_fields(rest),
        Form::Await => Some((one_field(rest)?, none)),
        Form::After => match rest {
            None => Some((none, none)),
            Some(_) => None,
        },
    }
}

/// The form of a line and its fields. Those that the form has not got are empty.
pub fn read_form(line: &[u8]) -> Option<(Form, &[u8], &[u8])>
    ensures { MatchOption result ((f : Form) (a b : List ℕ) → ¬ (HasForm line.now f a b))
        (λ f. HasForm line.now f.0 f.1.now f.2.now) }
{
    let (word, rest) = cut_at(line, b' ');
    let form = form_with(word)?;
    let (first, second) = fields(form, rest)?;
    Some((form, first, second))
}

/// What a line of a form says by its fields.
pub fn read_said(form: Form, first: &[u8], second: &[u8]) -> Option<Said>
    ensures { MatchOption result (LackNumber form first.now second.now)
        (λ s. (form ≡ form_of s) × (fields_of form first.now second.now ≡ numbers_of s) × Fits s) }
{
    match form {
        Form::Session => Some(Said::Begin),
        Form::Read => {
            let (at, len) = range(first, second)?;
            Some(Said::Ask(Request::Read { at, len }))
        }
        Form::Raise => {
            let (at, len) = range(first, second)?;
            Some(Said::Ask(Request::Raise { at, len }))
        }
        Form::Await => Some(Said::Ask(Request::Await(number(first)?))),
        Form::After => Some(Said::Ask(Request::After)),
    }
}

fn range(at: &[u8], len: &[u8]) -> Option<(u64, u64)>
    ensures { MatchOption result (IsNoNumber at.now ⊎ IsNoNumber len.now) (λ r. IsNumber at.now r.0 × IsNumber len.now r.1) }
{
    Some((number(at)?, number(len)?))
}

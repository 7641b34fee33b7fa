//! Worked cases: a small volume that was acquired, then damaged in one place, and what is said of it.
#![tactic(auto)]

#[cfg(test)]
mod change;
#[cfg(test)]
mod rows;
#[cfg(test)]
mod tests;
#[cfg(test)]
mod volume;

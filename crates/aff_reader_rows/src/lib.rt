//! Worked cases: one analyst, one session and one examiner, each over pieces that are handed to it or published before its
//! eyes.
#![tactic(auto)]

#[cfg(test)]
mod analyst;
#[cfg(test)]
mod examiner;
#[cfg(test)]
mod lists;
#[cfg(test)]
mod pieces;
#[cfg(test)]
mod session;
#[cfg(test)]
mod silent;

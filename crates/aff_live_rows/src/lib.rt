//! Worked cases over the whole program: what sessions are answered while the image grows and behind `after`, and what examiners
//! are shown of it. Each case has ample memory, and gates make threads meet in a limit of turns.
#![tactic(auto)]

#[cfg(test)]
mod answers;
#[cfg(test)]
mod demands;
#[cfg(test)]
mod examiners;
#[cfg(test)]
mod fixture;
#[cfg(test)]
mod gates;
#[cfg(test)]
mod growth;
#[cfg(test)]
mod scripts;

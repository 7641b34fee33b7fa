//! Worked cases over the whole program, with devices, folders and streams in memory, and the laws that
//! compute the definitions on small inputs. Each case has ample memory and names the status that it ends with, and
//! none of them is that of want of memory.
#![tactic(auto)]

#[cfg(test)]
mod blocks;
pub mod cases;
#[cfg(test)]
mod devices;
#[cfg(test)]
mod fixture;
#[cfg(test)]
mod folders;
#[cfg(test)]
mod hashes;
#[cfg(test)]
mod metadata;
#[cfg(test)]
mod plans;
#[cfg(test)]
mod tests;
#[cfg(test)]
mod unreadable;
#[cfg(test)]
mod workers;

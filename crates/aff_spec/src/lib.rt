//! Definitions that several crates cite: names, streams, maps and volumes of the format, the cells of a
//! history, and the texts. There is no code here; `specs/` has a file for each subject.
#![tactic(auto)]

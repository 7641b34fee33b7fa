//! The program's words.
use std::io::ErrorKind;
use std::{env, io};

/// The words behind the program's own name; none where one of them is not UTF-8, since such words are none of the
/// program's.
pub fn own_words(rt: &HostRuntime) -> io::Result<Vec<String>> {
    match env::args(rt) {
        Ok(words) => Ok(words.skip(1).collect(rt.alloc())?),
        Err(error) if error.kind() == ErrorKind::InvalidData => Ok(Vec::new(rt.alloc())),
        Err(error) => Err(error),
    }
}

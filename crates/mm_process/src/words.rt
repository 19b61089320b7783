//! The words of the command line.

use std::io::ErrorKind;
use std::{env, io};

/// The words after the program's name. Words that are no UTF-8 are no command, as no words are.
pub fn words_after_name(rt: &HostRuntime) -> io::Result<Vec<String>> {
    match env::args(rt) {
        Ok(mut all) => {
            let _ = all.next();
            Ok(all.collect(rt.alloc())?)
        }
        Err(error) if error.kind() == ErrorKind::InvalidData => Ok(Vec::new(rt.alloc())),
        Err(error) => Err(error),
    }
}

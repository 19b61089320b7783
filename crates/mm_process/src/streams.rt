//! Streams that are files of the instance: what goes to them would be written over it.

use std::fs;
use std::os::unix::fs::MetadataExt;

/// A standard stream, by a name that leads to what it is open on.
#[derive(Clone, Copy)]
pub enum Stream {
    Input,
    Output,
    Error,
}

impl Stream {
    // Where the system shows it.
    fn path(self) -> &'static str {
        match self {
            Stream::Input => "/proc/self/fd/0",
            Stream::Output => "/proc/self/fd/1",
            Stream::Error => "/proc/self/fd/2",
        }
    }

    /// Whether it is open on a file of the instance in the current directory.
    pub fn is_of_instance(self, rt: &HostRuntime) -> bool {
        is_file_of_any(rt, self.path())
    }
}

/// Whether one of the streams is open on a file of the instance.
pub fn are_of_instance(rt: &HostRuntime) -> bool {
    Stream::Input.is_of_instance(rt)
        || Stream::Output.is_of_instance(rt)
        || Stream::Error.is_of_instance(rt)
}

// Whether this path leads to the file of one of the instance's names.
fn is_file_of_any(rt: &HostRuntime, path: &str) -> bool {
    match fs::metadata(rt, path) {
        Ok(there) if there.is_file() => {
            let (device, number) = (there.dev(), there.ino());
            is_at(rt, "nv", device, number)
                || is_at(rt, "register", device, number)
                || is_at(rt, "register.new", device, number)
                || is_at(rt, "slot0", device, number)
                || is_at(rt, "slot1", device, number)
                || is_at(rt, "slot2", device, number)
                || is_at(rt, "slot3", device, number)
        }
        _ => false,
    }
}

// Whether the file of this name is that of this device and number.
fn is_at(rt: &HostRuntime, name: &str, device: u64, number: u64) -> bool {
    match fs::metadata(rt, name) {
        Ok(there) => there.dev() == device && there.ino() == number,
        Err(_) => false,
    }
}

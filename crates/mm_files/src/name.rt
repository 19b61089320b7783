//! The names of the program's files.

/// A file of the current directory, or that directory.
#[derive(Clone, Copy, PartialEq, Eq)]
pub enum FileName {
    Here,
    Nv,
    Register,
    NewRegister,
    Slot0,
    Slot1,
    Slot2,
    Slot3,
}

/// The program's files in the current directory. Each has a file of its own.
pub const FILES: [FileName; 7] = [
    FileName::Nv,
    FileName::Register,
    FileName::NewRegister,
    FileName::Slot0,
    FileName::Slot1,
    FileName::Slot2,
    FileName::Slot3,
];

impl FileName {
    /// What it is called.
    pub fn text(self) -> &'static str {
        match self {
            FileName::Here => "the current directory",
            FileName::Nv => "nv",
            FileName::Register => "register",
            FileName::NewRegister => "register.new",
            FileName::Slot0 => "slot0",
            FileName::Slot1 => "slot1",
            FileName::Slot2 => "slot2",
            FileName::Slot3 => "slot3",
        }
    }
}

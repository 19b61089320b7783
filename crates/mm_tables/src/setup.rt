//! How a command is run.

use mm_bytes::read_decimal;

/// The status that a command has to end with; how its input and its entropy are given, and its
/// output received; and which calls fail, none where the number is 0.
#[derive(Clone, Copy, Drop)]
pub struct Setup {
    /// The exit status.
    pub status: u64,
    /// The most bytes that a call of the input gives.
    pub piece: u64,
    /// The call of the input that fails, from 1.
    pub read: u64,
    /// The bytes that the output has room for.
    pub room: u64,
    /// The call of the output that fails.
    pub write: u64,
    /// How many bytes the entropy gives, each 7.
    pub secrets: u64,
    /// The most that a call of it gives.
    pub secrets_piece: u64,
    /// The call of it that fails.
    pub secret: u64,
    /// Not 0 where the input is what the command before it wrote.
    pub piped: u64,
}

impl Setup {
    /// Streams that give all at once, have room, and never fail.
    pub fn new() -> Setup {
        Setup {
            status: 0,
            piece: 1 << 32,
            read: 0,
            room: 1 << 20,
            write: 0,
            secrets: 64,
            secrets_piece: 64,
            secret: 0,
            piped: 0,
        }
    }

    // Takes in a word and a number, and says whether they are an option.
    fn set(&mut self, word: &str, number: u64) -> bool {
        match word {
            "status" => self.status = number,
            "piece" => self.piece = number,
            "read" => self.read = number,
            "room" => self.room = number,
            "write" => self.write = number,
            "secrets" => self.secrets = number,
            "secrets-piece" => self.secrets_piece = number,
            "secret" => self.secret = number,
            "piped" => self.piped = number,
            _ => return false,
        }
        true
    }

    // Takes in an option, and says whether it is one.
    fn takes(&mut self, option: &str) -> bool {
        let Some((word, number)) = option.split_once(" ") else {
            return false;
        };
        match read_decimal(number.as_bytes()) {
            Some(number) => self.set(word, number),
            None => false,
        }
    }

    /// What options between bars say, none where one of them is none.
    pub fn of(options: &str) -> Option<Setup> {
        let mut setup = Setup::new();
        for option in options.split(" | ") {
            if !setup.takes(option) {
                return None;
            }
        }
        Some(setup)
    }
}

//! Messages with their digests.

ghost use Rattle.std.specs.Prelude.{◌≡◌};
ghost use Rattle.sha2.specs.Sha256.{sha256};

use mm_bytes::Bytes;
use mm_digest::Digest;
use sha2::{Digest as _, Sha256};
use std::marker::Model;

/// A message with its digest, SHA-256 of it, so that it is hashed once. Contracts see the message.
#[derive(Drop)]
pub struct Message {
    text: Bytes,
    digest: Digest,
}

impl Model for Message {
    ghost use Rattle.std.specs.Prelude.{◌≡◌, List, ℕ};
    ghost use Rattle.sha2.specs.Sha256.{sha256};

    ghost Value = { List ℕ };

    ghost view = { λ it. it.text };

    ghost invariant = { λ it. it.digest.bytes ≡ sha256 it.text };
}

impl Message {
    /// A message, hashed. Takes no memory.
    pub fn hashed(text: Bytes) -> Message
        ensures { result ≡ text }
    {
        let digest = Digest {
            bytes: Sha256::digest(text.as_slice()),
        };
        Message { text, digest }
    }

    /// A message whose digest is known. Takes no memory.
    pub fn known(text: Bytes, digest: &Digest) -> Message
        requires { digest.now.bytes ≡ sha256 text }
        ensures { result ≡ text }
    {
        Message {
            text,
            digest: *digest,
        }
    }

    /// Its bytes.
    pub fn as_slice(&self) -> &[u8]
        ensures { result.now ≡ self.now }
    {
        self.text.as_slice()
    }

    /// Its digest.
    pub fn digest(&self) -> &Digest
        ensures { result.now.bytes ≡ sha256 self.now }
    {
        &self.digest
    }
}

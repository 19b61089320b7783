//! Hash functions and their messages, with vectors from outside.

use mm_digest::{
    Digest, HmacKey, Variant, anchored, extended, hmac_sha256, secured, secured_batch, start,
    successor, successor_batch, zero,
};
use sha2::{Digest as _, Sha256};
use std::test::Fail;

/// SHA-256 of the empty message and of `abc`, by FIPS 180-4; the digests of messages of the bytes 0
/// to 31 and 32 to 63 were made by another implementation.
const DIGESTS: &str = "\
empty e3b0c44298fc1c149afbf4c8996fb92427ae41e4649b934ca495991b7852b855
abc ba7816bf8f01cfea414140de5dae2223b00361a396177a9cb410ff61f20015ad
zero 0000000000000000000000000000000000000000000000000000000000000000
start-basic fbb59ed10e9cd4ff45a12c5bb92cbd80df984ba1fe60f26a30febf218e2f0f5e
start-opt ca1f6393ea04ec78015768dd1edb03f0fc7dc23d2b9008df281586182a199cde
successor 134beeea210bb231b1a2f054857bcefddf21eded2ea5ed7321fee6d4a451e645
secured 973255afdecf68fdf2b2b83387e55281da74ca7a01bc28740ef520319a716cb8
anchored a18e7e934c932badded438e56cf87a8b65fc7e5f481f81be2a25c47a111728e5
successor-batch cbf675926aa588fc12b2805d4faba2a34ced00fad88ae18cdeb725caf10ae534
secured-batch b189203e7ad195a588ee3abb4af1893dee21675f43d49f1a30e1c49bea5062f7
extended fdeab9acf3710362bd2658cdc9a29e8f9c757fcf9811603a8c447cd1d9151108
";

/// The tags of RFC 4231, cases 1, 2 and 6, and of a key of exactly one block; those under the bytes
/// 0 to 31 were made by another implementation.
const TAGS: &str = "\
key 278639ec02309d3afded1b273f1349ba63b9089c12476d716bee3ecc94673e9e
key-of-three 278639ec02309d3afded1b273f1349ba63b9089c12476d716bee3ecc94673e9e
case-1 b0344c61d8db38535ca8afceaf0bf12b881dc200c9833da726e9376c2e32cff7
case-2 5bdcc146bf60754e6a042426089575c75a003f089d2739839dec58b964ec3843
case-6 60e431591ee0b67f0d8a26aacbf5b77f8e0bc6213728c5140546040f0ee37f54
block ae8201e9eb2c97cd30ae73dadb71327a4f4f77dabcfbe66a7ada94d55fd02ce4
";

const LOW: Digest = Digest {
    bytes: [
        0, 1, 2, 3, 4, 5, 6, 7, 8, 9, 10, 11, 12, 13, 14, 15, 16, 17, 18, 19, 20, 21, 22, 23, 24,
        25, 26, 27, 28, 29, 30, 31,
    ],
};

const HIGH: Digest = Digest {
    bytes: [
        32, 33, 34, 35, 36, 37, 38, 39, 40, 41, 42, 43, 44, 45, 46, 47, 48, 49, 50, 51, 52, 53, 54,
        55, 56, 57, 58, 59, 60, 61, 62, 63,
    ],
};

fn digest_of(word: &str) -> Digest {
    match word {
        "empty" => hashed(b""),
        "abc" => hashed(b"abc"),
        "start-basic" => start(Variant::Basic, 1),
        "start-opt" => start(Variant::Opt, 128),
        "successor" => successor(&LOW, b"add 5"),
        "secured" => secured(&LOW.bytes, b"add 5"),
        "anchored" => anchored(&LOW, &HIGH),
        "successor-batch" => successor_batch(&LOW, b"add 5\tadd 7"),
        "secured-batch" => secured_batch(&LOW.bytes, b"add 5\tadd 7"),
        "extended" => extended(&LOW, &HIGH),
        _ => zero(),
    }
}

fn hashed(message: &[u8]) -> Digest {
    Digest {
        bytes: Sha256::digest(message),
    }
}

fn tag_of(word: &str) -> Digest {
    match word {
        "key" => HmacKey::new(&LOW.bytes).tag(b"Hi There"),
        "key-of-three" => HmacKey::new(&LOW.bytes).tag_of_three(b"H", b"i The", b"re"),
        "case-1" => hmac_sha256(&[0x0b; 20], b"Hi There"),
        "case-2" => hmac_sha256(b"Jefe", b"what do ya want for nothing?"),
        "case-6" => hmac_sha256(
            &[0xaa; 131],
            b"Test Using Larger Than Block-Size Key - Hash Key First",
        ),
        _ => hmac_sha256(&[0xaa; 64], b"a block"),
    }
}

// Whether the digest's hexadecimal digits are this text.
fn is_spelled(digest: &Digest, text: &str) -> bool {
    let mut bytes = [0; 32];
    hex::decode_to_slice(text, &mut bytes).is_ok() && digest.bytes == bytes
}

#[test]
fn digests_of_known_messages(rt: HostRuntime) -> Result<(), Fail> {
    for line in DIGESTS.lines() {
        let (word, text) = line.split_once(' ').ok_or("no digest")?;
        assert!(rt; is_spelled(&digest_of(word), text), "{line}");
    }
    Ok(())
}

#[test]
fn tags_of_known_messages(rt: HostRuntime) -> Result<(), Fail> {
    for line in TAGS.lines() {
        let (word, text) = line.split_once(' ').ok_or("no tag")?;
        assert!(rt; is_spelled(&tag_of(word), text), "{line}");
    }
    Ok(())
}

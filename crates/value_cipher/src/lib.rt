//! The cipher that hides stored values from the server: each value is masked by a pad of its own,
//! the start of a ChaCha20 block (RFC 8439) under the key and the value's nonce.

#![tactic(auto)]

ghost use Rattle.std.specs.Prelude.{◌≡◌, ◌<◌, ◌≤◌, ◌^◌, ◌*◌, ◌+◌, ◌↔◌, length, IsSome, IfSome, Ok};
ghost use Rattle.std.specs.List.{AllPass};
ghost use Rattle.hex.specs.Hex.{decode_of, is_hex_digit};
ghost use Rattle.value_cipher.specs.Cipher.{pad_of, seal_of, unseal_of, nonce_at};

pub mod laws;

use hex::FromHex;
pub use mope_base::Body;
use rand_chacha::ChaCha20Rng;
use rand_core::SeedableRng;
use rand_core::utils::NextWord;

/// A secret key of 256 bits, as bytes. It is not `Debug`, so that no trace or panic can print it.
#[derive(Clone, Copy, PartialEq, Eq)]
pub struct Key {
    pub bytes: [u8; 32],
}

impl Key {
    /// The key that 64 hexadecimal digits spell, of either case, the high digit of each byte first.
    /// None where the text is anything else.
    pub fn from_hex(text: &[u8]) -> Option<Key>
        ensures found { IsSome result ↔ ((length text.now ≡ 64) × AllPass is_hex_digit text.now) }
        ensures value { IfSome result (λ key. decode_of text.now ≡ Ok key.bytes) }
    {
        match <[u8; 32] as FromHex>::from_hex(text) {
            Ok(bytes) => Some(Key { bytes }),
            Err(_) => None,
        }
    }
}

/// The 64 bits that mask the value of this nonce: words 0 and 1, the low one first, of ChaCha20's
/// block 0 under the key and the stream that the nonce names.
pub fn pad(key: &Key, nonce: u64) -> u64
    ensures { result ≡ pad_of key.now.bytes nonce }
{
    let mut stream = ChaCha20Rng::from_seed(key.bytes);
    stream.set_stream(nonce);
    let low = u64::from(stream.next_word());
    let high = u64::from(stream.next_word());
    low + (high << 32)
}

/// Hides a value. Under one key a nonce must serve one value alone: two bodies of one nonce give up
/// the XOR of their values.
#[tactic(auto, unfolding(crate::specs::Cipher::seal_of))]
pub fn seal(key: &Key, nonce: u64, value: u64) -> Body
    ensures { result ≡ seal_of key.now.bytes nonce value }
{
    Body {
        nonce,
        masked: value ^ pad(key, nonce),
    }
}

/// The value that a body hides under this key.
#[tactic(auto, unfolding(crate::specs::Cipher::unseal_of))]
pub fn unseal(key: &Key, body: Body) -> u64
    ensures { result ≡ unseal_of key.now.bytes body }
{
    body.masked ^ pad(key, body.nonce)
}

/// The nonce for the cell that a session, numbered from 1, seals after `counter` others: from
/// `first` on, each session has 2^32 nonces of its own.
#[tactic(auto, unfolding(crate::specs::Cipher::nonce_at))]
pub fn nonce_of(first: u64, session: u8, counter: u32) -> u64
    requires first_leaves_room { first ≤ 2 ^ 63 }
    requires session_from_one { 1 ≤ session }
    requires session_to_64 { session ≤ 64 }
    ensures { result ≡ nonce_at first session counter }
{
    first + (u64::from(session) - 1) * (1 << 32) + u64::from(counter)
}

#[cfg(test)]
mod tests {
    use super::*;

    // The first vector of RFC 8439, appendix A.1: its key stream begins 76 b8 e0 ad a0 f1 3d 90.
    #[test]
    fn zero_pad(rt: HostRuntime) {
        let key = Key { bytes: [0; 32] };
        assert_eq!(rt; pad(&key, 0), 0x903d_f1a0_ade0_b876);
        let body = Body {
            nonce: 0,
            masked: 0x903d_f1a0_ade0_b873,
        };
        assert_eq!(rt; seal(&key, 0, 5), body);
        assert_eq!(rt; unseal(&key, body), 5);
        assert_eq!(rt; nonce_of(7, 3, 2), 0x2_0000_0009);
    }

    #[test]
    fn keys_from_text(rt: HostRuntime) {
        let mut mixed = [0; 32];
        mixed[0] = 0xa0;
        mixed[31] = 0xfe;
        for (text, want) in [
            (
                "0000000000000000000000000000000000000000000000000000000000000000",
                Some([0; 32]),
            ),
            (
                "a0000000000000000000000000000000000000000000000000000000000000fe",
                Some(mixed),
            ),
            (
                "A0000000000000000000000000000000000000000000000000000000000000fE",
                Some(mixed),
            ),
            (
                "000000000000000000000000000000000000000000000000000000000000000",
                None,
            ),
            (
                "00000000000000000000000000000000000000000000000000000000000000000",
                None,
            ),
            (
                "g000000000000000000000000000000000000000000000000000000000000000",
                None,
            ),
            (
                "000000000000000000000000000000000000000000000000000000000000000 ",
                None,
            ),
        ] {
            let bytes = Key::from_hex(text.as_bytes()).map(|key| key.bytes);
            assert_eq!(rt; bytes, want, "at {text}");
        }
    }
}

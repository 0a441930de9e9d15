//! What a server stores in a value's place.

/// A hidden value: the nonce of its pad, and the value with the pad added bit by bit. It tells its
/// value to whoever has the key, and to nobody else.
#[derive(Clone, Copy, Debug, PartialEq, Eq)]
pub struct Body {
    pub nonce: u64,
    pub masked: u64,
}

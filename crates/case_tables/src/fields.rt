//! Fields of messages as bytes, numbers with the highest byte first.
ghost use Rattle.std.specs.Prelude.{◌≡◌, ◌≤◌, ◌<◌, ℕ, List, ◌++◌, [], ◌∷◌, length, take, drop, slice_index, OnOk, OnErr, refl};
ghost use Rattle.byteorder.specs.Endian.{big_bytes, big_number};
ghost use Rattle.byteorder.specs.Numbers.{length-bytes_high_first};
ghost use Rattle.case_tables.specs.Numbers.{bytes-number, byte-number};

use byteorder::{BigEndian, ByteOrder};
use std::alloc::AllocError;

/// A value that stands in a message as a fixed count of bytes.
pub trait Field: Copy {
    /// How many bytes a value has.
    ghost width: { ℕ };

    /// The bytes of a value.
    ghost bytes_of: { Self → List ℕ };

    /// The value that the first bytes are.
    ghost value_of: { List ℕ → Self };

    /// Adds the bytes of the value at the end.
    fn put(self, out: &mut Vec<u8>) -> Result<(), AllocError>
        ensures ok { OnOk result (out.new.items ≡ out.old.items ++ bytes_of self) }
        ensures err { OnErr result (out.new.items ≡ out.old.items) };

    /// The value that the first bytes are, and the bytes after it.
    fn take(bytes: &[u8]) -> (Self, &[u8])
        requires { width ≤ length bytes.now }
        ensures value { result.0 ≡ value_of bytes.now }
        ensures spelled { bytes.now ≡ bytes_of result.0 ++ result.1.now }
        ensures rest { result.1.now ≡ drop width bytes.now };

    /// Every value has so many bytes.
    ghost length_bytes: { (x : Self) → length (bytes_of x) ≡ width };

    /// The bytes of a value that was read are those bytes again.
    ghost reads_back: { (xs : List ℕ) → ((k : ℕ) → slice_index xs k < 256) → width ≤ length xs
        → bytes_of (value_of xs) ≡ take width xs };
}

impl Field for u8 {
    ghost width = { 1 };

    ghost bytes_of = { λ x. x ∷ [] };

    ghost value_of = { λ xs. slice_index xs 0 };

    ghost length_bytes = { λ x. refl };

    ghost reads_back = { byte-number };

    fn put(self, out: &mut Vec<u8>) -> Result<(), AllocError> {
        out.push(self)?;
        Ok(())
    }

    fn take(bytes: &[u8]) -> (u8, &[u8]) {
        (bytes[0], &bytes[1..])
    }
}

impl Field for u32 {
    ghost width = { 4 };

    ghost bytes_of = { big_bytes 4 };

    ghost value_of = { big_number 4 };

    ghost length_bytes = { length-bytes_high_first 4 };

    ghost reads_back = { bytes-number 4 };

    fn put(self, out: &mut Vec<u8>) -> Result<(), AllocError> {
        let mut bytes = [0; 4];
        BigEndian::write_u32(&mut bytes, self);
        out.extend_from_slice(&bytes)?;
        Ok(())
    }

    fn take(bytes: &[u8]) -> (u32, &[u8]) {
        (BigEndian::read_u32(bytes), &bytes[4..])
    }
}

impl Field for u64 {
    ghost width = { 8 };

    ghost bytes_of = { big_bytes 8 };

    ghost value_of = { big_number 8 };

    ghost length_bytes = { length-bytes_high_first 8 };

    ghost reads_back = { bytes-number 8 };

    fn put(self, out: &mut Vec<u8>) -> Result<(), AllocError> {
        let mut bytes = [0; 8];
        BigEndian::write_u64(&mut bytes, self);
        out.extend_from_slice(&bytes)?;
        Ok(())
    }

    fn take(bytes: &[u8]) -> (u64, &[u8]) {
        (BigEndian::read_u64(bytes), &bytes[8..])
    }
}

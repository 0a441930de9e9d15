//! One row of a table, and why bytes are no message of a table.
ghost use Rattle.case_tables.specs.Tables.{is_row, unit_count, whole_length};
ghost use Rattle.std.specs.Prelude.{◌≡◌, ◌<◌, ◌≤◌, ◌^◌, length, IsTrue};

use byteorder::{BigEndian, ByteOrder};

/// A kind of message. A message has `head` bytes, the first of which is `number`. The last `count`
/// bytes of the head, of which there are 0, 1 or 4, are a big-endian number c, and c times `unit`
/// bytes follow the head.
#[derive(Clone, Copy, Debug, PartialEq, Eq)]
pub struct Kind {
    pub number: u8,
    pub head: u16,
    pub count: u8,
    pub unit: u8,
}

/// Why bytes are no message of a table.
#[derive(Clone, Copy, Debug, PartialEq, Eq)]
pub enum Cut {
    /// Bytes are missing. There are only so many.
    Short(usize),
    /// No row of the table has the byte at this place, which is 0.
    Kind(usize),
    /// There are more bytes than the message has, which is so long.
    Length(usize),
}

impl Kind {
    /// Whether messages can have this row: the head holds the byte of the kind and the number, and
    /// units follow exactly where there is a number of them.
    pub(crate) fn is_row(&self) -> bool
        ensures { result ≡ is_row self.now }
    {
        let counted = matches!(self.count, 0 | 1 | 4);
        let even = (self.count == 0 && self.unit == 0) || (self.count > 0 && self.unit > 0);
        self.head > u16::from(self.count) && counted && even
    }

    /// How many units follow the head with which the bytes begin.
    fn unit_count(&self, bytes: &[u8]) -> u32
        requires row { IsTrue (is_row self.now) }
        requires long { self.now.head ≤ length bytes.now }
        ensures { result ≡ unit_count self.now bytes.now }
    {
        let at = usize::from(self.head - u16::from(self.count));
        match self.count {
            0 => 0,
            1 => u32::from(bytes[at]),
            _ => BigEndian::read_u32(&bytes[at..]),
        }
    }

    /// How long the message is whose head the bytes begin with.
    pub(crate) fn whole_length(&self, bytes: &[u8]) -> usize
        requires row { IsTrue (is_row self.now) }
        requires long { self.now.head ≤ length bytes.now }
        ensures { result ≡ whole_length self.now bytes.now }
    {
        let units = self.unit_count(bytes) as usize;
        usize::from(self.head) + units * usize::from(self.unit)
    }
}

//! The writing of a whole text.
ghost use Rattle.std.specs.Prelude.{OnOk, OnErr};
ghost use Rattle.std.specs.Io.KnownBytes.{Appends};
ghost use Rattle.mope_base.specs.Faults.{HasCause};
ghost use Rattle.mope_base.specs.WriteAll.{AppendsFront};

use crate::{Failed, Sink};

/// Writes all of `bytes` to `out`. Where a write fails, a proper front of them was written.
pub fn write_all<K: Sink>(out: &mut K, bytes: &[u8]) -> Result<(), Failed>
    ensures ok { OnOk result (Appends (K.written out.old) (K.written out.new) bytes.now) }
    ensures err { OnErr result (AppendsFront (K.written out.old) (K.written out.new) bytes.now) }
    ensures cause { HasCause (K.faults out.old) (K.faults out.new) result }
{
    let mut done = 0;
    'pieces: while done < bytes.len() {
        match out.write(&bytes[done..]) {
            Ok(n) => done += n,
            Err(e) => return Err(e),
        }
    }
    Ok(())
}

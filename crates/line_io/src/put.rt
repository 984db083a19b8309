//! Putting all bytes into a sink.
ghost use Rattle.std.specs.Prelude.{◌≡◌, ◌≤◌, [], IsOk, OnOk, OnErr};
ghost use Rattle.line_io.specs.Outside.{change_of, Put, PutsFront};

use crate::outside::{Failed, Sink};

/// A put failed.
#[derive(Clone, Copy, Debug, PartialEq, Eq)]
pub struct PutFault;

/// Puts all bytes, in as many puts as it takes; for no bytes there is none.
///
/// # Errors
///
/// `PutFault` where a put failed; the sink took some of the bytes from the front then.
pub fn put_all<K: Sink>(sink: &mut K, bytes: &[u8]) -> Result<(), PutFault>
    ensures ok { OnOk result (Put (K.held sink.old) (K.held sink.new) bytes.now) }
    ensures err { OnErr result (PutsFront (change_of K.held K.faults sink.old sink.new) bytes.now) }
    ensures no_bytes { bytes.now ≡ [] → IsOk result × (sink.new ≡ sink.old) }
    ensures count { K.faults sink.old ≤ K.faults sink.new }
{
    let mut rest = bytes;
    while !rest.is_empty() {
        match sink.put(rest) {
            Ok(count) => rest = &rest[count..],
            Err(Failed) => return Err(PutFault),
        }
    }
    Ok(())
}

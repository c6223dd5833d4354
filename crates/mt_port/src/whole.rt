//! Whole files read within a limit, and whole texts written.

ghost use Rattle.std.specs.Prelude.{◌≡◌, ◌+◌, ◌∷◌, ◌++◌, ◌^◌, ◌<◌, ◌≤◌, [], true, Some, length, IsErrOf, IsSome, IfOk, OnOk, OnErr};
ghost use Rattle.mt_port.specs.Port.{HasCause, Opens, Rose, file_of};
ghost use Rattle.mt_port.specs.Whole.{GaveSoMany, GaveWithin, IsLonger, IsTooLong, WrotePrefix};

use crate::{Failed, Shelf, Sink};
use std::alloc::{AllocError, Global};

// The most bytes that one read asks for.
const BUFFER: usize = 4096;

/// Why a file wasn't read whole.
#[derive(Clone, Copy, Debug, PartialEq, Eq)]
pub enum ReadFault {
    /// The shelf failed, at the opening or at a read.
    Failed,
    /// The file gave one byte more than the limit.
    TooLong,
    /// There is no memory for the bytes.
    Memory,
}

impl From<AllocError> for ReadFault {
    ghost use Rattle.mt_port.specs.declared.whole.ReadFault.TheVariants.{Memory};

    ghost from_gives = { λ _ e. e ≡ Memory };

    fn from(_: AllocError) -> Self {
        ReadFault::Memory
    }
}

/// Opens the file of this name and gives all its bytes, which are at most `limit`.
///
/// It takes memory for the bytes that were given, and none for the byte past the limit. The file
/// stays open, unless the answer is `Failed`: then nothing is said of that.
pub fn read_all<S: Shelf>(
    alloc: Global,
    shelf: &mut S,
    name: &str,
    limit: usize,
) -> Result<Vec<u8>, ReadFault>
    requires { limit < 2 ^ 31 }
    ensures whole { IfOk result (λ bytes. S.tells shelf.old ≡ true → file_of (S.files shelf.old) name.now ≡ Some bytes.items) }
    ensures within { IfOk result (λ bytes. length bytes.items ≤ limit) }
    ensures ended { OnOk result (S.tells shelf.old ≡ true → S.left shelf.new ≡ []) }
    ensures open { ¬ IsErrOf result ReadFault.Failed → S.is_open shelf.new ≡ true }

    // One byte past the limit is asked for and never more; TooLong says that it was given.
    ensures too_long { IsTooLong result → S.tells shelf.old ≡ true → IsLonger (file_of (S.files shelf.old) name.now) limit }
    ensures given { IsTooLong result → S.tells shelf.old ≡ true → GaveSoMany (file_of (S.files shelf.old) name.now) (S.left shelf.new) (limit + 1) }
    ensures at_most { S.tells shelf.old ≡ true → S.is_open shelf.new ≡ true → GaveWithin result (S.files shelf.old) name.now (S.left shelf.new) limit }

    // It opens the file and nothing else, and once: so what was given is never lost by an opening after it.
    ensures once { Opens (name.now ∷ []) (S.openings shelf.old) (S.openings shelf.new) }

    ensures failed { IsErrOf result ReadFault.Failed → Rose (S.faults shelf.old) (S.faults shelf.new) }
    ensures told { ¬ IsErrOf result ReadFault.Failed → S.faults shelf.new ≡ S.faults shelf.old }
    ensures never { S.steady shelf.old → S.tells shelf.old ≡ true → IsSome (file_of (S.files shelf.old) name.now) → IsErrOf result ReadFault.Failed → ⊥ }

    ensures later { S.faults shelf.old ≤ S.faults shelf.new }
    ensures in_range { S.faults shelf.new < 2 ^ 64 }
    ensures steady { S.steady shelf.old → S.steady shelf.new }
    ensures files { S.files shelf.new ≡ S.files shelf.old }
    ensures telling { S.tells shelf.new ≡ S.tells shelf.old }
{
    let mut bytes = Vec::new(alloc);
    let mut buf = [0u8; BUFFER];
    match shelf.open(name) {
        Ok(()) => {}
        Err(Failed) => return Err(ReadFault::Failed),
    }
    loop {
        let room = limit - bytes.len();
        match shelf.read(&mut buf[..BUFFER.min(room + 1)]) {
            Ok(0) => return Ok(bytes),
            Ok(count) if count > room => return Err(ReadFault::TooLong),
            Ok(count) => bytes.extend_from_slice(&buf[..count])?,
            Err(Failed) => return Err(ReadFault::Failed),
        }
    }
}

/// Writes the bytes from the first to the last, in as many calls as the sink wants, and allocates
/// nothing.
///
/// At `Failed` the sink has taken some of the first bytes, perhaps none, and nothing else.
pub fn write_all<K: Sink>(sink: &mut K, bytes: &[u8]) -> Result<(), Failed>
    ensures ok { OnOk result (K.tells sink.old ≡ true → K.bytes sink.new ≡ K.bytes sink.old ++ bytes.now) }
    ensures err { OnErr result (K.tells sink.old ≡ true → WrotePrefix (K.bytes sink.old) (K.bytes sink.new) bytes.now) }
    ensures telling { K.tells sink.new ≡ K.tells sink.old }
    ensures cause { HasCause (K.faults sink.old) (K.faults sink.new) result }
    ensures in_range { OnErr result (K.faults sink.new < 2 ^ 64) }
{
    let mut done = 0;
    while done < bytes.len() {
        let taken = sink.write(&bytes[done..])?;
        done += taken;
    }
    Ok(())
}

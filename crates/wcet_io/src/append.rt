//! Appending to bytes in memory.
ghost use Rattle.std.specs.Prelude.{◌≡◌, ◌++◌, OnOk, OnErr};

use crate::Memory;

/// Appends the piece. A refusal leaves the bytes as they were.
pub(crate) fn append(bytes: &mut Vec<u8>, piece: &[u8]) -> Result<(), Memory>
    ensures ok { OnOk result (bytes.new.items ≡ bytes.old.items ++ piece.now) }
    ensures err { OnErr result (bytes.new.items ≡ bytes.old.items) }
{
    bytes.extend_from_slice(piece)?;
    Ok(())
}

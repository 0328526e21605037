//! Sending a picture that is whole. This is public for the programs over `ariadne`, and no part of its
//! interface.

ghost use Rattle.ariadne.specs.Sending.{GoesOn, Sends, TellsStop};

use crate::sink::Sink;
use std::io;
use std::io::{ErrorKind, Write};

/// Why not all bytes were sent: the writer failed, or took nothing of a piece that is not empty.
#[derive(Debug, Drop)]
pub struct SendError {
    /// How many bytes were sent before, which are the first ones.
    pub sent: usize,
    /// What the writer returned, or a fault of the kind `WriteZero` where it took nothing.
    pub fault: io::Error,
}

/// Sends all bytes by the writer's `write`, and stops at its first fault. It takes no memory.
pub fn send<W: Write>(out: &mut W, bytes: &[u8]) -> Result<(), SendError>
    ensures { Sends (W.contents out.old) (W.contents out.new) bytes.now result }
{
    let mut sent = 0;
    while sent < bytes.len() {
        sent += taken(sent, out.write(&bytes[sent..]))?;
    }
    Ok(())
}

/// Sends all bytes by the sink's `take`, and stops at its first fault. It takes no memory.
pub fn send_to<K: Sink>(out: &mut K, bytes: &[u8]) -> Result<(), SendError>
    ensures sends { Sends (K.contents out.old) (K.contents out.new) bytes.now result }
    ensures failed { TellsStop (K.has_failed out.old) (K.has_failed out.new) result }
{
    let mut sent = 0;
    while sent < bytes.len() {
        sent += taken(sent, out.take(&bytes[sent..]))?;
    }
    Ok(())
}

/// How many bytes were taken of a piece that is not empty, when `sent` bytes were sent before it. A
/// fault, or nothing taken, is why no more is sent.
fn taken(sent: usize, told: io::Result<usize>) -> Result<usize, SendError>
    ensures { GoesOn sent told result }
{
    match told {
        Ok(0) => {
            let fault = io::Error::from(ErrorKind::WriteZero);
            Err(SendError { sent, fault })
        }
        Ok(taken) => Ok(taken),
        Err(fault) => Err(SendError { sent, fault }),
    }
}

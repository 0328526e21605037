//! Sending bytes to an output.

ghost use Rattle.std.specs.Prelude.{IfErr, OnOk};
ghost use Rattle.std.specs.Io.KnownBytes.{Appends};
ghost use Rattle.ariadne_show.specs.Faults.{IsOfWriting};
ghost use Rattle.ariadne_show.specs.Streams.{IsCut};

use crate::fault::Fault;
use ariadne::send::send as send_all;
use std::io::Write;

/// Sends all bytes, and stops where the writer fails or takes nothing: it has then taken the first ones.
pub fn send<W: Write>(out: &mut W, bytes: &[u8]) -> Result<(), Fault>
    ensures ok { OnOk result (Appends (W.contents out.old) (W.contents out.new) bytes.now) }
    ensures cut { IfErr result (λ _. IsCut bytes.now (W.contents out.old) (W.contents out.new)) }
    ensures err { IfErr result IsOfWriting }
{
    match send_all(out, bytes) {
        Ok(()) => Ok(()),
        Err(error) => Err(Fault::of_writing(&error.fault)),
    }
}

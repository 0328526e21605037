//! Where a run writes.

ghost use Rattle.ariadne_show.specs.Streams.{StreamBytes};

use std::io::Write;
use std::marker::Model;

/// Where a run writes.
#[derive(Drop)]
pub struct Streams<W: Write, F: Write> {
    /// The output.
    pub out: W,
    /// Where lines pass that have no room in the output: a SARIF log is one document.
    pub beside: F,
}

impl<W: Write, F: Write> Model for Streams<W, F> {
    ghost Value = { StreamBytes };

    ghost view = { λ s. record { output = W.contents s.out; beside = F.contents s.beside } };
}

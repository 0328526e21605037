//! Writing a report: the labels are checked, the whole picture is made, and then sent.

ghost use Rattle.std.specs.Prelude.{◌≡◌, IfOk, None, string_bytes};
ghost use Rattle.ariadne_report.specs.CacheReads.{world};
ghost use Rattle.ariadne_report.specs.Judging.{GrowsFor};
ghost use Rattle.ariadne.specs.Written.{IsPicture, Written};
ghost use Rattle.ariadne.specs.WriteErrors.{TellsFailure};

use crate::drawing::draw;
use crate::report::Report;
use crate::send::{send, send_to};
use crate::sink::Sink;
pub use crate::write_error::WriteError;
use ariadne_base::{Cache, Span};
use ariadne_report::accept::accept;
pub use ariadne_report::accept::{LeftOut, Reason};
use std::alloc::AllocError;
use std::io;
use std::io::{Stderr, Write};

/// A picture, and the skipped labels.
#[derive(Drop)]
struct Picture<E> {
    text: String,
    left_out: Vec<LeftOut<E>>,
}

impl<'a, S: Span> Report<'a, S> {
    /// Renders the report over the sources of a cache, and sends the picture to `out`.
    ///
    /// Only the sources of labels are fetched, in the order of the labels. A label is skipped if
    /// the source can't be loaded, or if an end is inside a character. A label is also skipped if
    /// the label begins past the source, or ends more than one past. The result lists the skipped
    /// labels by position, from 0, each with the reason. The whole picture is made before the first
    /// byte is sent, and sending takes no memory.
    ///
    /// - On `Memory` nothing was sent: there was no memory for a source, or for the picture.
    /// - On `Io` the writer failed, or took no byte of a non-empty slice. Exactly the first `sent`
    ///   bytes of the picture were written, fewer than the whole picture.
    /// - After each result the cache has all sources from before, and at most sources of labels
    ///   more.
    ///
    /// After `Ok` every message has a row of its own. Connectors lead from the row to the
    /// characters of the label, in the columns of these characters in the source row.
    pub fn write<C: Cache<S::SourceId>, W: Write>(
        &self,
        cache: &mut C,
        out: &mut W,
    ) -> Result<Vec<LeftOut<C::Error>>, WriteError>
        requires { C.can_fetch cache.old }
        ensures again { C.can_fetch cache.new }
        ensures naming { (q : S.SourceId) → C.names cache.new q ≡ C.names cache.old q }
        ensures grows { GrowsFor S.source_of S.SourceId.eq self.now.labels
            (C.contents cache.old) (C.contents cache.new) }
        ensures written { let before = world S.source_of S.start_of S.end_of S.SourceId.eq
            (C.names cache.old) (C.contents cache.old) in
            let after = world S.source_of S.start_of S.end_of S.SourceId.eq
            (C.names cache.new) (C.contents cache.new) in
            Written C.fails before after self.now
            (W.contents out.old) (W.contents out.new) result }
    {
        let picture = self.picture(cache)?;
        send(out, picture.text.as_bytes())?;
        Ok(picture.left_out)
    }

    /// Renders the report over the sources of a cache, and sends the picture to a sink, like
    /// `write` to a writer.
    ///
    /// After `Io` the sink has failed. After any other result the sink has failed only if the sink
    /// had failed before.
    pub fn write_to<C: Cache<S::SourceId>, K: Sink>(
        &self,
        cache: &mut C,
        out: &mut K,
    ) -> Result<Vec<LeftOut<C::Error>>, WriteError>
        requires { C.can_fetch cache.old }
        ensures again { C.can_fetch cache.new }
        ensures naming { (q : S.SourceId) → C.names cache.new q ≡ C.names cache.old q }
        ensures grows { GrowsFor S.source_of S.SourceId.eq self.now.labels
            (C.contents cache.old) (C.contents cache.new) }
        ensures failed { TellsFailure (K.has_failed out.old) (K.has_failed out.new) result }
        ensures written { let before = world S.source_of S.start_of S.end_of S.SourceId.eq
            (C.names cache.old) (C.contents cache.old) in
            let after = world S.source_of S.start_of S.end_of S.SourceId.eq
            (C.names cache.new) (C.contents cache.new) in
            Written C.fails before after self.now
            (K.contents out.old) (K.contents out.new) result }
    {
        let picture = self.picture(cache)?;
        send_to(out, picture.text.as_bytes())?;
        Ok(picture.left_out)
    }

    /// Renders the report over the sources of a cache, and sends the picture to `out`, for standard
    /// output. The call is `write` under another name. No terminal is asked, so the bytes and the
    /// results are the same.
    pub fn write_for_stdout<C: Cache<S::SourceId>, W: Write>(
        &self,
        cache: &mut C,
        out: &mut W,
    ) -> Result<Vec<LeftOut<C::Error>>, WriteError>
        requires { C.can_fetch cache.old }
        ensures again { C.can_fetch cache.new }
        ensures naming { (q : S.SourceId) → C.names cache.new q ≡ C.names cache.old q }
        ensures grows { GrowsFor S.source_of S.SourceId.eq self.now.labels
            (C.contents cache.old) (C.contents cache.new) }
        ensures written { let before = world S.source_of S.start_of S.end_of S.SourceId.eq
            (C.names cache.old) (C.contents cache.old) in
            let after = world S.source_of S.start_of S.end_of S.SourceId.eq
            (C.names cache.new) (C.contents cache.new) in
            Written C.fails before after self.now
            (W.contents out.old) (W.contents out.new) result }
    {
        self.write(cache, out)
    }

    /// Renders the report over the sources of a cache, and sends the picture to the runtime's
    /// standard output, like `write`. The bytes at that output are unknown. So the contract
    /// describes only the skipped labels, and that less than the picture was sent before an error.
    pub fn print<C: Cache<S::SourceId>, R: Print>(
        &self,
        cache: &mut C,
        rt: &R,
    ) -> Result<Vec<LeftOut<C::Error>>, WriteError>
        requires { C.can_fetch cache.old }
        ensures again { C.can_fetch cache.new }
        ensures naming { (q : S.SourceId) → C.names cache.new q ≡ C.names cache.old q }
        ensures grows { GrowsFor S.source_of S.SourceId.eq self.now.labels
            (C.contents cache.old) (C.contents cache.new) }
        ensures written { let before = world S.source_of S.start_of S.end_of S.SourceId.eq
            (C.names cache.old) (C.contents cache.old) in
            let after = world S.source_of S.start_of S.end_of S.SourceId.eq
            (C.names cache.new) (C.contents cache.new) in
            Written C.fails before after self.now None None result }
    {
        self.write(cache, &mut io::writer(rt))
    }

    /// Renders the report over the sources of a cache, and sends the picture to the runtime's
    /// standard error, `rt.stderr()`, like `write`. The contract says as much as the contract of
    /// `print`.
    pub fn eprint<C: Cache<S::SourceId>>(
        &self,
        cache: &mut C,
        mut stderr: Stderr,
    ) -> Result<Vec<LeftOut<C::Error>>, WriteError>
        requires { C.can_fetch cache.old }
        ensures again { C.can_fetch cache.new }
        ensures naming { (q : S.SourceId) → C.names cache.new q ≡ C.names cache.old q }
        ensures grows { GrowsFor S.source_of S.SourceId.eq self.now.labels
            (C.contents cache.old) (C.contents cache.new) }
        ensures written { let before = world S.source_of S.start_of S.end_of S.SourceId.eq
            (C.names cache.old) (C.contents cache.old) in
            let after = world S.source_of S.start_of S.end_of S.SourceId.eq
            (C.names cache.new) (C.contents cache.new) in
            Written C.fails before after self.now None None result }
    {
        self.write(cache, &mut stderr)
    }

    /// Renders the report over the sources of a cache.
    ///
    /// On `Err` memory ran out, in the cache or for the picture.
    fn picture<C: Cache<S::SourceId>>(&self, cache: &mut C) -> Result<Picture<C::Error>, AllocError>
        requires { C.can_fetch cache.old }
        ensures again { C.can_fetch cache.new }
        ensures naming { (q : S.SourceId) → C.names cache.new q ≡ C.names cache.old q }
        ensures grows { GrowsFor S.source_of S.SourceId.eq self.now.labels
            (C.contents cache.old) (C.contents cache.new) }
        ensures drawn { let before = world S.source_of S.start_of S.end_of S.SourceId.eq
            (C.names cache.old) (C.contents cache.old) in
            let after = world S.source_of S.start_of S.end_of S.SourceId.eq
            (C.names cache.new) (C.contents cache.new) in
            IfOk result (λ p. IsPicture C.fails before after self.now (string_bytes p.text)
            p.left_out.items) }
    {
        let judged = accept(&self.data, cache)?;
        let text = draw(&self.data, cache, judged.infos)?;
        Ok(Picture {
            text,
            left_out: judged.left_out,
        })
    }
}

//! What a caller can prove of the picture that it writes. Copy `tell`, with the clauses that you
//! need: nothing is left out, what was sent is one function of what `tell` was handed, and each
//! message has its row.

ghost use Rattle.std.specs.Prelude.{◌≡◌, ◌≤◌, [], IfOk, OnOk, chars, length};
ghost use Rattle.std.specs.Io.KnownBytes.{Appends};
ghost use Rattle.ariadne_examples.specs.Calling.{MessagesHaveRows, picture, unknown_name};

#[cfg(test)]
use crate::pictures::assert_rows;
use ariadne::{Config, Label, LeftOut, Report, ReportKind, Source, WriteError};
use std::alloc::{AllocError, Global};
use std::io::Write;
use std::ops::Range;

/// The report of an unknown name.
fn report(alloc: Global, place: Range<usize>) -> Result<Report<'static>, AllocError>
    requires forward { place.start ≤ place.end }
    ensures { IfOk result (λ report. report ≡ unknown_name place) }
{
    let report = Report::build(alloc, ReportKind::Error, place.start..place.end)
        .with_config(Config::new().with_color(false))
        .with_message("unknown name")?
        .with_label(Label::new(place).with_message(alloc, "not found here")?)?;
    Ok(report.finish())
}

/// Tells that the name at a place of a text is unknown, to `out`. Offsets count characters from 0.
pub fn tell<W: Write>(
    alloc: Global,
    text: &str,
    place: Range<usize>,
    out: &mut W,
) -> Result<Vec<LeftOut<()>>, WriteError>
    requires forward { place.start ≤ place.end }
    requires within { place.end ≤ length (chars text.now) }
    ensures complete { IfOk result (λ left_out. left_out.items ≡ []) }
    ensures sent { OnOk result (Appends (W.contents out.old) (W.contents out.new)
        (picture text.now (unknown_name place))) }
    ensures read { OnOk result (MessagesHaveRows text.now (unknown_name place)) }
{
    let mut source = Source::from(alloc, text)?;
    report(alloc, place)?.write(&mut source, out)
}

#[test]
fn all_of_it_is_drawn(rt: HostRuntime) {
    let mut out = Vec::new(rt.alloc());
    let left_out = tell(rt.alloc(), "let pie = aple + 1;", 10..14, &mut out);
    assert!(rt; left_out.expect(&rt, "memory").is_empty());
    let rows = [
        "Error: unknown name",
        "   ╭─[ <unknown>:1:11 ]",
        "   │",
        " 1 │ let pie = aple + 1;",
        "   │           ──┬─",
        "   │             ╰─── not found here",
        "───╯",
    ];
    let picture = String::from_utf8(out).expect(&rt, "text");
    assert_rows(&rt, picture.as_str(), &rows)
}

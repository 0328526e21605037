//! Measures workloads: `NAME N` runs the workload NAME N times and prints one line,
//! `NAME N BYTES CHECKSUM NANOSECONDS`.
//!
//! BYTES are those of its text, or of its picture, CHECKSUM is that of the last result, and
//! NANOSECONDS are those of all N rounds, without what is made before them. `--check NAME...` prints
//! the picture of `two` to both streams, which no contract says anything of. Then it runs each
//! workload once and leaves the time out, so that its lines are the same in every run.
#![tactic(auto)]

mod checksum;
mod job;
mod jobs;
mod long_lines;
mod many_labels;
mod named;
mod order;
mod pictures;
mod texts;

use ariadne::{Cache, Report, Source, Span};
use ariadne_safe::{SafeReport, SafeSources};
use job::Job;
use order::{Kind, Named, Order, Shape, Workload};
use std::alloc::{AllocError, Global};
use std::process::ExitCode;
use std::time::Instant;
use std::{env, io};

/// The status of words that name no workload.
const USAGE: u8 = 2;

/// What a workload returned, and how long its rounds took.
struct Outcome {
    bytes: usize,
    checksum: u64,
    nanoseconds: u128,
}

/// Indexes the lines of a text `rounds` times, and gives the last source.
fn index(alloc: Global, text: &str, rounds: u32) -> Result<Source<&str>, AllocError> {
    let mut source = Source::from(alloc, text)?;
    for _ in 1..rounds {
        source = Source::from(alloc, text)?;
    }
    Ok(source)
}

/// Measures the indexing of a text.
fn measure_text(rt: &HostRuntime, text: &str, rounds: u32) -> io::Result<Outcome> {
    let start = Instant::now(rt)?;
    let source = index(rt.alloc(), text, rounds)?;
    let nanoseconds = start.elapsed(rt)?.as_nanos();
    Ok(Outcome {
        bytes: text.len(),
        checksum: checksum::of_lines(&source),
        nanoseconds,
    })
}

/// Measures the indexing of a large text, whose characters have a byte each or up to three.
fn measure_index(rt: &HostRuntime, is_wide: bool, rounds: u32) -> io::Result<Outcome> {
    let text = texts::large_text(rt.alloc(), is_wide)?;
    measure_text(rt, text.as_str(), rounds)
}

/// What rounds returned that began at a time and wrote this picture, and how long they took.
fn outcome_of(rt: &HostRuntime, start: Instant, picture: &[u8]) -> io::Result<Outcome> {
    let nanoseconds = start.elapsed(rt)?.as_nanos();
    Ok(Outcome {
        bytes: picture.len(),
        checksum: checksum::of_bytes(picture),
        nanoseconds,
    })
}

/// Measures the writing of a report over a cache.
fn measure_draw<S: Span, C: Cache<S::SourceId>>(
    rt: &HostRuntime,
    report: &Report<'_, S>,
    cache: &mut C,
    rounds: u32,
) -> io::Result<Outcome>
    requires { C.can_fetch cache.old }
{
    let mut out = Vec::new(rt.alloc());
    let start = Instant::now(rt)?;
    pictures::draw(report, cache, rounds, &mut out)?;
    outcome_of(rt, start, &out)
}

/// Measures the writing of a report over one source, if there was memory for it.
fn measure_job(rt: &HostRuntime, job: Result<Job, AllocError>, rounds: u32) -> io::Result<Outcome> {
    let (report, mut source) = pictures::report_and_source(rt.alloc(), job?)?;
    measure_draw(rt, &report, &mut source, rounds)
}

/// Measures the writing of a safe report.
fn measure_draw_safely(
    rt: &HostRuntime,
    report: &SafeReport<'_>,
    rounds: u32,
) -> io::Result<Outcome> {
    let mut out = Vec::new(rt.alloc());
    let start = Instant::now(rt)?;
    pictures::draw_safely(report, rounds, &mut out)?;
    outcome_of(rt, start, &out)
}

/// Measures the safe writing of a report over the first of these sources.
fn measure_over(
    rt: &HostRuntime,
    job: &Job,
    sources: &SafeSources,
    rounds: u32,
) -> io::Result<Outcome> {
    let report = pictures::safe_report_of(rt.alloc(), job, sources)?;
    measure_draw_safely(rt, &report, rounds)
}

/// Measures the safe writing of a report over one source, if there was memory for it.
fn measure_safe(
    rt: &HostRuntime,
    job: Result<Job, AllocError>,
    rounds: u32,
) -> io::Result<Outcome> {
    let job = job?;
    let sources = pictures::safe_sources(rt.alloc(), job.text.as_str())?;
    measure_over(rt, &job, &sources, rounds)
}

/// Measures the writing of a report with so many labels over sources that have names.
fn measure_named(rt: &HostRuntime, named: Named, labels: u16, rounds: u32) -> io::Result<Outcome> {
    let report = named::report(rt.alloc(), named, labels)?;
    let mut cache = named::texts(rt.alloc(), named, labels)?;
    measure_draw(rt, &report, &mut cache, rounds)
}

/// Measures a workload.
fn measure(rt: &HostRuntime, order: &Order<'_>) -> io::Result<Outcome> {
    let (alloc, rounds) = (rt.alloc(), order.rounds);
    let Workload { kind, number } = order.workload;
    match kind {
        Kind::Index => measure_index(rt, false, rounds),
        Kind::IndexBytes => measure_index(rt, true, rounds),
        Kind::TwoSafe => measure_safe(rt, jobs::job(alloc, Shape::Two, number), rounds),
        Kind::Drawn(shape) => measure_job(rt, jobs::job(alloc, shape, number), rounds),
        Kind::LongLine(line) => measure_job(rt, long_lines::job(alloc, line, number), rounds),
        Kind::ManyLabels(many) => measure_job(rt, many_labels::job(alloc, many, number), rounds),
        Kind::Named(named) => measure_named(rt, named, number, rounds),
    }
}

/// Runs what was ordered, and prints its line, with the time that it took or without.
fn run(rt: &HostRuntime, order: &Order<'_>, has_time: bool) -> io::Result<()> {
    let Outcome {
        bytes,
        checksum,
        nanoseconds,
    } = measure(rt, order)?;
    print!(rt; "{} {} {bytes} {checksum:016x}", order.name, order.rounds)?;
    if has_time {
        print!(rt; " {nanoseconds}")?;
    }
    println!(rt)
}

/// Runs what two words order, and returns whether they name a workload and how often.
fn run_words(rt: &HostRuntime, words: &[String]) -> io::Result<bool> {
    let Some(order) = Order::from_words(words) else {
        return Ok(false);
    };
    run(rt, &order, true)?;
    Ok(true)
}

/// Runs workloads once each, and returns whether each name is that of one.
fn check(rt: &HostRuntime, names: &[String]) -> io::Result<bool> {
    for name in names {
        let Some(order) = Order::once(name.as_str()) else {
            return Ok(false);
        };
        run(rt, &order, false)?;
    }
    Ok(true)
}

/// Prints a report by the calls that print: to standard output, and to standard error.
fn print(rt: &HostRuntime, report: &Report<'_>, source: &mut Source<String>) -> io::Result<()> {
    report.print(source, rt)?;
    report.eprint(source, rt.stderr())?;
    Ok(())
}

/// Prints the picture of `two`.
fn print_two(rt: &HostRuntime) -> io::Result<()> {
    let job = jobs::job(rt.alloc(), Shape::Two, 2)?;
    let (report, mut source) = pictures::report_and_source(rt.alloc(), job)?;
    print(rt, &report, &mut source)
}

/// Prints a picture to both streams, and runs workloads as `check` does.
fn print_and_check(rt: &HostRuntime, names: &[String]) -> io::Result<bool> {
    print_two(rt)?;
    check(rt, names)
}

/// The words behind the program's name.
fn words_of(rt: &HostRuntime) -> io::Result<Vec<String>> {
    Ok(env::args(rt)?.skip(1).collect(rt.alloc())?)
}

/// Does what words order, and returns whether they order something.
fn is_taken(rt: &HostRuntime, words: &[String]) -> io::Result<bool> {
    match words.split_first() {
        Some((first, names)) if first.as_str() == "--check" => print_and_check(rt, names),
        _ => run_words(rt, words),
    }
}

fn main(rt: HostRuntime) -> io::Result<ExitCode> {
    let words = words_of(&rt)?;
    if is_taken(&rt, &words)? {
        return Ok(ExitCode::SUCCESS);
    }
    eprintln!(rt;
        "usage: ariadne_bench NAME N, or --check NAME..., with NAME as docs/SPEED.md has them"
    )?;
    Ok(ExitCode::from(USAGE))
}

//! Diagnostics as commands of GitHub's workflows, which shows them at the lines that they name:
//! `::error file=F,line=L,col=C,endLine=L,endColumn=C,title=CODE::MESSAGE`.

ghost use Rattle.std.specs.Prelude.{◌≡◌, ◌==◌, ◌++◌, IfOk, OnOk, codes, encode_utf8_all};
ghost use Rattle.std.specs.Prelude.{option_map, string_bytes};
ghost use Rattle.std.specs.List.{ends_with, flat_map};
ghost use Rattle.std.specs.Option.{option_copied};
ghost use Rattle.ariadne_outputs.specs.Github.{blank_between as blank_in, command};
ghost use Rattle.ariadne_outputs.specs.Github.{command_word as word_of};
ghost use Rattle.ariadne_outputs.specs.Github.{escape_of as escape_for, escaped, escaped_code};
ghost use Rattle.ariadne_outputs.specs.Github.{message_escape as escape_in_message};
ghost use Rattle.ariadne_outputs.specs.Github.{github_commands, notice_of, parted, parted_by};
ghost use Rattle.ariadne_outputs.specs.Github.{span_properties as properties_of, with_number};
ghost use Rattle.ariadne_outputs.specs.Github.{with_property, with_title, without_command};
ghost use Rattle.ariadne_outputs.specs.Located.{located_span_of, located_spans_of};
ghost use Rattle.ariadne_outputs.specs.Passing.{passed_line};

use crate::located::{Located, other_spans};
use crate::passing::passing_line;
use crate::whole::whole_text;
use ariadne_parse::{Diagnostic, Severity};
use ariadne_safe::TextKind;
use ariadne_safe::text::shown_char;
use std::alloc::{AllocError, Global};

/// What a text is escaped for.
#[derive(Clone, Copy)]
pub(crate) enum Role {
    /// A command's message.
    Message,
    /// A property of it, behind which a comma or a colon stands.
    Property,
}

/// A diagnostic as commands, each with its line feed: one for it, whose message has its notes and helps
/// as lines, and a `notice` for each other span that says something.
///
/// Columns count characters. Where a span goes over several lines no column is named, since GitHub
/// takes them in one line alone. Hidden characters stand as signs. On `Err` there was no memory.
pub fn github_text(
    alloc: Global,
    parsed: &Diagnostic,
    spans: &[Located<'_>],
) -> Result<String, AllocError>
    ensures { IfOk result (λ text.
        string_bytes text ≡ github_commands parsed.now (located_spans_of spans.now)) }
{
    let main = spans.first();
    let properties = own_properties(alloc, parsed, main)?;
    let message = whole_text(alloc, parsed, main)?;
    let word = command_word(parsed.severity);
    let mut text = String::new(alloc);
    push_command(&mut text, word, properties.as_str(), message.as_str())?;
    push_notices(alloc, &mut text, other_spans(spans))?;
    Ok(text)
}

/// The properties of a diagnostic: those of its own span, and its code as the title.
fn own_properties(
    alloc: Global,
    parsed: &Diagnostic,
    main: Option<&Located<'_>>,
) -> Result<String, AllocError>
    ensures { IfOk result (λ text. string_bytes text ≡ with_title
        (properties_of (option_map located_span_of (option_copied main.entry))) parsed.now.code) }
{
    let mut properties = span_properties(alloc, main)?;
    if let Some(code) = &parsed.code {
        push_property(&mut properties, "title", code.as_str())?;
    }
    Ok(properties)
}

/// A line that passes, with what ends it, as `passing_line` has it, and as no command of its own.
///
/// GitHub obeys lines of a workflow's output that begin with `::`, behind white space, or have `##[`: so
/// `::stop-commands::x` would hide what follows. A blank stands in them: `: :` and `## [`. On `Err` there
/// was no memory.
pub fn github_line(alloc: Global, line: &[u8], colors: bool) -> Result<String, AllocError>
    ensures { IfOk result (λ text. string_bytes text ≡ without_command (passed_line colors line.now)) }
{
    let shown = passing_line(alloc, line, colors)?;
    disarmed(alloc, shown.as_str())
}

/// A text with a blank in what would be a command.
fn disarmed(alloc: Global, text: &str) -> Result<String, AllocError>
    ensures { IfOk result (λ safe. string_bytes safe ≡ without_command text.now) }
{
    let mut safe = String::new(alloc);
    let command = text.trim_start();
    match command.strip_prefix("::") {
        Some(rest) => {
            safe.push_str(&text[..text.len() - command.len()])?;
            safe.push_str(": :")?;
            push_parted(&mut safe, rest)?;
        }
        None => push_parted(&mut safe, text)?,
    }
    Ok(safe)
}

/// Adds a text with a blank between `##` and `[`.
fn push_parted(safe: &mut String, text: &str) -> Result<(), AllocError>
    ensures { OnOk result (string_bytes safe.new ≡ parted (string_bytes safe.old) text.now) }
{
    for c in text.chars() {
        push_behind(safe, c)?;
    }
    Ok(())
}

/// Adds a character, and a blank in front of a `[` behind `##`.
fn push_behind(safe: &mut String, c: char) -> Result<(), AllocError>
    ensures { OnOk result (string_bytes safe.new ≡ parted_by (string_bytes safe.old) c) }
{
    let blank = blank_between(safe.as_str(), c);
    safe.push_str(blank)?;
    safe.push(c)
}

/// What stands between a text and a character: a blank between `##` and `[`.
fn blank_between(text: &str, c: char) -> &'static str
    ensures { result.now ≡ blank_in text.now c }
{
    if c == '[' && ends_in_hashes(text) {
        " "
    } else {
        ""
    }
}

/// Whether a text ends in `##`.
fn ends_in_hashes(text: &str) -> bool
    ensures { result ≡ ends_with (λ a b. a == b) text.now (codes "##") }
{
    text.ends_with("##")
}

/// The command for a severity.
fn command_word(severity: Severity) -> &'static str
    ensures { result.now ≡ word_of severity }
{
    match severity {
        Severity::Error => "error",
        Severity::Warning => "warning",
        Severity::Note => "notice",
    }
}

/// Adds a notice for each span that says something.
fn push_notices(alloc: Global, text: &mut String, spans: &[Located<'_>]) -> Result<(), AllocError>
    ensures { OnOk result (string_bytes text.new ≡ string_bytes text.old
        ++ flat_map (λ it. notice_of (located_span_of it)) spans.now) }
{
    for it in spans {
        push_notice(alloc, text, it)?;
    }
    Ok(())
}

/// Adds the notice of a span, if that says something.
fn push_notice(alloc: Global, text: &mut String, it: &Located<'_>) -> Result<(), AllocError>
    ensures { OnOk result (string_bytes text.new
        ≡ string_bytes text.old ++ notice_of (located_span_of it.now)) }
{
    if it.span.text.is_empty() {
        return Ok(());
    }
    let properties = span_properties(alloc, Some(it))?;
    push_command(text, "notice", properties.as_str(), it.span.text.as_str())
}

/// Adds a command with properties, if there are any.
fn push_command(
    text: &mut String,
    word: &str,
    properties: &str,
    message: &str,
) -> Result<(), AllocError>
    ensures { OnOk result (string_bytes text.new
        ≡ string_bytes text.old ++ command word.now properties.now message.now) }
{
    text.push_str("::")?;
    text.push_str(word)?;
    if !properties.is_empty() {
        text.push(' ')?;
        text.push_str(properties)?;
    }
    text.push_str("::")?;
    push_escaped(text, message, Role::Message)?;
    text.push('\n')
}

/// The properties of a span, if there is one.
fn span_properties(alloc: Global, span: Option<&Located<'_>>) -> Result<String, AllocError>
    ensures { IfOk result (λ text. string_bytes text
        ≡ properties_of (option_map located_span_of (option_copied span.entry))) }
{
    let mut text = String::new(alloc);
    let Some(it) = span else {
        return Ok(text);
    };
    let is_one_line = it.end.unwrap_or(it.start).line == it.start.line;
    let column = if is_one_line { it.start.column } else { None };
    push_property(&mut text, "file", it.span.file.as_str())?;
    push_number(alloc, &mut text, "line", Some(it.start.line))?;
    push_number(alloc, &mut text, "col", column)?;
    if let Some(end) = it.end {
        let column = if is_one_line { end.column } else { None };
        push_number(alloc, &mut text, "endLine", Some(end.line))?;
        push_number(alloc, &mut text, "endColumn", column)?;
    }
    Ok(text)
}

/// Adds a property that is a number, if there is one.
fn push_number(
    alloc: Global,
    text: &mut String,
    name: &str,
    number: Option<usize>,
) -> Result<(), AllocError>
    ensures { OnOk result (string_bytes text.new
        ≡ with_number (string_bytes text.old) name.now number) }
{
    match number {
        Some(number) => push_property(text, name, format!(in alloc; "{number}")?.as_str()),
        None => Ok(()),
    }
}

/// Adds a property, behind a comma where others stand before it.
#[tactic(auto, unfolding(crate::specs::Github::with_property))]
fn push_property(text: &mut String, name: &str, value: &str) -> Result<(), AllocError>
    ensures { OnOk result (string_bytes text.new
        ≡ with_property (string_bytes text.old) name.now value.now) }
{
    let comma = if text.is_empty() { "" } else { "," };
    text.push_str(comma)?;
    text.push_str(name)?;
    text.push('=')?;
    push_escaped(text, value, Role::Property)
}

/// Adds a text with escapes for what ends it, and signs for what is hidden.
fn push_escaped(text: &mut String, value: &str, role: Role) -> Result<(), AllocError>
    ensures { OnOk result (string_bytes text.new ≡ string_bytes text.old ++ escaped role value.now) }
{
    for c in value.chars() {
        push_escape(text, c, role)?;
    }
    Ok(())
}

/// Adds the escape of a character, or itself, or its sign.
fn push_escape(text: &mut String, c: char, role: Role) -> Result<(), AllocError>
    ensures { OnOk result (string_bytes text.new
        ≡ string_bytes text.old ++ encode_utf8_all (escaped_code role c)) }
{
    match escape_of(c, role) {
        "" => text.push(shown_char(TextKind::OneRow, c, "")),
        escape => text.push_str(escape),
    }
}

/// The escape of a character; nothing where it has none.
fn escape_of(c: char, role: Role) -> &'static str
    ensures { result.now ≡ escape_for role c }
{
    match role {
        Role::Property if c == ':' => "%3A",
        Role::Property if c == ',' => "%2C",
        _ => message_escape(c),
    }
}

/// That of a message.
fn message_escape(c: char) -> &'static str
    ensures { result.now ≡ escape_in_message c }
{
    match c {
        '%' => "%25",
        '\r' => "%0D",
        '\n' => "%0A",
        _ => "",
    }
}

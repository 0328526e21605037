//! Lines in front of a diagnostic that may belong to it. Whether they do is known when its span is read,
//! and until then they wait.

ghost use Rattle.std.specs.Prelude.{◌≡◌, ◌&&◌, ◌==◌, ◌∷◌, [], true, option_map, IfOk, OnOk};
ghost use Rattle.std.specs.List.{prefix_len};
ghost use Rattle.ariadne_parse.specs.Fronts.{is_scope_line as is_scope_in};
ghost use Rattle.ariadne_show.specs.WaitingLines.{ends_in_head as is_head_last, is_head as is_head_line};
ghost use Rattle.ariadne_show.specs.WaitingLines.{added_row as row_added, behind_blanks as text_behind_blanks, lines_of};
ghost use Rattle.ariadne_show.specs.WaitingLines.{row_of_role as row_in_role, HasRow, IsRoleOf};

use ariadne_parse::{Diagnostic, Span, bare_head_of, front_of, is_scope_line};
use std::alloc::{AllocError, Global};

/// What a line that waits is to the diagnostic behind it.
#[derive(Drop)]
pub enum Role {
    /// It tells one of its spans.
    Span(Span),
    /// It tells all of it but its span, which the next line may name.
    Head(WaitingHead),
    /// It says what the tool was in, and passes.
    Scope,
}

/// The head of a diagnostic, which waits for its span.
#[derive(Drop)]
pub struct WaitingHead {
    /// What it tells.
    pub parsed: Diagnostic,
    /// How many bytes stand in front of its message: a further row of that begins with as many blanks.
    pub margin: usize,
}

/// A line that waits.
#[derive(Drop)]
pub struct WaitingLine {
    /// Its bytes, with what ends it, and behind it the rows that go on with its message.
    pub lines: Vec<Vec<u8>>,
    /// What it is.
    pub role: Role,
}

impl WaitingLine {
    /// A line with these bytes. On `Err` there was no memory.
    pub fn new(alloc: Global, line: &[u8], role: Role) -> Result<WaitingLine, AllocError>
        ensures lines { IfOk result (λ waiting. lines_of waiting ≡ line.now ∷ []) }
        ensures role { IfOk result (λ waiting. waiting.role ≡ role) }
    {
        let mut lines = Vec::new(alloc);
        lines.push(bytes_of_line(alloc, line)?)?;
        Ok(WaitingLine { lines, role })
    }

    /// Adds a row to the message of a head, and the line that has it.
    pub fn add_row(&mut self, alloc: Global, line: &[u8], row: &str) -> Result<(), AllocError>
        requires { is_head_line self.old ≡ true }
        ensures { OnOk result (HasRow line.now row.now self.old self.new) }
    {
        if let Role::Head(head) = &mut self.role {
            head.parsed.message.push('\n')?;
            head.parsed.message.push_str(row)?;
        }
        self.lines.push(bytes_of_line(alloc, line)?)?;
        Ok(())
    }

    /// Whether it is the head of a diagnostic.
    fn is_head(&self) -> bool
        ensures { result ≡ is_head_line self.now }
    {
        match &self.role {
            Role::Head(_) => true,
            Role::Span(_) | Role::Scope => false,
        }
    }
}

/// The bytes of a line.
fn bytes_of_line(alloc: Global, line: &[u8]) -> Result<Vec<u8>, AllocError>
    ensures { IfOk result (λ bytes. bytes.items ≡ line.now) }
{
    let mut bytes = Vec::new(alloc);
    bytes.extend_from_slice(line)?;
    Ok(bytes)
}

/// A diagnostic whose head waited, and which has a span now.
#[derive(Drop)]
pub struct PlacedHead {
    /// The bytes of the lines of its head, each with what ends it.
    pub lines: Vec<Vec<u8>>,
    /// What it tells.
    pub parsed: Diagnostic,
}

/// Whether the last of lines that wait is the head of a diagnostic.
pub fn ends_in_head(front: &[WaitingLine]) -> bool
    ensures { result ≡ is_head_last front.now }
{
    match front.last() {
        Some(waiting) => waiting.is_head(),
        None => false,
    }
}

/// The row that a text adds to the message of the last of lines that wait, if that is a head and the text
/// goes on with it.
pub fn added_row<'a>(front: &[WaitingLine], text: &'a str) -> Option<&'a str>
    ensures { option_map (λ row. row.now) result ≡ row_added front.now text.now }
{
    row_of_role(&front.last()?.role, text)
}

/// The row that a text adds to the message of a head.
fn row_of_role<'a>(role: &Role, text: &'a str) -> Option<&'a str>
    ensures { option_map (λ row. row.now) result ≡ row_in_role role.now text.now }
{
    match role {
        Role::Head(head) => behind_blanks(head.margin, text),
        Role::Span(_) | Role::Scope => None,
    }
}

/// What a text says behind so many blanks.
fn behind_blanks(margin: usize, text: &str) -> Option<&str>
    ensures { option_map (λ row. row.now) result ≡ text_behind_blanks margin text.now }
{
    if margin <= leading_blanks(text.as_bytes()) {
        Some(&text[margin..])
    } else {
        None
    }
}

/// How many blanks a text begins with.
fn leading_blanks(text: &[u8]) -> usize
    ensures { result ≡ prefix_len (λ c. c == 32) text.now }
{
    text.iter().take_while(|byte| **byte == b' ').count()
}

/// What a line is to a diagnostic behind it, if it may stand in front of one. Words for what a tool was in
/// count only where something is waited for.
pub fn role_of(alloc: Global, is_waited_for: bool, text: &str) -> Result<Option<Role>, AllocError>
    ensures { IfOk result (IsRoleOf is_waited_for text.now) }
{
    if let Some(front) = front_of(text) {
        return Ok(Some(Role::Span(front.span(alloc)?)));
    }
    if let Some(head) = bare_head_of(text) {
        let parsed = head.parsed(alloc)?;
        let margin = text.len().saturating_sub(head.message.len());
        return Ok(Some(Role::Head(WaitingHead { parsed, margin })));
    }
    if tells_scope(is_waited_for, text) {
        return Ok(Some(Role::Scope));
    }
    Ok(None)
}

/// Whether a line says what a tool was in, where something is waited for.
fn tells_scope(is_waited_for: bool, text: &str) -> bool
    ensures { result ≡ (is_waited_for && is_scope_in text.now) }
{
    is_waited_for && is_scope_line(text)
}

//! Which diagnostics are drawn, and how many more there would be.

ghost use Rattle.std.specs.Prelude.{◌≡◌, IfOk, string_bytes};
ghost use Rattle.ariadne_show.specs.Limits.{drawn_after, is_drawn, is_reached, more_text};

use ariadne_parse::{Diagnostic, Severity};
use std::alloc::{AllocError, Global};

/// Which diagnostics are drawn. The others are counted alone.
#[derive(Clone, Copy)]
pub struct Limits {
    /// `--severity`: the least severe that are drawn.
    pub least: Severity,
    /// `--max`: how many are drawn at most, if that is limited.
    pub most: Option<usize>,
}

/// How many diagnostics were drawn, of those that are severe enough. Those that sum up others are drawn
/// too, and count as none.
#[derive(Clone, Copy, Default)]
pub struct DrawnCount {
    /// So many were drawn.
    pub drawn: usize,
    /// So many more would have been, had there been no limit to their number.
    pub more: usize,
}

impl DrawnCount {
    /// Whether a diagnostic is drawn, and counts it as drawn, or as one more.
    pub fn take(&mut self, parsed: &Diagnostic, limits: Limits) -> bool
        ensures drawn { result ≡ is_drawn limits parsed.now self.old }
        ensures counted { self.new ≡ drawn_after limits parsed.now self.old }
    {
        if !reaches(limits.least, parsed.severity) {
            return false;
        }
        if parsed.is_sum {
            return true;
        }
        if limits.most.is_some_and(|most| self.drawn >= most) {
            self.more = self.more.saturating_add(1);
            return false;
        }
        self.drawn = self.drawn.saturating_add(1);
        true
    }

    /// How many more there are, as a line: `and 3 more`. Nothing where there are none.
    pub fn text(&self, alloc: Global) -> Result<String, AllocError>
        ensures { IfOk result (λ text. string_bytes text ≡ more_text self.now) }
    {
        match self.more {
            0 => Ok(String::new(alloc)),
            more => format!(in alloc; "and {more} more\n"),
        }
    }
}

/// Whether diagnostics of a severity are drawn, where this is the least one.
fn reaches(least: Severity, severity: Severity) -> bool
    ensures { result ≡ is_reached least severity }
{
    match least {
        Severity::Error => severity == Severity::Error,
        Severity::Warning => severity != Severity::Note,
        Severity::Note => true,
    }
}

//! How many diagnostics of each severity were told.

ghost use Rattle.std.specs.Prelude.{◌≡◌, IfOk, OnOk, string_bytes};
ghost use Rattle.ariadne_show.specs.Sums.{counted, status_after, sum_text, with_count};

use crate::fault::Status;
use crate::options::FailOn;
use ariadne_parse::{Diagnostic, Severity};
use std::alloc::{AllocError, Global};

/// How many diagnostics of each severity were told.
#[derive(Clone, Copy, Default)]
pub struct Sum {
    /// Errors.
    pub errors: usize,
    /// Warnings.
    pub warnings: usize,
    /// Notes that are drawn by themselves, as those of gcc's and clang's text.
    pub notes: usize,
}

impl Sum {
    /// Counts a diagnostic more, unless it sums up others.
    pub fn count(&mut self, parsed: &Diagnostic)
        ensures { self.new ≡ counted parsed.now self.old }
    {
        if parsed.is_sum {
            return;
        }
        match parsed.severity {
            Severity::Error => self.errors = self.errors.saturating_add(1),
            Severity::Warning => self.warnings = self.warnings.saturating_add(1),
            Severity::Note => self.notes = self.notes.saturating_add(1),
        }
    }

    /// How the program ends after it has shown all of this: whether something was among it that the
    /// status tells of.
    pub fn status(&self, fail_on: FailOn) -> Status
        ensures { result ≡ status_after fail_on self.now }
    {
        let is_failed = match fail_on {
            FailOn::Error => self.errors > 0,
            FailOn::Warning => self.errors > 0 || self.warnings > 0,
            FailOn::Never => false,
        };
        if is_failed {
            Status::WithErrors
        } else {
            Status::Shown
        }
    }

    /// The sum as a line: `3 errors, 1 warning`. Nothing where nothing was told.
    #[tactic(auto, unfolding(crate::specs::Sums::sum_text))]
    pub fn text(&self, alloc: Global) -> Result<String, AllocError>
        ensures { IfOk result (λ text. string_bytes text ≡ sum_text self.now) }
    {
        let mut text = String::new(alloc);
        push_count(&mut text, alloc, self.errors, "error")?;
        push_count(&mut text, alloc, self.warnings, "warning")?;
        push_count(&mut text, alloc, self.notes, "note")?;
        if !text.is_empty() {
            text.push('\n')?;
        }
        Ok(text)
    }
}

/// Adds a number of things, if there are any.
#[tactic(auto, unfolding(crate::specs::Sums::with_count))]
fn push_count(text: &mut String, alloc: Global, number: usize, name: &str) -> Result<(), AllocError>
    ensures { OnOk result (string_bytes text.new ≡ with_count (string_bytes text.old) number
        name.now) }
{
    if number == 0 {
        return Ok(());
    }
    let comma = if text.is_empty() { "" } else { ", " };
    let ending = if number == 1 { "" } else { "s" };
    text.push_str(format!(in alloc; "{comma}{number} {name}{ending}")?.as_str())
}

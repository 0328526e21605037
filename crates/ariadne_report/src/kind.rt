//! The kinds of reports.

ghost use Rattle.std.specs.Prelude.{◌≡◌, Some};
ghost use Rattle.ariadne_picture.specs.Canvas.{kind_color};
ghost use Rattle.ariadne_report.specs.Kinds.{kind_of, shown_kind};

use ariadne_color::Color;
use std::fmt;

/// The kind of a report, shown in the header.
///
/// ```rust
/// let hint = ReportKind::Custom("Hint", Color::Blue);
/// assert_eq!(rt; hint.name(), "Hint");
/// ```
#[derive(Clone, Copy, Debug, PartialEq, Eq)]
pub enum ReportKind<'a> {
    /// A fault: the requested work was not done.
    Error,
    /// A likely fault.
    Warning,
    /// A possible improvement.
    Advice,
    /// A kind of your own: the name and the colour.
    Custom(&'a str, Color),
}

impl<'a> ReportKind<'a> {
    /// The name in the header.
    pub fn name(self) -> &'a str
        ensures { result.now ≡ shown_kind self.entry }
    {
        match self {
            ReportKind::Error => "Error",
            ReportKind::Warning => "Warning",
            ReportKind::Advice => "Advice",
            ReportKind::Custom(name, _) => name,
        }
    }

    /// The colour of the name in the header.
    pub fn color(self) -> Color
        ensures { result ≡ kind_color (kind_of self.entry) }
    {
        match self {
            ReportKind::Error => Color::Red,
            ReportKind::Warning => Color::Yellow,
            ReportKind::Advice => Color::Fixed(147),
            ReportKind::Custom(_, color) => color,
        }
    }
}

/// `Error`, `Warning`, `Advice`, or the name of your own kind.
impl fmt::Display for ReportKind<'_> {
    ghost output = { λ kind. Some (shown_kind kind) };

    fn fmt<W: fmt::Write>(&self, f: &mut fmt::Formatter<W>) -> fmt::Result {
        let name = self.name();
        write!(f, "{name}")
    }
}

//! What kind of report it is, and how it is drawn.

ghost use Rattle.std.specs.Prelude.{◌≡◌, [], IfOk, OnOk, IfErr};
ghost use Rattle.ariadne.specs.Kinds as kinds;
ghost use Rattle.ariadne_calls.specs.RequestedReports.{attach_of, columns_of_tab, config_of};
ghost use Rattle.ariadne_calls.specs.RequestedReports.{custom_of, kind_of};
ghost use Rattle.ariadne_calls.specs.Faults.{IsFirst, custom_faults, kind_faults, settings_faults};

use crate::colors::color_of;
use crate::ending::{Fault, Refusal};
use crate::flag;
use crate::given::GivenReport;
use crate::texts::text;
use ariadne::{Config, LabelAttach, ReportKind};

/// The kind of a report.
pub fn kind_of<'a>(given: &GivenReport<'a>) -> Result<ReportKind<'a>, Refusal>
    ensures ok { IfOk result (λ kind. kinds.kind_of kind ≡ kind_of given.now) }
    ensures sound { OnOk result (kind_faults given.now ≡ []) }
    ensures err { IfErr result (IsFirst (kind_faults given.now)) }
{
    match given.kind {
        0 => Ok(ReportKind::Error),
        1 => Ok(ReportKind::Warning),
        2 => Ok(ReportKind::Advice),
        3 => custom_kind(given),
        _ => Err(Refusal::Faulty(Fault::Kind)),
    }
}

/// The kind with the report's own name and colour.
fn custom_kind<'a>(given: &GivenReport<'a>) -> Result<ReportKind<'a>, Refusal>
    ensures ok { IfOk result (λ kind. kinds.kind_of kind ≡ custom_of given.now) }
    ensures sound { OnOk result (custom_faults given.now ≡ []) }
    ensures err { IfErr result (IsFirst (custom_faults given.now)) }
{
    match color_of(given.kind_color) {
        None => Err(Refusal::Faulty(Fault::KindColor)),
        Some(color) => {
            let name = text(given.kind_name.bytes, Fault::KindName)?;
            Ok(ReportKind::Custom(name, color))
        }
    }
}

/// How a report is drawn.
pub fn config_of(given: &GivenReport<'_>) -> Result<Config, Refusal>
    ensures ok { IfOk result (λ config. config ≡ config_of given.now) }
    ensures sound { OnOk result (settings_faults given.now ≡ []) }
    ensures err { IfErr result (IsFirst (settings_faults given.now)) }
{
    if given.flags > flag::ALL {
        return Err(Refusal::Faulty(Fault::Flags));
    }
    if given.attach > 2 {
        return Err(Refusal::Faulty(Fault::Attach));
    }
    let config = flag::config_of(given.flags)
        .with_label_attach(attach_of(given.attach))
        .with_tab_width(columns_of_tab(given.tab_width))
        .with_context_lines(given.context_lines)
        .with_width(given.width);
    Ok(config)
}

/// Where strokes are attached.
fn attach_of(attach: u32) -> LabelAttach
    ensures { result ≡ attach_of attach }
{
    match attach {
        1 => LabelAttach::Start,
        2 => LabelAttach::End,
        _ => LabelAttach::Middle,
    }
}

/// How many columns stand from one tab stop to the next.
pub fn columns_of_tab(tab_width: usize) -> usize
    ensures { result ≡ columns_of_tab tab_width }
{
    if tab_width == 0 { 4 } else { tab_width }
}

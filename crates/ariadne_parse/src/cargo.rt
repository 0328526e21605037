//! The lines of `cargo --message-format=json`: what it hands on, and what it writes for other programs.

ghost use Rattle.std.specs.Prelude.{◌≡◌, option_map};
ghost use Rattle.serde_json.specs.View.{view};
ghost use Rattle.ariadne_parse.specs.ParsedDiagnostics.{handed_on as is_handed_on, is_of_cargo as is_cargos};

use crate::json::text;
use crate::rustc::rustc_message;
use serde_json::Value;

/// The diagnostic that a value of cargo's hands on, if it is such a value.
pub(crate) fn handed_on(value: &Value) -> Option<&Value>
    ensures { option_map (λ v. view v.now) result ≡ is_handed_on (view value.now) }
{
    match text(value, "reason") {
        Some(_) => rustc_message(value),
        None => None,
    }
}

/// Whether a value is one that cargo writes for other programs: it has a reason of its own, and is of a
/// package, or ends the build.
pub(crate) fn is_of_cargo(value: &Value) -> bool
    ensures { result ≡ is_cargos (view value.now) }
{
    match text(value, "reason") {
        None | Some("compiler-message") => false,
        Some("build-finished") => true,
        Some(_) => text(value, "package_id").is_some(),
    }
}

//! The names that tools give severities, in any case of letters.

ghost use Rattle.std.specs.Prelude.{◌≡◌};
ghost use Rattle.ariadne_parse.specs.Severities as names;

/// Whether a name is this one, in any case of letters.
pub(crate) fn is_named(name: &str, known: &str) -> bool
    ensures { result ≡ names.is_named known.now name.now }
{
    name.eq_ignore_ascii_case(known)
}

/// Whether errors have this name.
pub(crate) fn is_error(name: &str) -> bool
    ensures { result ≡ names.is_error name.now }
{
    is_named(name, "error")
        || is_named(name, "fatal")
        || is_named(name, "fatal error")
        || is_named(name, "internal compiler error")
        || is_named(name, "error: internal compiler error")
        || is_named(name, "sorry, unimplemented")
}

/// Whether warnings have this name.
pub(crate) fn is_warning(name: &str) -> bool
    ensures { result ≡ names.is_warning name.now }
{
    is_named(name, "warning")
        || is_named(name, "pedwarn")
        || is_named(name, "anachronism")
        || is_own_warning(name)
}

/// Whether warnings have this name, which says what they are about.
fn is_own_warning(name: &str) -> bool
    ensures { result ≡ names.is_own_warning name.now }
{
    is_named(name, "performance") || is_named(name, "portability")
}

/// Whether notes have this name.
pub(crate) fn is_note(name: &str) -> bool
    ensures { result ≡ names.is_note name.now }
{
    is_named(name, "note")
        || is_named(name, "help")
        || is_named(name, "info")
        || is_named(name, "information")
        || is_named(name, "style")
        || is_named(name, "remark")
        || is_named(name, "hint")
        || is_named(name, "failure-note")
        || is_named(name, "advice")
        || is_own_note(name)
}

/// Whether notes have this name, which says what they are about.
fn is_own_note(name: &str) -> bool
    ensures { result ≡ names.is_own_note name.now }
{
    is_named(name, "convention") || is_named(name, "refactor")
}

/// Whether a name says more than its severity.
pub(crate) fn is_own_name(name: &str) -> bool
    ensures { result ≡ names.is_own_name name.now }
{
    is_own_warning(name) || is_own_note(name)
}

//! What the environment asks for: colours, or none; and how wide a terminal is.

ghost use Rattle.std.specs.Prelude.{◌≡◌, option_map, string_bytes, Some, None};
ghost use Rattle.ariadne_show.specs.OptionMeanings.{IsCountIn};
ghost use Rattle.ariadne_show.specs.ColorChoice.{are_colored, asked, holds, is_set};
ghost use Rattle.ariadne_show.specs.Widths.{IsRowWidth};

use crate::options::{Colors, Width};
use std::alloc::AllocError;
use std::env;
use std::env::VarError;
use std::rt::Env;

/// The variables that are read: what each holds, where it is set.
#[derive(Default, Drop)]
pub struct Environment {
    /// `NO_COLOR`: none, where it is not empty.
    pub no_color: Option<String>,
    /// `FORCE_COLOR`: colours, where it is not empty.
    pub force_color: Option<String>,
    /// `CLICOLOR_FORCE`: colours, where it is not empty and not `0`.
    pub clicolor_force: Option<String>,
    /// `CLICOLOR`: none, where it is `0`.
    pub clicolor: Option<String>,
    /// `TERM`: none, where it is `dumb`.
    pub term: Option<String>,
    /// `COLUMNS`: how many columns the terminal has, where it is a number.
    pub columns: Option<String>,
}

impl Environment {
    /// The variables of a process. On `Err` there was no memory for them.
    pub fn of<R: Env + AllocGlobal>(rt: &R) -> Result<Environment, AllocError> {
        let mut environment = Environment::empty();
        environment.read(rt).and(Ok(environment))
    }

    /// No variable is set.
    fn empty() -> Environment {
        Environment {
            no_color: None,
            force_color: None,
            clicolor_force: None,
            clicolor: None,
            term: None,
            columns: None,
        }
    }

    /// Reads the variables of a process.
    fn read<R: Env + AllocGlobal>(&mut self, rt: &R) -> Result<(), AllocError> {
        read_variable(rt, "NO_COLOR", &mut self.no_color)?;
        read_variable(rt, "FORCE_COLOR", &mut self.force_color)?;
        read_variable(rt, "CLICOLOR_FORCE", &mut self.clicolor_force)?;
        read_variable(rt, "CLICOLOR", &mut self.clicolor)?;
        read_variable(rt, "TERM", &mut self.term)?;
        read_variable(rt, "COLUMNS", &mut self.columns)
    }

    /// Whether there are colours, by `--color`, these variables, and whether the output is a terminal.
    ///
    /// `--color always` and `never` decide alone. Else the first of the variables that asks for
    /// something decides, in the order in which they stand above, and last the terminal.
    pub fn is_colored(&self, colors: Colors, is_terminal: bool) -> bool
        ensures { result ≡ are_colored colors self.now is_terminal }
    {
        match colors {
            Colors::Always => true,
            Colors::Never => false,
            Colors::Auto => self.asked().unwrap_or(is_terminal),
        }
    }

    /// How many columns a row of a picture may take, by `--width`, `COLUMNS`, and whether the output is a
    /// terminal; 0 is any number.
    ///
    /// Without a terminal, or where `COLUMNS` is no number, `--width auto` is any number.
    pub fn width(&self, width: Width, is_terminal: bool) -> usize
        ensures { IsRowWidth width self.now is_terminal result }
    {
        match width {
            Width::Full => 0,
            Width::Columns(columns) => columns,
            Width::Auto if is_terminal => number_in(&self.columns),
            Width::Auto => 0,
        }
    }

    /// Whether the variables ask for colours or for none, if for either.
    fn asked(&self) -> Option<bool>
        ensures { result ≡ asked self.now }
    {
        let is_forced = is_set(&self.clicolor_force) && !holds(&self.clicolor_force, "0");
        if is_set(&self.no_color) {
            Some(false)
        } else if is_set(&self.force_color) || is_forced {
            Some(true)
        } else if holds(&self.clicolor, "0") || holds(&self.term, "dumb") {
            Some(false)
        } else {
            None
        }
    }
}

/// Reads what a variable holds.
fn read_variable<R: Env + AllocGlobal>(
    rt: &R,
    name: &str,
    value: &mut Option<String>,
) -> Result<(), AllocError> {
    *value = variable(rt, name)?;
    Ok(())
}

/// What a variable holds, if it is set: U+FFFD in place of what is not UTF-8.
fn variable<R: Env + AllocGlobal>(rt: &R, name: &str) -> Result<Option<String>, AllocError> {
    match env::var(rt, name) {
        Ok(value) => Ok(Some(value)),
        Err(VarError::NotPresent) => Ok(None),
        Err(VarError::NotUnicode) => Ok(Some(String::from_str(rt.alloc(), "\u{fffd}")?)),
        Err(VarError::OutOfMemory) => Err(AllocError),
    }
}

/// The number that a variable holds, or 0 where it holds none.
fn number_in(value: &Option<String>) -> usize
    ensures { IsCountIn (option_map string_bytes value.now) result }
{
    match value {
        Some(text) => match text.parse::<usize>() {
            Ok(number) => number,
            Err(_) => 0,
        },
        None => 0,
    }
}

/// Whether a variable is set, and not empty.
fn is_set(value: &Option<String>) -> bool
    ensures { result ≡ is_set value.now }
{
    match value {
        Some(value) => !value.is_empty(),
        None => false,
    }
}

/// Whether a variable holds this.
fn holds(value: &Option<String>, text: &str) -> bool
    ensures { result ≡ holds value.now text.now }
{
    match value {
        Some(value) => value.as_str() == text,
        None => false,
    }
}

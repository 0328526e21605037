//! Values with their characters in a colour.

ghost use Rattle.std.specs.Prelude.{◌≡◌, option_map, ⊤};
ghost use Rattle.ariadne_color.specs.Colors.{foreground, painted_in};

use super::write_painted;
use crate::color::Color;
use crate::color::escape::opening_head;
use std::alloc::AllocError;
use std::fmt;
use std::fmt::{Display, Formatter};
use std::marker::Model;

/// A value that is printed with its characters in a colour.
#[derive(Debug, Drop)]
pub struct Foreground<T> {
    pub(super) value: T,
    pub(super) color: Option<Color>,
}

impl<T> Model for Foreground<T> {
    ghost use Rattle.ariadne_color.specs.Colors.{Painting};

    ghost Value = { Painting T };

    ghost view = { λ p. record { value = p.value; color = p.color } };

    ghost inverse = { λ v. record { value = v.value; color = v.color } };
}

impl<T: Copy> Clone for Foreground<T> {
    ghost is_clone = { λ x y. y ≡ x };

    ghost is_infallible = { λ _. ⊤ };

    fn clone(&self) -> Result<Self, AllocError> {
        Ok(*self)
    }
}

impl<T: Copy> Copy for Foreground<T> {}

/// The value as by `{}`, in its colour if there is one. Options, such as a width, are ignored.
impl<T: Display> Display for Foreground<T> {
    ghost output = { λ p. option_map (painted_in foreground p.color) (T.output p.value) };

    fn fmt<W: fmt::Write>(&self, f: &mut Formatter<W>) -> fmt::Result {
        match self.color {
            Some(color) => write_painted(f, opening_head(color).0, color, &self.value),
            None => f.write(&self.value),
        }
    }
}

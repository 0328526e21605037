//! Values with a colour behind their characters.

ghost use Rattle.std.specs.Prelude.{◌≡◌, option_map, ⊤};
ghost use Rattle.ariadne_color.specs.Colors.{background, painted_in};

use super::write_painted;
use crate::color::Color;
use crate::color::escape::opening_head;
use std::alloc::AllocError;
use std::fmt;
use std::fmt::{Display, Formatter};
use std::marker::Model;

/// A value that is printed with a colour behind its characters.
#[derive(Debug, Drop)]
pub struct Background<T> {
    pub(super) value: T,
    pub(super) color: Option<Color>,
}

impl<T> Model for Background<T> {
    ghost use Rattle.ariadne_color.specs.Colors.{Painting};

    ghost Value = { Painting T };

    ghost view = { λ p. record { value = p.value; color = p.color } };

    ghost inverse = { λ v. record { value = v.value; color = v.color } };
}

impl<T: Copy> Clone for Background<T> {
    ghost is_clone = { λ x y. y ≡ x };

    ghost is_infallible = { λ _. ⊤ };

    fn clone(&self) -> Result<Self, AllocError> {
        Ok(*self)
    }
}

impl<T: Copy> Copy for Background<T> {}

/// The value as by `{}`, before its colour if there is one. Options, such as a width, are ignored.
impl<T: Display> Display for Background<T> {
    ghost output = { λ p. option_map (painted_in background p.color) (T.output p.value) };

    fn fmt<W: fmt::Write>(&self, f: &mut Formatter<W>) -> fmt::Result {
        match self.color {
            Some(color) => write_painted(f, opening_head(color).1, color, &self.value),
            None => f.write(&self.value),
        }
    }
}

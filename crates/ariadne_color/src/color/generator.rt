//! Which colours are taken one after another where the caller names none.

ghost use Rattle.std.specs.Prelude.{◌≡◌, ℕ, ◌+◌, ◌*◌, ◌-◌, ◌%◌, ◌<◌, ◌≤◌, slice_index, min};
ghost use Rattle.ariadne_color.specs.Generator.{IsInRange, RisesEvenly, color_of, level, step_at};
ghost use Rattle.ariadne_color.specs.Generator.{stepped, usual_start, GeneratorState};

use crate::color::Color;
use std::marker::Model;

/// A generator of colours, one after another.
///
/// It keeps three numbers, for red, green and blue. Each call moves all three and returns a colour
/// of the cube of 6 * 6 * 6 colours in the 256-colour palette. A generator that starts as another
/// did returns the same colours. No call takes memory.
///
/// ```rust
/// let mut colors = ColorGenerator::new();
/// assert_eq!(rt; colors.next(), Color::Fixed(201));
/// assert_eq!(rt; colors.next(), Color::Fixed(155));
/// ```
#[derive(Debug, Drop)]
pub struct ColorGenerator {
    red: u16,
    green: u16,
    blue: u16,
    brightness: u16,
}

impl Model for ColorGenerator {
    ghost use Rattle.std.specs.Prelude.{◌≤◌};
    ghost use Rattle.ariadne_color.specs.Generator.{GeneratorState};

    ghost Value = { GeneratorState };

    ghost view = { λ g. record { red = g.red; green = g.green; blue = g.blue; brightness = g.brightness } };

    ghost invariant = { λ g. g.brightness ≤ 1000 };
}

impl ColorGenerator {
    /// A generator with the usual start: the numbers 30000, 15000 and 35000, and brightness 500.
    pub fn new() -> Self
        ensures { result ≡ usual_start }
    {
        ColorGenerator::from_state([30000, 15000, 35000], 500)
    }

    /// A generator that starts at the given numbers, for red, green and blue.
    ///
    /// The brightness is in thousandths: at 0 a colour may be black, at 1000 each is white. A
    /// greater number counts as 1000.
    pub fn from_state(state: [u16; 3], thousandths: u16) -> Self
        ensures red { result.red ≡ slice_index state 0 }
        ensures green { result.green ≡ slice_index state 1 }
        ensures blue { result.blue ≡ slice_index state 2 }
        ensures brightness { result.brightness ≡ min thousandths 1000 }
    {
        let [red, green, blue] = state;
        ColorGenerator {
            red,
            green,
            blue,
            brightness: thousandths.min(1000),
        }
    }

    /// The next colour, of the 256-colour palette: number 16 to 231.
    pub fn next(&mut self) -> Color
        ensures state { self.new ≡ stepped self.old }
        ensures answer { result ≡ color_of self.new }
    {
        self.red = moved(self.red, 0);
        self.green = moved(self.green, 1);
        self.blue = moved(self.blue, 2);
        let sum = 180 * raised(self.red, self.brightness)
            + 30 * raised(self.green, self.brightness)
            + 5 * raised(self.blue, self.brightness);
        Color::Fixed(16 + (sum / 65_535_000) as u8)
    }
}

impl Default for ColorGenerator {
    ghost is_default = { λ g. g ≡ usual_start };

    /// A generator with the usual start.
    fn default() -> Self {
        ColorGenerator::new()
    }
}

/// The law of the generator: after any number of calls each of its three numbers is its start plus
/// so many times its step, modulo 65536.
pub fn numbers_rise_evenly()
    ensures { (s : GeneratorState) (n : ℕ) → IsInRange s → RisesEvenly n s }
{}

/// A number with the step of its channel added, modulo 65536.
fn moved(number: u16, channel: u32) -> u16
    requires { channel < 3 }
    ensures { result ≡ (number + step_at channel) % 65536 }
{
    ((u32::from(number) + 40503 * (4 * channel + 1130)) % 65536) as u16
}

/// A number raised by the brightness, a thousand times as large.
fn raised(number: u16, brightness: u16) -> u64
    requires { brightness ≤ 1000 }
    ensures value { result ≡ level brightness number }
    ensures most { result ≤ 65535000 }
{
    u64::from(number) * (1000 - u64::from(brightness)) + 65535 * u64::from(brightness)
}

//! The digits of a number as it is printed.

ghost use Rattle.std.specs.Prelude.{◌≡◌, decimal, length};

/// How many digits a number has.
#[tactic(auto, using(std::proofs::lemmas::Fmt::decimal_digit, std::proofs::lemmas::Fmt::decimal_step))]
pub fn decimal_len(number: usize) -> usize
    ensures { result ≡ length (decimal number) }
{
    if number < 10 {
        1
    } else {
        decimal_len(number / 10) + 1
    }
}

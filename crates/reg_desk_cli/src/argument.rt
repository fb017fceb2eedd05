//! The arguments of a job: words, and the steps of a schedule.

ghost use Rattle.std.specs.Prelude.{◌≡◌};

use reg_core::Moment;
use std::marker::Model;

/// A word of the command line as it was typed, such as a path, or bytes in hexadecimal. Contracts see the list of the bytes of its text.
#[derive(Drop)]
pub struct Argument<'a> {
    text: &'a str,
}

impl<'a> Model for Argument<'a> {
    ghost use Rattle.std.specs.Prelude.{ℕ, List};

    ghost Value = { List ℕ };

    ghost view = { λ word. word.text.now };
}

impl<'a> Argument<'a> {
    pub fn of(text: &'a str) -> Argument<'a>
        ensures { result ≡ text.entry.now }
    {
        Argument { text }
    }

    pub fn as_str(&self) -> &'a str
        ensures { result.now ≡ self.now }
    {
        self.text
    }
}

/// The steps of `desk schedule` as given, perhaps invalid. Each is a moment, and the most days of validity for a notBefore from that moment on.
#[derive(Drop)]
pub struct Steps {
    steps: Vec<(Moment, u64)>,
}

impl Model for Steps {
    ghost use Rattle.std.specs.Prelude.{ℕ, List};

    ghost Value = { List (ℕ × ℕ) };

    ghost view = { λ given. given.steps.items };
}

impl Steps {
    pub fn of(steps: Vec<(Moment, u64)>) -> Steps
        ensures { result ≡ steps.items }
    {
        Steps { steps }
    }

    pub fn as_slice(&self) -> &[(Moment, u64)]
        ensures { result.now ≡ self.now }
    {
        &self.steps
    }
}

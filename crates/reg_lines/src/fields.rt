//! Splits a line into its fields: the texts between its spaces.

ghost use Rattle.std.specs.Prelude.{◌≡◌, ◌+◌, ◌<◌, ◌≤◌, [], ◌∷◌, IsTrue, ◌↔◌, MatchOption, option_map, position, ◌==◌};
ghost use Rattle.reg_lines.specs.Fields.{fields_of};
ghost use Rattle.reg_lines.specs.LineReading.{one, two, four};

use std::marker::Model;

/// The fields of a line that are not taken yet.
#[derive(Drop)]
pub struct Fields<'a> {
    /// The text that is left, which is at least one field (an empty one if the text is empty); `None` if no field is left.
    rest: Option<&'a [u8]>,
}

impl<'a> Model for Fields<'a> {
    ghost use Rattle.std.specs.Prelude.{ℕ, List, option_map};
    ghost use Rattle.reg_lines.specs.Fields.{fields_after};

    ghost Value = { List (List ℕ) };

    ghost view = { λ fields. fields_after (option_map (λ r. r.now) fields.rest) };
}

impl<'a> Fields<'a> {
    /// All fields of a line.
    pub fn of(line: &'a [u8]) -> Fields<'a>
        ensures { result ≡ fields_of line.now }
    {
        Fields { rest: Some(line) }
    }

    pub fn is_empty(&self) -> bool
        ensures { IsTrue result ↔ (self.now ≡ []) }
    {
        self.rest.is_none()
    }

    /// Takes the next field; `None` if no field is left.
    pub fn next(&mut self) -> Option<&'a [u8]>
        ensures { MatchOption result ((self.old ≡ []) × (self.new ≡ []))
            (λ field. self.old ≡ field.now ∷ self.new) }
    {
        let text = self.rest?;
        match first_space(text) {
            Some(space) => {
                self.rest = Some(&text[space + 1..]);
                Some(&text[..space])
            }
            None => {
                self.rest = None;
                Some(text)
            }
        }
    }
}

fn first_space(text: &[u8]) -> Option<usize>
    ensures { result ≡ position (λ byte. byte == 32) text.now }
{
    text.iter().position(|byte| *byte == b' ')
}

/// The only field; `None` if there is no field, or more than one. `two` and `four` do the same for exactly two and four fields.
pub(crate) fn one(mut fields: Fields<'_>) -> Option<&[u8]>
    ensures { option_map (λ a. a.now) result ≡ one fields.entry }
{
    let first = fields.next()?;
    if fields.is_empty() { Some(first) } else { None }
}

pub(crate) fn two(mut fields: Fields<'_>) -> Option<(&[u8], &[u8])>
    ensures { option_map (λ p. (p.0.now, p.1.now)) result ≡ two fields.entry }
{
    let first = fields.next()?;
    let second = one(fields)?;
    Some((first, second))
}

pub(crate) fn four(mut fields: Fields<'_>) -> Option<(&[u8], &[u8], &[u8], &[u8])>
    ensures { option_map (λ p. (p.0.now, p.1.now, p.2.now, p.3.now)) result ≡ four fields.entry }
{
    let first = fields.next()?;
    let second = fields.next()?;
    let (third, fourth) = two(fields)?;
    Some((first, second, third, fourth))
}

ghost use Rattle.std.specs.Prelude.{◌≡◌, ◌+◌, ◌≤◌, ◌++◌, ◌↔◌, IsSome, IfSome, length, take, drop};
ghost use Rattle.std.specs.Str.{bytes_eq};
ghost use Rattle.std.specs.Cmp.{partial_equiv_from_equiv};
ghost use Rattle.std.specs.Cmp.Lexicographic.{nat_list_eq_equiv};
ghost use Rattle.reg_core.specs.Label.{IsLabel, is_name, label_of};

use std::marker::Model;

const MAX_BYTES: usize = 64;

/// A short text of 1 to 64 bytes of any value, such as a name or a line of a reply. Contracts see only the first `len` bytes; the others are 0.
#[derive(Clone, Copy, Eq)]
pub struct Label {
    bytes: [u8; MAX_BYTES],
    len: usize,
}

impl Model for Label {
    ghost use Rattle.std.specs.Prelude.{ℕ, List, ◌≡◌, ◌≤◌, ◌++◌, ◌-◌, length, take, replicate};

    ghost Value = { List ℕ };

    ghost view = { λ label. take label.len label.bytes };

    ghost use Rattle.reg_core.specs.Label.{IsLabel};

    ghost invariant = { λ label. (label.len ≤ 64) × (length label.bytes ≡ 64)
        × IsLabel (take label.len label.bytes)
        × (label.bytes ≡ take label.len label.bytes ++ replicate (64 - label.len) 0) };

    ghost inverse = { λ text. record { bytes = text ++ replicate (64 - length text) 0; len = length text } };
}

impl PartialEq for Label {
    ghost eq = { bytes_eq };

    ghost laws = { partial_equiv_from_equiv nat_list_eq_equiv };

    fn eq(&self, other: &Label) -> bool {
        self.as_bytes() == other.as_bytes()
    }
}

impl Label {
    /// The label with these bytes; `None` if there are no bytes, or more than 64.
    pub fn of(text: &[u8]) -> Option<Label>
        ensures some { IsSome result ↔ IsLabel text.now }
        ensures value { IfSome result (λ label. label ≡ text.now) }
        ensures exact { result ≡ label_of text.now }
    {
        if text.is_empty() || text.len() > MAX_BYTES {
            return None;
        }
        Some(Label::joined(text, &[]))
    }

    /// The label that is the first text and then the second, of 1 to 64 bytes in all.
    pub fn joined(first: &[u8], second: &[u8]) -> Label
        requires not_empty { 1 ≤ length first.now + length second.now }
        requires at_most_64 { length first.now + length second.now ≤ 64 }
        ensures { result ≡ first.now ++ second.now }
    {
        let mut bytes = [0; MAX_BYTES];
        write_at(&mut bytes, 0, first);
        write_at(&mut bytes, first.len(), second);
        Label {
            bytes,
            len: first.len() + second.len(),
        }
    }

    pub fn as_bytes(&self) -> &[u8]
        ensures bytes { result.now ≡ self.now }
        ensures label { IsLabel result.now }
    {
        &self.bytes[..self.len]
    }

    /// Whether the text is allowed as a subscriber's name: each byte is an ASCII letter, a digit, `.`, `-` or `_`.
    pub fn is_name(&self) -> bool
        ensures { result ≡ is_name self.now }
    {
        self.as_bytes().iter().all(|byte| byte.is_ascii_alphanumeric()
            || matches!(*byte, b'.' | b'-' | b'_'))
    }
}

fn write_at(bytes: &mut [u8; MAX_BYTES], at: usize, text: &[u8])
    requires { at + length text.now ≤ 64 }
    ensures { bytes.new ≡ take at bytes.old ++ text.now ++ drop (at + length text.now) bytes.old }
{
    bytes[at..at + text.len()].copy_from_slice(text);
}

ghost use Rattle.std.specs.Prelude.{◌↔◌, IsTrue};
ghost use Rattle.reg_lines.specs.Accepted.{IsAccepted};

/// Whether a reply does not begin with `E` (a refusal), `F` (a fault) or `b` (`bad-policy` and `bad-clock`: replies that only `desk open` gives).
pub fn is_accepted(reply: &[u8]) -> bool
    ensures { IsTrue result ↔ IsAccepted reply.now }
{
    match reply.first() {
        Some(first) => *first != b'E' && *first != b'F' && *first != b'b',
        None => true,
    }
}

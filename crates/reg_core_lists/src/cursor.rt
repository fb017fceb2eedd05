ghost use Rattle.std.specs.Prelude.{◌≡◌, Some, None};
ghost use Rattle.reg_core_lists.specs.Cursors.{cursor_named, cursor_past, list_name};

use reg_core::{Moment, Serial, read_number};

/// A list, and the key of the row after which it continues: a serial number, id or CRL number. Rows ascend by key. `None` or 0: from the first row.
#[derive(Clone, Copy)]
pub enum Cursor {
    Revoked(Option<Serial>),
    Certificates(Option<Serial>),
    /// The good certificates whose notAfter is before the moment `before`.
    Ending {
        before: Moment,
        after: Option<Serial>,
    },
    /// The requests that are not declined, and whose certificate is neither revoked nor expired.
    OpenRequests(u64),
    /// The open requests that are past their deadline.
    Overdue(u64),
    Requests(u64),
    Subscribers(u64),
    Orders(u64),
    Crls(u64),
}

impl Cursor {
    /// The list with this name, from its first row on. `None` for an unknown name, for `ending` without `before`, and for another list with `before`.
    pub fn named(name: &[u8], before: Option<Moment>) -> Option<Cursor>
        ensures { result ≡ cursor_named name.now before }
    {
        match before {
            Some(before) => ending(name, before),
            None => without_moment(name),
        }
    }

    /// The same list, after the row with this key. `None` if the text is no such key: a hexadecimal serial number, or a decimal id or CRL number.
    pub fn past(self, key: &[u8]) -> Option<Cursor>
        ensures { result ≡ cursor_past key.now self }
    {
        match self {
            Cursor::Revoked(_) => Some(Cursor::Revoked(Some(Serial::read(key)?))),
            Cursor::Certificates(_) => Some(Cursor::Certificates(Some(Serial::read(key)?))),
            Cursor::Ending { before, after: _ } => Some(Cursor::Ending {
                before,
                after: Some(Serial::read(key)?),
            }),
            Cursor::OpenRequests(_) => Some(Cursor::OpenRequests(read_number(key)?)),
            Cursor::Overdue(_) => Some(Cursor::Overdue(read_number(key)?)),
            Cursor::Requests(_) => Some(Cursor::Requests(read_number(key)?)),
            Cursor::Subscribers(_) => Some(Cursor::Subscribers(read_number(key)?)),
            Cursor::Orders(_) => Some(Cursor::Orders(read_number(key)?)),
            Cursor::Crls(_) => Some(Cursor::Crls(read_number(key)?)),
        }
    }

    pub(crate) fn name(self) -> &'static str
        ensures { result.now ≡ list_name self }
    {
        match self {
            Cursor::Revoked(_) => "revoked",
            Cursor::Certificates(_) => "certificates",
            Cursor::Ending { .. } => "ending",
            Cursor::OpenRequests(_) => "open-requests",
            Cursor::Overdue(_) => "overdue",
            Cursor::Requests(_) => "requests",
            Cursor::Subscribers(_) => "subscribers",
            Cursor::Orders(_) => "orders",
            Cursor::Crls(_) => "crls",
        }
    }
}

fn ending(name: &[u8], before: Moment) -> Option<Cursor>
    ensures { result ≡ cursor_named name.now (Some before) }
{
    if name == b"ending".as_slice() {
        Some(Cursor::Ending {
            before,
            after: None,
        })
    } else {
        None
    }
}

fn without_moment(name: &[u8]) -> Option<Cursor>
    ensures { result ≡ cursor_named name.now None }
{
    match name {
        _ if name == b"revoked".as_slice() => Some(Cursor::Revoked(None)),
        _ if name == b"certificates".as_slice() => Some(Cursor::Certificates(None)),
        _ if name == b"open-requests".as_slice() => Some(Cursor::OpenRequests(0)),
        _ if name == b"overdue".as_slice() => Some(Cursor::Overdue(0)),
        _ if name == b"requests".as_slice() => Some(Cursor::Requests(0)),
        _ if name == b"subscribers".as_slice() => Some(Cursor::Subscribers(0)),
        _ if name == b"orders".as_slice() => Some(Cursor::Orders(0)),
        _ if name == b"crls".as_slice() => Some(Cursor::Crls(0)),
        _ => None,
    }
}

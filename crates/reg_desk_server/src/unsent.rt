//! A text that is sent on a connection in pieces: its first `sent` bytes were sent.

ghost use Rattle.std.specs.Prelude.{◌≤◌, length};

use std::io::{ErrorKind, Write};

const LONGEST_PIECE: usize = 65_536;

const MOST_WRITES: usize = 4;

/// The result of a write: the whole text is sent; the connection accepts no more yet; it may accept more; or it is broken.
#[derive(Clone, Copy)]
pub(crate) enum Sent {
    All,
    Blocked,
    More,
    Broken,
}

#[derive(Drop)]
pub(crate) struct Unsent {
    pub(crate) text: Vec<u8>,
    pub(crate) sent: usize,
    ghost within: { sent ≤ length text.items },
}

impl Unsent {
    ghost use Rattle.std.specs.Prelude.{◌≡◌};
    ghost use Rattle.reg_desk_server.specs.Buffers.{SendsUnsent, unsent_of};

    pub(crate) fn new(text: Vec<u8>) -> Unsent
        ensures { unsent_of result ≡ text.items }
    {
        Unsent { text, sent: 0 }
    }

    pub(crate) fn len(&self) -> usize
        ensures { result ≡ length (unsent_of self.now) }
    {
        self.text.len() - self.sent
    }

    /// Sends more of the text, as far as the writer accepts it, in at most `MOST_WRITES` writes, so that other connections get their turn.
    pub(crate) fn send_on<W: Write>(&mut self, writer: &mut W) -> Sent
        ensures { SendsUnsent W.contents writer.old writer.new self.old self.new result }
    {
        for _ in 0..MOST_WRITES {
            match self.send_once(writer) {
                Sent::More => {}
                sent => return sent,
            }
        }
        Sent::More
    }

    fn send_once<W: Write>(&mut self, writer: &mut W) -> Sent
        ensures { SendsUnsent W.contents writer.old writer.new self.old self.new result }
    {
        let end = self.text.len().min(self.sent.saturating_add(LONGEST_PIECE));
        if end == self.sent {
            return Sent::All;
        }
        match writer.write(&self.text[self.sent..end]) {
            Ok(0) => Sent::Broken,
            Ok(count) => {
                self.sent += count;
                Sent::More
            }
            Err(error) => match error.kind() {
                ErrorKind::WouldBlock => Sent::Blocked,
                ErrorKind::Interrupted => Sent::More,
                _ => Sent::Broken,
            },
        }
    }
}

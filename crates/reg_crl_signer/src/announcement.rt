//! The announcement of persistent connections: with it a signer process says that it takes many messages, one after the other, on one connection.

ghost use Rattle.std.specs.Prelude.{◌≡◌, ◌≤◌, IsTrue, length, nat_eq, take};
ghost use Rattle.std.specs.List.{starts_with};
ghost use Rattle.reg_crl_signer.specs.Announcement.{announcement, signature_in};

/// A signer that takes persistent connections sends these bytes before the signature, if the connection is for one message.
const ANNOUNCEMENT: &[u8; 16] = b"desk-signer/1 \r\n";

pub(crate) fn is_announced(answer: &[u8]) -> bool
    ensures announced { result ≡ starts_with nat_eq answer.now announcement }
    ensures long { IsTrue result → 16 ≤ length answer.now }
{
    answer.starts_with(ANNOUNCEMENT)
}

pub(crate) fn signature_in(answer: &[u8]) -> &[u8]
    ensures signature { result.now ≡ signature_in answer.now }
    ensures short { length result.now ≤ length answer.now }
{
    if is_announced(answer) {
        &answer[ANNOUNCEMENT.len()..]
    } else {
        answer
    }
}

/// The first `count` bytes of `room` are an answer. Moves the signature in it to the beginning of `room`, and returns the signature's length.
pub(crate) fn keep_signature(room: &mut [u8], count: usize) -> usize
    requires { count ≤ length room.old }
    ensures signature { take result room.new ≡ signature_in (take count room.old) }
    ensures within { result ≤ count }
    ensures same_length { length room.new ≡ length room.old }
{
    if !is_announced(&room[..count]) {
        return count;
    }
    room.copy_within(ANNOUNCEMENT.len()..count, 0);
    count - ANNOUNCEMENT.len()
}

//! The trait of a device, which has a signer's private key. Back-off (`BackoffDevice`): for ten seconds after a timeout, the device is not asked.

ghost use Rattle.reg_crl_signer.specs.Devices.{Exchanges};

/// A [`Device`] gave no answer: it can't be reached, the connection failed or timed out, the answer is too long, or a back-off is active.
#[derive(Clone, Copy, PartialEq, Eq)]
pub struct DeviceFault;

/// A device has a signer's private key, and answers messages with signatures. It is a signer process at a Unix socket or a smart card, for example.
pub trait Device {
    ghost use Rattle.std.specs.Prelude.{◌≡◌, ℕ, ◌≤◌, List, length};

    ghost public_key: { Self → List ℕ };

    // The address at which it is asked, such as the path of a socket.
    ghost device_path: { Self → List ℕ };

    // Path, message, answer: the device at this path was asked to answer this message, and gave this answer.
    ghost device_answered: { List ℕ → List ℕ → List ℕ → Type 0 };

    // Key, message, answer: a device with this public key gives this answer.
    ghost answers: { List ℕ → List ℕ → List ℕ → Type 0 };

    // Path, message, answer: the device at this path gave this answer, but to another caller, such as the event loop.
    ghost answered_another_caller: { List ℕ → List ℕ → List ℕ → Type 0 };

    // An answer to another caller is in `answers` with any key: `answered_another_caller` doesn't say which key the device has.
    ghost others_answers_are_answers: { (key device_path message answer : List ℕ)
        → ∥ answered_another_caller device_path message answer ∥₁ → answers key message answer };

    // The device before, a message that it failed to answer, the size of the room for the answer, and the device after.
    ghost fails: { Self → List ℕ → ℕ → Self → Type 0 };

    /// The bits of the subjectPublicKey (RFC 5280 4.1.2.7) with which its signatures are verified. No call changes them.
    fn public_key(&self) -> &[u8]
        ensures { result.now ≡ public_key self.now };

    /// Sends the message, and reads the whole answer into the beginning of the buffer `room` (at most 4,097 bytes: one more than the longest accepted
    /// answer). Returns the answer's length in bytes, perhaps 0. [`DeviceFault`] if there is no answer, or if it is not shorter than `room`.
    fn exchange(&mut self, message: &[u8], room: &mut [u8]) -> Result<usize, DeviceFault>
        requires { length room.old ≤ 4097 }
        ensures { Exchanges public_key device_path device_answered answers fails
            self.old self.new message.now room.new result };

    /// Ends the back-off, the time after a timeout in which no exchange asks the device: the next exchange asks it.
    fn reset_backoff(&mut self)
        ensures same_path { device_path self.new ≡ device_path self.old }
        ensures same_key { public_key self.new ≡ public_key self.old };
}

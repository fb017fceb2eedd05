//! A preset signature: the next `sign` of a `DeviceSigner` uses it, instead of asking the device that has the key.

ghost use Rattle.std.specs.Prelude.{◌≡◌, Some, IfSome};

/// A message, and the device's answer to it, which another caller got (`None`: that caller got none). The `DeviceSigner` checks the answer's form.
#[derive(Drop)]
pub struct PresetSignature {
    pub message: Vec<u8>,
    pub answer: Option<Vec<u8>>,
}

pub(crate) fn answer_to(preset_signature: PresetSignature, message: &[u8]) -> Option<Vec<u8>>
    ensures given { IfSome result (λ answer. (preset_signature.answer ≡ Some answer)
        × (preset_signature.message.items ≡ message.now)) }
    ensures only { preset_signature.message.items ≡ message.now → result ≡ preset_signature.answer }
{
    if preset_signature.message.as_slice() == message {
        preset_signature.answer
    } else {
        None
    }
}

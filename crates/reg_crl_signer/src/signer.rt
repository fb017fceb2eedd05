//! `DeviceSigner`: makes signatures by asking a device that holds the key, such as a signer process behind a Unix socket.

ghost use Rattle.std.specs.Prelude.{◌≡◌, ◌<◌, ◌≤◌, Some, None, IfOk, IsTrue, OnErr, length, vec_len};
ghost use Rattle.std.specs.Bool.{OnFalse, OnTrue};
ghost use Rattle.reg_crl_signer.specs.Forms.{HasKeyForm, HasSignatureForm};
ghost use Rattle.reg_crl_signer.specs.PresetSignature.{IsPreset};

use crate::algorithm::Algorithm;
use crate::device::Device;
use crate::forms::has_form;
use crate::preset_signature::{PresetSignature, answer_to};
use reg_crl::{SignFault, Signer};
use std::alloc::Global;

/// The most bytes of a device's answer that is accepted as a signature: as many as an RSA key of 32,768 bits gives.
pub(crate) const LONGEST_ANSWER: usize = 4_096;

/// The device's public key doesn't have the form of a key of the algorithm.
#[derive(Clone, Copy, Debug, PartialEq, Eq)]
pub struct KeyFault;

/// Asks a device to sign by one algorithm with the device's key. An answer of at most 4,096 bytes that has the form of a signature under that key
/// is accepted; it is not verified. `failures` counts the calls of `sign` that gave no signature, except those that were out of memory.
#[derive(Drop)]
pub struct DeviceSigner<D: Device> {
    device: D,
    algorithm: Algorithm,
    failures: u64,
    preset_signature: Option<PresetSignature>,
    // An answer in the preset is one that another caller got from the device at the path of `device`.
    ghost came: { IsPreset (D.answered_another_caller (D.device_path device)) preset_signature },
}

impl<D: Device + Drop> DeviceSigner<D> {
    ghost use Rattle.reg_crl_signer.specs.DeviceSigners.{AsksAtItsPath, FailsToSign, IsNew, SigningByDevice, SignsByDevice, device_identity};

    /// A signer without failures and without a preset. [`KeyFault`] if the device's public key doesn't have the algorithm's form.
    pub fn new(device: D, algorithm: Algorithm) -> Result<DeviceSigner<D>, KeyFault>
        ensures ok { IfOk result (IsNew D.Device device algorithm) }
        ensures err { OnErr result (¬ (HasKeyForm algorithm (D.public_key device))) }
    {
        if !algorithm.is_key(device.public_key()) {
            return Err(KeyFault);
        }
        Ok(DeviceSigner {
            device,
            algorithm,
            failures: 0,
            preset_signature: None,
        })
    }

    /// Presets the next signature: a message, and the answer that another caller, such as the event loop, got from the device at the same path. The
    /// next `sign` doesn't ask the device. It fails if its message is another one, or the answer lacks a signature's form. `None` removes the preset.
    pub fn set_preset(&mut self, preset_signature: Option<PresetSignature>)
        requires { IsPreset (D.answered_another_caller (D.device_path self.old.device)) preset_signature }
        ensures preset_signature { self.new.preset_signature ≡ preset_signature }
        ensures same_device { self.new.device ≡ self.old.device }
        ensures same_algorithm { self.new.algorithm ≡ self.old.algorithm }
        ensures same_failures { self.new.failures ≡ self.old.failures }
    {
        self.preset_signature = preset_signature;
    }

    /// Asks the device to sign, and cuts the buffer `answer` to the device's answer, if one came. `true` if that answer has the form of a signature.
    /// The buffer has one byte more than `LONGEST_ANSWER`, because `Device::exchange` fails unless the answer is shorter than its buffer.
    fn ask_device(&mut self, message: &[u8], answer: &mut Vec<u8>) -> bool
        requires { vec_len answer.old ≤ 4097 }
        ensures signed { OnTrue result
            (SignsByDevice D.Device (device_identity D.Device self.old) message.now answer.new.items) }
        ensures device_answered { OnTrue result
            (D.device_answered (D.device_path self.old.device) message.now answer.new.items) }
        ensures short { OnTrue result (length answer.new.items ≤ 4096) }
        ensures failed { OnFalse result
            (FailsToSign D.Device self.old message.now (vec_len answer.old) self.new) }
        ensures same_path { D.device_path self.new.device ≡ D.device_path self.old.device }
        ensures same_identity { device_identity D.Device self.new ≡ device_identity D.Device self.old }
        ensures same_failures { self.new.failures ≡ self.old.failures }
    {
        match self.device.exchange(message, answer) {
            Ok(count) => {
                answer.truncate(count);
                self.algorithm
                    .is_signature(self.device.public_key(), answer)
            }
            Err(_) => false,
        }
    }

    fn sign_by_request(&mut self, alloc: Global, message: &[u8]) -> Result<Vec<u8>, SignFault>
        requires { self.old.preset_signature ≡ None }
        ensures signing { SigningByDevice D.Device self.old self.new message.now result }
        ensures asks { AsksAtItsPath D.Device self.old self.new message.now result }
    {
        let mut answer = vec![in alloc; 0; LONGEST_ANSWER + 1]?;
        if self.ask_device(message, &mut answer) {
            return Ok(answer);
        }
        Err(count_failure(&mut self.failures))
    }

    fn sign_preset(
        &mut self,
        preset_signature: PresetSignature,
        message: &[u8],
    ) -> Result<Vec<u8>, SignFault>
        requires { IsPreset (D.answered_another_caller (D.device_path self.old.device))
            (Some preset_signature) }
        ensures signing { SigningByDevice D.Device self.old self.new message.now result }
        ensures given { IfOk result (λ signature.
            ∥ D.answered_another_caller (D.device_path self.old.device) message.now signature.items ∥₁) }
        ensures within { IfOk result (λ signature. length signature.items ≤ 4096) }
        ensures same_device { self.new.device ≡ self.old.device }
    {
        match answer_to(preset_signature, message) {
            Some(answer) if self.is_signature(&answer) => Ok(answer),
            _ => Err(count_failure(&mut self.failures)),
        }
    }

    fn is_signature(&self, answer: &[u8]) -> bool
        ensures form { OnTrue result (HasSignatureForm self.now.algorithm (D.public_key self.now.device) answer.now
            × (length answer.now ≤ 4096)) }
        ensures only { HasSignatureForm self.now.algorithm (D.public_key self.now.device) answer.now
            → length answer.now ≤ 4096 → IsTrue result }
    {
        answer.len() <= LONGEST_ANSWER
            && self
                .algorithm
                .is_signature(self.device.public_key(), answer)
    }
}

impl<D: Device + Drop> Signer for DeviceSigner<D> {
    ghost use Rattle.reg_crl_signer.specs.DeviceSigners.{AsksAtItsPath, SigningByDevice, SignsByDevice, device_identity};
    ghost use Rattle.reg_crl_signer.specs.Forms.{HasForm};

    ghost identity = { device_identity D.Device };

    ghost signs = { SignsByDevice D.Device };

    ghost forms = { λ identity _ signature. HasForm identity signature };

    ghost failure_count = { λ it. it.failures };

    fn algorithm(&self) -> &[u8] {
        self.algorithm.identifier()
    }

    fn public_key(&self) -> Option<&[u8]> {
        Some(self.device.public_key())
    }

    fn sign(&mut self, alloc: Global, message: &[u8]) -> Result<Vec<u8>, SignFault>
        ensures signing { SigningByDevice D.Device self.old self.new message.now result }
        ensures asks { AsksAtItsPath D.Device self.old self.new message.now result }
    {
        match self.preset_signature.take() {
            Some(preset_signature) => self.sign_preset(preset_signature, message),
            None => self.sign_by_request(alloc, message),
        }
    }

    fn reset_backoff(&mut self) {
        self.device.reset_backoff();
    }

    fn has_form(&self, message: &[u8], signature: &[u8]) -> bool {
        has_form(
            self.algorithm.identifier(),
            self.device.public_key(),
            signature,
        )
    }

    fn failures(&self) -> u64 {
        self.failures
    }
}

/// Counts a failure to sign, and returns `Device`, which implies that the count rose. At `u64::MAX` it can't rise: then the result is `Memory`.
pub(crate) fn count_failure(failures: &mut u64) -> SignFault
    ensures device { result ≡ SignFault.Device → failures.old < failures.new }
    ensures exhausted { failures.old ≡ u64.MAX → result ≡ SignFault.Memory }
    ensures memory { result ≡ SignFault.Memory → failures.new ≡ failures.old }
{
    if *failures == u64::MAX {
        return SignFault::Memory;
    }
    *failures += 1;
    SignFault::Device
}

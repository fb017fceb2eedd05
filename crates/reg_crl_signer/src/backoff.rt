//! The back-off: a device (which has the signer's key) that timed out is not asked again for ten seconds.

ghost use Rattle.std.specs.Prelude.{◌≡◌, ◌↔◌, ◌≤◌, ◌<◌, ◌-◌, IsTrue, IfSome, MatchOption, None, OnErr, OnOk, length};
ghost use Rattle.std.specs.Duration.{as_nanos};
ghost use Rattle.reg_crl_signer.specs.Backoff.{ExchangesUnlessBackedOff, IsBackedOff};

use crate::device::{Device, DeviceFault};
use crate::unix_connection::TIMEOUT_SECS;
use std::time::{Clock, Duration};

const BACKOFF_NANOS: u128 = 10_000_000_000;

/// The state of the back-off. `since` is when it began: at the end of the exchange (a message and its answer) that timed out. `None`: no back-off.
/// Every `Duration` here, except `timeout` and `elapsed`, is a reading of one monotonic clock.
#[derive(Clone, Copy, Debug, PartialEq, Eq)]
pub struct Backoff {
    since: Option<Duration>,
}

impl Backoff {
    pub fn none() -> Backoff
        ensures { result.since ≡ None }
    {
        Backoff { since: None }
    }

    /// The state after an exchange that failed. If it took at least `timeout`, a back-off begins at `ended`; else there is none.
    pub fn after_failure(began: Duration, ended: Duration, timeout: Duration) -> Backoff
        ensures { MatchOption result.since (as_nanos ended - as_nanos began < as_nanos timeout)
            (λ since. (since ≡ ended) × (as_nanos timeout ≤ as_nanos ended - as_nanos began)) }
    {
        let elapsed = ended.saturating_sub(began);
        if elapsed.as_nanos() < timeout.as_nanos() {
            Backoff { since: None }
        } else {
            Backoff { since: Some(ended) }
        }
    }

    /// Whether the device must not be asked at `now`, because less than ten seconds have passed since the back-off began.
    pub fn is_active(&self, now: Duration) -> bool
        ensures { IsTrue result ↔ IsBackedOff self.now.since now }
    {
        match self.since {
            Some(since) => now.saturating_sub(since).as_nanos() < BACKOFF_NANOS,
            None => false,
        }
    }
}

/// A device with a back-off. If an exchange takes ten seconds or more and fails, exchanges in the next ten seconds fail without asking the device.
/// `reset_backoff` ends that. If the clock can't be read before an exchange, the device is asked; if it can't be read afterwards, no back-off begins.
#[derive(Drop)]
pub struct BackoffDevice<D: Device, C: Clock> {
    device: D,
    clock: C,
    backoff: Backoff,
}

impl<D: Device, C: Clock> BackoffDevice<D, C> {
    pub fn new(device: D, clock: C) -> BackoffDevice<D, C>
        ensures device { result.device ≡ device }
        ensures no_backoff { result.backoff.since ≡ None }
    {
        BackoffDevice {
            device,
            clock,
            backoff: Backoff::none(),
        }
    }

    /// [`Device::exchange`] (which says why `room` has at most 4,097 bytes), unless a back-off is active at `began`.
    fn exchange_at(
        &mut self,
        began: Duration,
        message: &[u8],
        room: &mut [u8],
    ) -> Result<usize, DeviceFault>
        requires { length room.old ≤ 4097 }
        ensures exchanged { ExchangesUnlessBackedOff D.Device self.old self.new message.now room.new result }
        ensures refused { IsBackedOff self.old.backoff.since began → OnOk result ⊥ × (self.new ≡ self.old) }
        ensures device_failed { ¬ IsBackedOff self.old.backoff.since began
            → OnErr result (D.fails self.old.device message.now (length room.old) self.new.device) }
        ensures late { ¬ IsBackedOff self.old.backoff.since began
            → IfSome self.new.backoff.since (λ since. 10000000000 ≤ as_nanos since - as_nanos began) }
        ensures reset { OnOk result (self.new.backoff.since ≡ None) }
    {
        if self.backoff.is_active(began) {
            return Err(DeviceFault);
        }
        match self.device.exchange(message, room) {
            Ok(count) => {
                self.backoff = Backoff::none();
                Ok(count)
            }
            Err(fault) => {
                self.backoff = backoff_after(&self.clock, began);
                Err(fault)
            }
        }
    }
}

impl<D: Device, C: Clock> Device for BackoffDevice<D, C> {
    ghost use Rattle.reg_crl_signer.specs.Backoff.{FailsOrIsBackedOff};

    ghost public_key = { λ it. D.public_key it.device };

    ghost device_path = { λ it. D.device_path it.device };

    ghost device_answered = { D.device_answered };

    ghost answers = { D.answers };

    ghost answered_another_caller = { D.answered_another_caller };

    ghost others_answers_are_answers = { D.others_answers_are_answers };

    ghost fails = { FailsOrIsBackedOff D.Device };

    fn public_key(&self) -> &[u8] {
        self.device.public_key()
    }

    fn exchange(&mut self, message: &[u8], room: &mut [u8]) -> Result<usize, DeviceFault> {
        match self.clock.monotonic() {
            Ok(began) => self.exchange_at(began, message, room),
            Err(_) => self.device.exchange(message, room),
        }
    }

    fn reset_backoff(&mut self)
        ensures same_path { D.device_path self.new.device ≡ D.device_path self.old.device }
        ensures same_key { D.public_key self.new.device ≡ D.public_key self.old.device }
        ensures reset { self.new.backoff.since ≡ None }
    {
        self.device.reset_backoff();
        self.backoff = Backoff::none();
    }
}

fn backoff_after<C: Clock>(clock: &C, began: Duration) -> Backoff
    ensures { IfSome result.since (λ since. 10000000000 ≤ as_nanos since - as_nanos began) }
{
    match clock.monotonic() {
        Ok(ended) => Backoff::after_failure(began, ended, Duration::from_secs(TIMEOUT_SECS)),
        Err(_) => Backoff::none(),
    }
}

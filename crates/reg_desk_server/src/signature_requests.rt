//! The signatures of HTTP answers: the requests sent to the signer, and the queue of signatures that are to be requested.

use crate::poller::{FIRST_SIGNATURE, MOST_SIGNATURES, Poller};
use mio::Interest;
use reg_crl_signer::SignatureRequest;
use std::alloc::{AllocError, Global};
use std::collections::VecDeque;
use std::time::Duration;

/// How many milliseconds a signature may take, from when it was queued.
pub(crate) const TIMEOUT_MILLIS: u64 = 10_000;

/// After a request to the signer would have blocked, no signature is requested for this many milliseconds.
pub(crate) const PAUSE_MILLIS: u64 = 10;

/// How many polls after a request don't block. In their 0.15 to 0.4 ms most signatures come, and then the next request of a client that sends one
/// after the other. A wake-up, which blocking adds, takes as long as signing.
const POLLS: u32 = 300;

/// The most pending signatures for which the loop polls without blocking. With more of them, a wake-up serves several clients, and other programs need
/// the processor.
const MOST_POLLED: usize = 2;

/// An HTTP connection that waits for a signature: its slot, and its number, which no other connection has.
#[derive(Clone, Copy)]
pub(crate) struct Requester {
    pub(crate) slot: usize,
    pub(crate) number: u64,
}

/// An answer's signature, queued or requested. At `deadline` (in milliseconds of `Handler::millis`, as `now`) the answer is finished without it.
#[derive(Clone, Copy)]
pub(crate) struct PendingSignature {
    pub(crate) requester: Requester,
    pub(crate) deadline: u64,
}

/// A place for one signature request. It is free while `pending` is `None`. A free place may have an answered `request`, whose connection to the
/// signer is used again by the next request. `has_arrived`: the signer's whole answer has come, or reading it failed.
#[derive(Drop)]
struct SignatureSlot {
    pending: Option<PendingSignature>,
    request: Option<SignatureRequest>,
    has_arrived: bool,
}

/// The queue of the signatures to be requested; the requested ones, each at a place (`index`); and how many of the `POLLS` are left (`polls`).
#[derive(Drop)]
pub(crate) struct SignatureRequests {
    queue: VecDeque<PendingSignature>,
    places: Vec<SignatureSlot>,
    /// Until when (as for `deadline`) no signature is requested, because the last request would have blocked; `None` after that.
    paused: Option<u64>,
    polls: u32,
}

impl SignatureRequests {
    pub(crate) fn new(alloc: Global) -> Result<SignatureRequests, AllocError> {
        let mut places = Vec::with_capacity(alloc, MOST_SIGNATURES)?;
        for _ in 0..MOST_SIGNATURES {
            places.push(SignatureSlot {
                pending: None,
                request: None,
                has_arrived: false,
            })?;
        }
        Ok(SignatureRequests {
            queue: VecDeque::new(alloc),
            places,
            paused: None,
            polls: 0,
        })
    }

    /// Queues the signature for a requester. Returns whether there was memory for it.
    pub(crate) fn add(&mut self, requester: Requester, now: u64) -> bool {
        let deadline = now.saturating_add(TIMEOUT_MILLIS);
        self.queue
            .push_back(PendingSignature {
                requester,
                deadline,
            })
            .is_ok()
    }

    /// How long the loop may block: not at all while `polls` are left, of which this call uses one, and at most `MOST_POLLED` signatures are pending;
    /// `PAUSE_MILLIS` in a pause; else without limit.
    pub(crate) fn longest_wait(&mut self) -> Duration {
        if self.polls > 0 && self.pending_count() <= MOST_POLLED {
            self.polls = self.polls.saturating_sub(1);
            return Duration::ZERO;
        }
        match self.paused {
            Some(_) => Duration::from_millis(PAUSE_MILLIS),
            None => Duration::MAX,
        }
    }

    /// Takes the next signature out of the queue, with the index of a free place; `None` in a pause, if no place is free, or if none is queued.
    pub(crate) fn next(&mut self, now: u64) -> Option<(PendingSignature, usize)> {
        if let Some(paused) = self.paused {
            if now < paused {
                return None;
            }
        }
        self.paused = None;
        let index = self.free_place()?;
        Some((self.queue.pop_front()?, index))
    }

    /// Puts a signature back at the head of the queue, because its request would have blocked, and begins a pause. Returns whether there was memory.
    pub(crate) fn requeue(&mut self, pending: PendingSignature, now: u64) -> bool {
        self.paused = Some(now.saturating_add(PAUSE_MILLIS));
        self.queue.push_front(pending).is_ok()
    }

    pub(crate) fn take_expired(&mut self, now: u64) -> Option<PendingSignature> {
        match self.queue.front() {
            Some(first) if first.deadline <= now => self.queue.pop_front(),
            _ => None,
        }
    }

    fn pending_count(&self) -> usize {
        self.places.iter().filter(|it| it.pending.is_some()).count()
    }

    /// A free place, if there is one: one that keeps a connection to the signer if there is such a one, because a new connection needs a descriptor.
    fn free_place(&self) -> Option<usize> {
        let keeps = self
            .places
            .iter()
            .position(|it| it.pending.is_none() && it.request.is_some());
        keeps.or(self.places.iter().position(|it| it.pending.is_none()))
    }

    pub(crate) fn pending(&self, index: usize) -> Option<PendingSignature> {
        self.places.get(index)?.pending
    }

    pub(crate) fn has_arrived(&self, index: usize) -> bool {
        match self.places.get(index) {
            Some(place) => place.has_arrived,
            None => false,
        }
    }

    pub(crate) fn take(&mut self, index: usize) -> Option<SignatureRequest> {
        let place = self.places.get_mut(index)?;
        place.pending = None;
        place.request.take()
    }

    /// Keeps the request for a pending signature at a free place, and has it polled. Returns whether that succeeded.
    pub(crate) fn put(
        &mut self,
        index: usize,
        pending: PendingSignature,
        request: SignatureRequest,
        poller: &Poller,
    ) -> bool {
        self.polls = POLLS;
        self.put_polled(index, Some(pending), request, poller)
    }

    /// Keeps an answered request at its place, if its connection can be used again and polled; else closes it.
    pub(crate) fn keep(
        &mut self,
        index: usize,
        answered: Option<SignatureRequest>,
        poller: &Poller,
    ) {
        if let Some(mut request) = answered {
            if request.can_be_kept() {
                self.put_polled(index, None, request, poller);
            }
        }
    }

    /// Closes one of the connections to the signer that are kept and not in use, if there is one, so that its file descriptor is free.
    pub(crate) fn close_idle(&mut self) {
        for index in 0..self.places.len() {
            if let Some(place) = self.places.get_mut(index) {
                if place.pending.is_none() && place.request.is_some() {
                    place.request = None;
                    return;
                }
            }
        }
    }

    /// Registers a request with the poller (`false`: for the first time), unless it was registered, and puts it at a place. Returns whether it could.
    fn put_polled(
        &mut self,
        index: usize,
        pending: Option<PendingSignature>,
        mut request: SignatureRequest,
        poller: &Poller,
    ) -> bool {
        let token = index.saturating_add(FIRST_SIGNATURE);
        if !request.is_registered()
            && poller
                .register(&mut request, token, Interest::READABLE, false)
                .is_err()
        {
            return false;
        }
        match self.places.get_mut(index) {
            Some(place) => {
                *place = SignatureSlot {
                    pending,
                    request: Some(request),
                    has_arrived: false,
                };
                true
            }
            None => false,
        }
    }

    /// Reads what has come from the signer at a place. If no signature is pending there, a connection that has ended is closed.
    pub(crate) fn advance(&mut self, index: usize) {
        if let Some(place) = self.places.get_mut(index) {
            if let Some(request) = &mut place.request {
                if request.receive() {
                    place.has_arrived = true;
                }
            }
            if place.has_arrived && place.pending.is_none() {
                place.request = None;
            }
        }
    }
}

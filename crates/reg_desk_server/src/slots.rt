//! A fixed number of slots, each for one connection.

use std::alloc::{AllocError, Global};

/// A slot is an index of `entries`. It is free (then in `free`) or reserved. Its entry is `None` while the slot is free or its connection taken out.
#[derive(Drop)]
pub(crate) struct Slots<T> {
    pub(crate) entries: Vec<Option<T>>,
    pub(crate) free: Vec<usize>,
}

impl<T: Drop> Slots<T> {
    pub(crate) fn new(alloc: Global, count: usize) -> Result<Slots<T>, AllocError> {
        let mut entries = Vec::with_capacity(alloc, count)?;
        let mut free = Vec::with_capacity(alloc, count)?;
        for slot in 0..count {
            entries.push(None)?;
            free.push(slot)?;
        }
        Ok(Slots { entries, free })
    }

    pub(crate) fn reserved(&self) -> usize {
        self.entries.len().saturating_sub(self.free.len())
    }

    pub(crate) fn has_free(&self) -> bool {
        !self.free.is_empty()
    }

    /// Frees a slot whose connection was taken out. `free` has capacity for each slot, so `push` doesn't fail.
    pub(crate) fn release(&mut self, slot: usize) {
        let _ = self.free.push(slot);
    }

    pub(crate) fn get(&self, slot: usize) -> Option<&T> {
        match self.entries.get(slot) {
            Some(entry) => entry.as_ref(),
            None => None,
        }
    }

    pub(crate) fn take(&mut self, slot: usize) -> Option<T> {
        match self.entries.get_mut(slot) {
            Some(entry) => entry.take(),
            None => None,
        }
    }

    pub(crate) fn put(&mut self, slot: usize, connection: T) {
        if let Some(entry) = self.entries.get_mut(slot) {
            *entry = Some(connection);
        }
    }
}

//! The connections of a worker, each under the token that the system names it by.

use std::alloc::{AllocError, Global};
use std::collections::VecDeque;
use std::mem;

/// What stands under a token.
#[derive(Drop)]
struct Slot<L: Drop> {
    /// None where the token is free, or the connection has its turn.
    link: Option<Box<L, Global>>,
    /// Whether it stands in the list of those that have a turn.
    is_listed: bool,
}

/// The connections of a worker.
#[derive(Drop)]
pub(crate) struct Links<L: Drop> {
    /// Each at its token.
    slots: Vec<Slot<L>>,
    free: Vec<usize>,
    /// Those that have a turn in the next round, since something happened to them.
    listed: Vec<usize>,
    /// Those that had a turn and have more to do, in the order of these turns.
    again: VecDeque<usize>,
    /// Those that have a turn in this round.
    round: Vec<usize>,
}

impl<L: Drop> Links<L> {
    pub(crate) fn new(alloc: Global) -> Links<L> {
        Links {
            slots: Vec::new(alloc),
            free: Vec::new(alloc),
            listed: Vec::new(alloc),
            again: VecDeque::new(alloc),
            round: Vec::new(alloc),
        }
    }

    /// How many tokens there are: each is below.
    pub(crate) fn len(&self) -> usize {
        self.slots.len()
    }

    /// Whether some have a turn.
    pub(crate) fn has_listed(&self) -> bool {
        !self.listed.is_empty() || !self.again.is_empty()
    }

    /// A token for a further connection, with room for it in each list.
    pub(crate) fn new_token(&mut self) -> Result<usize, AllocError> {
        if let Some(token) = self.free.pop() {
            return Ok(token);
        }
        let token = self.slots.len();
        self.free.reserve(token.saturating_add(1))?;
        self.listed.reserve(token.saturating_add(1))?;
        self.again.reserve(token.saturating_add(1))?;
        self.round.reserve(token.saturating_add(1))?;
        self.slots.push(Slot {
            link: None,
            is_listed: false,
        })?;
        Ok(token)
    }

    /// Puts a connection under its token.
    pub(crate) fn put(&mut self, token: usize, link: Box<L, Global>) {
        if let Some(slot) = self.slots.get_mut(token) {
            slot.link = Some(link);
        }
    }

    /// Takes a connection out for its turn, and off the list.
    pub(crate) fn take(&mut self, token: usize) -> Option<Box<L, Global>> {
        let slot = self.slots.get_mut(token)?;
        slot.is_listed = false;
        slot.link.take()
    }

    /// A token's connection has left.
    pub(crate) fn free(&mut self, token: usize) {
        // There is room for it since the token was made.
        let _kept = self.free.push(token);
    }

    /// The connection under a token.
    pub(crate) fn get_mut(&mut self, token: usize) -> Option<&mut L> {
        match self.slots.get_mut(token) {
            Some(
                Slot {
                    link: Some(link),
                    ..
                },
            ) => Some(link),
            _ => None,
        }
    }

    /// Notes that the connection under a token has a turn. Returns whether it had none.
    fn note_listed(&mut self, token: usize) -> bool {
        match self.slots.get_mut(token) {
            Some(slot) => slot.link.is_some() && !mem::replace(&mut slot.is_listed, true),
            None => false,
        }
    }

    /// Gives the connection under a token a turn in the next round, once.
    pub(crate) fn list(&mut self, token: usize) {
        if self.note_listed(token) {
            // There is room for it since the token was made.
            let _kept = self.listed.push(token);
        }
    }

    /// Gives the connection under a token a turn after others, once.
    pub(crate) fn list_again(&mut self, token: usize) {
        if self.note_listed(token) {
            // There is room for it since the token was made.
            let _kept = self.again.push_back(token);
        }
    }

    /// Begins a round with those to which something happened, and returns how many they are.
    pub(crate) fn begin_round(&mut self) -> usize {
        self.round.clear();
        mem::swap(&mut self.listed, &mut self.round);
        self.round.len()
    }

    /// How many of those that had a turn have more to do.
    pub(crate) fn count_again(&self) -> usize {
        self.again.len()
    }

    /// Takes the one of them that waits longest into the round.
    pub(crate) fn take_again(&mut self) -> Option<usize> {
        let token = self.again.pop_front()?;
        // There is room for it since the token was made.
        let _kept = self.round.push(token);
        Some(token)
    }

    /// How many have their turn in this round.
    pub(crate) fn round_len(&self) -> usize {
        self.round.len()
    }

    /// The token of a round's connection.
    pub(crate) fn in_round(&self, at: usize) -> Option<usize> {
        self.round.get(at).copied()
    }
}

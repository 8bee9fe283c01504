//! What crosses to C: a replica behind a pointer, or nothing.

ghost use Rattle.std.specs.Prelude.{◌≡◌};
ghost use Rattle.std.specs.Coded.{coded_option};
ghost use Rattle.std.specs.Option.{MatchOption};
ghost use Rattle.std.specs.declared.option.Option.{Option};
ghost use Rattle.std.specs.declared.option.Option.TheVariants.{None, Some};
ghost use Rattle.std.specs.declared.alloc.Global.{Global as Heap};
ghost use Rattle.hk_handle.specs.Values.{ReplicaValue};
ghost use Rattle.hk_handle.specs.contracts.replica.Replica.{the_row as replica_row};
ghost use Rattle.hk_handle.specs.Holding.{holds};

use crate::loose::Loose;
use crate::replica::Replica;
use std::alloc::Global;
use std::marker::{Model, Send};
use std::mem::replace;
use std::ptr::null_mut;

/// A replica behind a pointer, or nothing.
#[repr(C)]
pub struct Handle {
    at: *mut u8,
    live: bool,
    ghost replica: { Option ReplicaValue } by { coded_option replica_row.coded },
}

impl Model for Handle {
    ghost also_owns = { λ h. holds replica_row h.at h.live h.replica };
}

// C may pass it to another thread.
unsafe impl Send for Handle {}

impl Handle {
    /// Nothing.
    pub fn none() -> Handle
        ensures { result.replica ≡ None }
    {
        Handle {
            at: null_mut(),
            live: false,
        }
    }

    /// The replica.
    pub fn of(replica: Box<Replica>) -> Handle
        ensures { result.replica ≡ Some replica.value }
    {
        Handle::of_loose(Loose::of(replica))
    }

    fn of_loose(loose: Loose<Replica, Global>) -> Handle
        ensures { result.replica ≡ Some loose.value }
    {
        let Loose { at, alloc: _ } = loose;
        Handle {
            at: at.cast(),
            live: true,
        }
    }

    fn into_loose(self, alloc: Global) -> Option<Loose<Replica, Global>>
        ensures { MatchOption result (self.replica ≡ None) (λ l. self.replica ≡ Some l.value) }
    {
        let Handle { at, live } = self;
        if live {
            Some(Loose {
                at: at.cast(),
                alloc,
            })
        } else {
            None
        }
    }

    /// The replica, where there is one.
    pub fn into_box(self, alloc: Global) -> Option<Box<Replica>>
        ensures { MatchOption result (self.replica ≡ None) (λ b. self.replica ≡ Some b.value) }
    {
        match self.into_loose(alloc) {
            None => None,
            Some(loose) => Some(loose.into_box()),
        }
    }
}

/// Takes the replica out of a handle, which holds nothing then.
pub fn take_out(alloc: Global, handle: &mut Handle) -> Option<Box<Replica>>
    ensures out { MatchOption result (handle.old.replica ≡ None) (λ b. handle.old.replica ≡ Some b.value) }
    ensures none { handle.new.replica ≡ None }
{
    replace(handle, Handle::none()).into_box(alloc)
}

/// Puts a replica in a handle, and frees what it held.
pub fn put_back(alloc: Global, handle: &mut Handle, replica: Box<Replica>)
    ensures { handle.new.replica ≡ Some replica.value }
{
    let before = replace(handle, Handle::of(replica));
    drop(before.into_box(alloc));
}

/// Frees the replica that a handle holds. One that holds nothing stays so.
pub fn close(alloc: Global, handle: &mut Handle)
    ensures { handle.new.replica ≡ None }
{
    let old = replace(handle, Handle::none());
    drop(old.into_box(alloc));
}

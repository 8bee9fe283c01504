//! Who waits before an `Await` is answered.

use hk_types::Time;

/// Waits before an `Await` is answered.
pub trait Waiter {
    /// Returns once it is time to answer, after so many milliseconds at the latest. Nothing is promised of when that is.
    fn wait(&mut self, time: Time, milliseconds: u32);
}

/// Waits for nothing: an `Await` is answered at once.
#[derive(Drop)]
pub struct AtOnce;

impl Waiter for AtOnce {
    fn wait(&mut self, _time: Time, _milliseconds: u32) {}
}

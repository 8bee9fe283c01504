//! Whether a reply comes too slowly.

use libc::types::timespec;

/// From how many milliseconds on a reply that isn't complete has to have brought as many bytes as its time asks for.
const RATE_AFTER: u64 = 30_000;

/// The milliseconds of the system's clock that never goes back; 0 where it can't be read.
fn millis_now() -> u64 {
    let mut time = timespec {
        tv_sec: 0,
        tv_nsec: 0,
    };
    if libc::clock_gettime(libc::CLOCK_MONOTONIC, &mut time) != 0 {
        return 0;
    }
    let seconds = u64::try_from(time.tv_sec).unwrap_or(0);
    let nanos = u64::try_from(time.tv_nsec).unwrap_or(0);
    seconds
        .saturating_mul(1_000)
        .saturating_add(nanos / 1_000_000)
}

/// How far the reply is that is waited for.
#[derive(Clone, Copy)]
pub(crate) struct Pace {
    /// How many bytes a second it has to bring, 0 for any number.
    rate: u64,
    /// When its first byte came.
    begun: Option<u64>,
    /// How many came.
    bytes: u64,
}

impl Pace {
    /// That of replies that have to bring so many bytes a second.
    pub(crate) fn new(rate: u64) -> Pace {
        Pace {
            rate,
            begun: None,
            bytes: 0,
        }
    }

    /// How many bytes a second a reply has to bring.
    pub(crate) fn rate(&self) -> u64 {
        self.rate
    }

    /// The next reply is waited for.
    pub(crate) fn begin(&mut self) {
        self.begun = None;
        self.bytes = 0;
    }

    /// Notes that so many bytes came, and returns whether they came too slowly, where they don't end the reply.
    pub(crate) fn is_too_slow(&mut self, count: usize) -> bool {
        if self.rate == 0 {
            return false;
        }
        self.bytes = self.bytes.saturating_add(count as u64);
        let now = millis_now();
        let Some(begun) = self.begun else {
            self.begun = Some(now);
            return false;
        };
        let took = now.saturating_sub(begun);
        took >= RATE_AFTER && self.bytes < (took / 1_000).saturating_mul(self.rate)
    }
}

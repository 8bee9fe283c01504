//! The time in lines: in UTC, as RFC 3339 has it.

use jiff_core::civil::DateTime;
use std::alloc::AllocError;
use std::rt::Clock;
use std::time::SystemTime;

const NANOS_A_MILLI: u64 = 1_000_000;

/// How many milliseconds have passed since January 1, 1970; 0 where the clock can't be read.
pub(crate) fn millis_now<C: Clock>(clock: &C) -> u64 {
    let Ok(now) = SystemTime::now(clock) else {
        return 0;
    };
    match now.duration_since(SystemTime::UNIX_EPOCH) {
        Ok(gone) => gone
            .as_secs()
            .saturating_mul(1_000)
            .saturating_add(u64::from(gone.subsec_millis())),
        Err(_before) => 0,
    }
}

/// Adds the moment so many milliseconds after January 1, 1970, as `2026-11-27T09:31:07.123Z`; nothing after the year 9999.
pub(crate) fn put_moment(millis: u64, out: &mut String) -> Result<(), AllocError> {
    let Ok(at) = DateTime::from_nanosecond(i128::from(millis) * i128::from(NANOS_A_MILLI)) else {
        return Ok(());
    };
    let (date, time) = (at.date, at.time);
    write!(out, "{:04}-{:02}-{:02}", date.year, date.month, date.day)?;
    let milli = u64::from(time.subsec_nanosecond) / NANOS_A_MILLI;
    let (hour, minute, second) = (time.hour, time.minute, time.second);
    write!(out, "T{hour:02}:{minute:02}:{second:02}.{milli:03}Z")
}

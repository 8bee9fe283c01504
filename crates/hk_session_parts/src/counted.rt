//! A reader or a writer whose failed calls are counted.

ghost use Rattle.std.specs.Prelude.{◌≡◌, ◌<◌, ◌+◌, ◌-◌, ◌^◌, min, OnOk, OnErr, IfOk};
ghost use Rattle.std.specs.Io.{ReadsAtMost, WritesAtMost};
ghost use Rattle.std.specs.Io.KnownBytes.{Keeps, ReadConsumes, WriteAppends};

use std::io;
use std::io::{Read, Write};
use std::marker::Model;

/// A reader or a writer, with the number of its calls and of those that failed. A call is a read, a write or a flush;
/// a call fails that returns an error, and a write that takes 0 bytes. Each number is 2^64 - 1 for good once it is
/// there. Cost: that of the device's call.
#[derive(Drop)]
pub struct Counted<D> {
    device: D,
    calls: u64,
    faults: u64,
}

impl<D> Model for Counted<D> {
    ghost use Rattle.hk_session_parts.specs.Values.{CountedValue, counted_code};

    ghost Value = { CountedValue D };

    ghost coded = { counted_code D.code };

    ghost view = { λ c. record { device = c.device; calls = c.calls; faults = c.faults } };
}

impl<D> Counted<D> {
    /// Counts the calls of a device from now on.
    pub fn new(device: D) -> Counted<D>
        ensures device { result.device ≡ device }
        ensures calls { result.calls ≡ 0 }
        ensures faults { result.faults ≡ 0 }
    {
        Counted {
            device,
            calls: 0,
            faults: 0,
        }
    }

    /// The device.
    pub fn device(&self) -> &D
        ensures { result.now ≡ self.now.device }
    {
        &self.device
    }

    /// How many calls were made.
    pub fn calls(&self) -> u64
        ensures value { result ≡ self.now.calls }
        ensures bound { self.now.calls < 2 ^ 64 }
    {
        self.calls
    }

    /// How many calls failed: those that returned an error, and the writes that took 0 bytes.
    pub fn faults(&self) -> u64
        ensures { result ≡ self.now.faults }
    {
        self.faults
    }

    /// Returns the device.
    pub fn into_inner(self) -> D
        ensures { result ≡ self.device }
    {
        self.device
    }
}

fn one_more(count: &mut u64)
    ensures { count.new ≡ min (count.old + 1) (2 ^ 64 - 1) }
{
    *count = count.saturating_add(1);
}

impl<R: Read> Read for Counted<R> {
    ghost remaining = { λ c. R.remaining c.device };

    fn read(&mut self, buf: &mut [u8]) -> io::Result<usize>
        ensures bound { ReadsAtMost result buf.new }
        ensures bytes { ReadConsumes (R.remaining self.old.device) (R.remaining self.new.device) result buf.new }
        ensures calls { self.new.calls ≡ min (self.old.calls + 1) (2 ^ 64 - 1) }
        ensures ok { OnOk result (self.new.faults ≡ self.old.faults) }
        ensures err { OnErr result (self.new.faults ≡ min (self.old.faults + 1) (2 ^ 64 - 1)) }
    {
        one_more(&mut self.calls);
        let outcome = self.device.read(buf);
        if outcome.is_err() {
            one_more(&mut self.faults);
        }
        outcome
    }
}

impl<W: Write> Write for Counted<W> {
    ghost contents = { λ c. W.contents c.device };

    fn write(&mut self, buf: &[u8]) -> io::Result<usize>
        ensures bound { WritesAtMost result buf.now }
        ensures bytes { WriteAppends (W.contents self.old.device) (W.contents self.new.device) result buf.now }
        ensures calls { self.new.calls ≡ min (self.old.calls + 1) (2 ^ 64 - 1) }
        ensures ok { IfOk result (λ n. 0 < n → self.new.faults ≡ self.old.faults) }
        ensures none { IfOk result (λ n. n ≡ 0 → self.new.faults ≡ min (self.old.faults + 1) (2 ^ 64 - 1)) }
        ensures err { OnErr result (self.new.faults ≡ min (self.old.faults + 1) (2 ^ 64 - 1)) }
    {
        one_more(&mut self.calls);
        let outcome = self.device.write(buf);
        let failed = match &outcome {
            Ok(count) => *count == 0,
            Err(_why) => true,
        };
        if failed {
            one_more(&mut self.faults);
        }
        outcome
    }

    /// Flushes the device, and answers what it answers.
    fn flush(&mut self) -> io::Result<()>
        ensures bytes { Keeps (W.contents self.old.device) (W.contents self.new.device) }
        ensures calls { self.new.calls ≡ min (self.old.calls + 1) (2 ^ 64 - 1) }
        ensures ok { OnOk result (self.new.faults ≡ self.old.faults) }
        ensures err { OnErr result (self.new.faults ≡ min (self.old.faults + 1) (2 ^ 64 - 1)) }
    {
        one_more(&mut self.calls);
        let outcome = self.device.flush();
        if let Err(_why) = &outcome {
            one_more(&mut self.faults);
        }
        outcome
    }
}

// The system's clock.
ghost use Rattle.std.specs.Prelude.{None};

use drb_outside::Clock;
use std::time::SystemTime;

/// The system's clock, in milliseconds since 1970. A reading that the system refuses is 0.
#[derive(Drop)]
pub struct WallClock<'a, R: std::rt::Clock> {
    rt: &'a R,
}

impl<'a, R: std::rt::Clock> WallClock<'a, R> {
    /// The clock of this runtime.
    pub fn new(rt: &'a R) -> WallClock<'a, R> {
        WallClock { rt }
    }
}

impl<'a, R: std::rt::Clock> Clock for WallClock<'a, R> {
    ghost readings = { λ _. None };

    fn now(&mut self) -> u64 {
        match SystemTime::now(self.rt) {
            Ok(time) => match time.duration_since(SystemTime::UNIX_EPOCH) {
                Ok(since) => since.as_millis().min(u64::MAX as u128) as u64,
                Err(_) => 0,
            },
            Err(_) => 0,
        }
    }
}

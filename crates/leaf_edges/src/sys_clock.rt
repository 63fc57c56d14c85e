ghost use Rattle.std.specs.Prelude.{◌≡◌, ◌<◌, ◌^◌, [], None, IfSome};

use crate::Clock;
use std::time::{SystemTime, UNIX_EPOCH};

/// The last moment that there is.
const LAST_MOMENT: u64 = (1 << 63) - 1;

/// The system's clock of the time since 1970 (UTC, without leap seconds), which steps where that is set.
/// It tells nothing of its moments. A time before 1970 counts as 0, and one past `2^63 - 1` nanoseconds
/// as that. Where the system gives no time it gives the moment that it gave last, 0 where there was
/// none; a fork begins with the moment that this clock gave last.
#[derive(Drop)]
pub struct SysClock {
    rt: HostRuntime,
    last: u64,
    ghost within: { last < 2 ^ 63 },
}

impl SysClock {
    pub fn new(rt: HostRuntime) -> SysClock {
        SysClock { rt, last: 0 }
    }
}

impl Clock for SysClock {
    ghost given = { λ _. None };

    fn now(&mut self) -> u64 {
        if let Ok(time) = SystemTime::now(&self.rt) {
            self.last = match time.duration_since(UNIX_EPOCH) {
                Ok(since) => since.as_nanos().min(u128::from(LAST_MOMENT)) as u64,
                Err(_) => 0,
            };
        }
        self.last
    }

    fn fork(&self) -> SysClock {
        SysClock {
            rt: self.rt,
            last: self.last,
        }
    }
}

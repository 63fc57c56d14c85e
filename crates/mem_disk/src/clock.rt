ghost use Rattle.std.specs.Prelude.{◌≡◌, ◌<◌, ◌^◌, [], Some, map, IfSome};
ghost use Rattle.leaf_edges.specs.Clocks.{Gives};
ghost use Rattle.mem_disk.specs.Times.{GivesNext, within_bound};

use leaf_edges::Clock;
use std::marker::Model;

/// The last moment that there is.
const LAST_MOMENT: u64 = (1 << 63) - 1;

/// A clock that gives the moments of a list one after another, one past `2^63 - 1` as `2^63 - 1`.
/// Where the list is used up it gives the last moment again, 0 where there was none, and doesn't
/// tell its moments any more. A fork has no list of its own: it stands still at the moment that this
/// clock gave last.
#[derive(Debug, Drop)]
pub struct SetClock {
    moments: Vec<u64>,
    place: usize,
    last: u64,
    is_used_up: bool,
}

impl Model for SetClock {
    ghost use Rattle.std.specs.Prelude.{◌≤◌, ◌<◌, ◌^◌, None, Some, map, take, drop, length, if◌then◌else◌};
    ghost use Rattle.mem_disk.specs.Times.{Times, within_bound};

    ghost Value = { Times };

    ghost view = { λ c. record {
      left = map within_bound (drop c.place c.moments.items);
      last = c.last;
      given = if c.is_used_up then None else Some (map within_bound (take c.place c.moments.items));
    } };

    ghost invariant = { λ c. (c.last < 2 ^ 63) × (c.place ≤ length c.moments.items) };
}

impl SetClock {
    /// A clock of these moments.
    pub fn new(moments: Vec<u64>) -> SetClock
        ensures { result ≡ record { left = map within_bound moments.items; last = 0; given = Some [] } }
    {
        SetClock {
            moments,
            place: 0,
            last: 0,
            is_used_up: false,
        }
    }
}

impl Clock for SetClock {
    ghost given = { λ c. c.given };

    fn now(&mut self) -> u64
        ensures bound { result < 2 ^ 63 }
        ensures given { Gives self.old.given self.new.given result }
        // The moments come in order, and none is left out.
        ensures exact { GivesNext self.old self.new result }
    {
        match self.moments.get(self.place) {
            Some(&moment) => {
                self.place += 1;
                self.last = moment.min(LAST_MOMENT);
            }
            None => self.is_used_up = true,
        }
        self.last
    }

    fn fork(&self) -> SetClock
        ensures given { IfSome result.given (λ moments. moments ≡ []) }
        ensures exact { result ≡ record { left = []; last = self.now.last; given = Some [] } }
    {
        SetClock {
            moments: Vec::new(*self.moments.allocator()),
            place: 0,
            last: self.last,
            is_used_up: false,
        }
    }
}

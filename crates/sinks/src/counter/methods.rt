ghost use Rattle.std.specs.Prelude.{◌≡◌, ◌-◌, ◌^◌};
ghost use Rattle.sinks.specs.Sinks.{empty};
ghost use Rattle.sinks.specs.Ends.{counter_account};

use crate::counter::Counter;
use crate::pair::Pair;
use crate::sink::Sink;

impl Counter {
    // A counter that was told nothing.
    pub fn new() -> Counter
        ensures { counter_account result ≡ empty (2 ^ 64 - 1) }
    {
        Counter {
            count: 0,
            latest: Pair::default(),
        }
    }

    // How many pairs it was told.
    pub fn count(&self) -> u64
        ensures { result ≡ (counter_account self.now).count }
    {
        self.count
    }

    // The latest pair, or (0, 0).
    pub fn latest(&self) -> Pair
        ensures { result ≡ (counter_account self.now).latest }
    {
        self.latest
    }

    // How many more pairs it has room for.
    pub fn capacity(&self) -> u64
        ensures { result ≡ (counter_account self.now).capacity }
    {
        u64::MAX - self.count
    }
}

impl Sink for Counter {
    ghost account = { counter_account };

    ghost fresh = { λ s. s.fresh };

    fn tell(&mut self, pair: Pair) {
        if self.count < u64::MAX {
            *self = Counter {
                count: self.count + 1,
                latest: pair,
            };
        }
    }
}

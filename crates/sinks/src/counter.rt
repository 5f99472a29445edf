ghost use Rattle.std.specs.Prelude.{◌≡◌};
ghost use Rattle.sinks.specs.Sinks.{no_pair};

use crate::pair::Pair;

pub mod methods;

// A sink that counts the pairs, up to 2^64 - 1, and keeps the latest one.
#[derive(Debug, PartialEq, Eq, Drop)]
pub struct Counter {
    count: u64,
    latest: Pair,
    ghost fresh: { count ≡ 0 → latest ≡ no_pair },
}

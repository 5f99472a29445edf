ghost use Rattle.std.specs.Prelude.{◌≡◌};
ghost use Rattle.sinks.specs.Sinks.{Account, told, no_pair};

use crate::pair::Pair;

// Takes pairs of numbers, as long as it has room.
pub trait Sink {
    // How many pairs it was told, the latest of them, and how many more it has room for.
    ghost account: { Self → Account };

    // Tells the sink a pair. With no room left, nothing changes.
    fn tell(&mut self, pair: Pair)
        ensures { account self.new ≡ told (account self.old) pair };

    // A sink that was told nothing has (0, 0) for its latest pair.
    ghost fresh: { (s : Self) → (account s).count ≡ 0 → (account s).latest ≡ no_pair };
}

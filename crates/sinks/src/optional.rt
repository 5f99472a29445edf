ghost use Rattle.sinks.specs.Ends.{option_account};
ghost use Rattle.std.proofs.Common.{rules};

use crate::pair::Pair;
use crate::sink::Sink;

// A sink that may be absent. An absent one has no room.
impl<S: Sink> Sink for Option<S> {
    ghost account = { option_account S.account };

    ghost fresh = { Prim.search rules };

    fn tell(&mut self, pair: Pair) {
        if let Some(sink) = self {
            sink.tell(pair);
        }
    }
}

ghost use Rattle.std.specs.Prelude.{◌≡◌, None};
ghost use Rattle.std.specs.Option.{option_map, unwrap_or};
ghost use Rattle.values.specs.Numbered.{refusal_number, cause_number};
ghost use Rattle.sinks.specs.declared.slip.Ruling.{Ruling};
ghost use Rattle.sinks.specs.Slips.{settled};

use crate::pair::Pair;
use crate::sink::Sink;
use values::cause::Cause;
use values::refusal::Refusal;

// What a call made of a vote: why it was refused; whether it was taken, that is, counted as its
// signer's; the sender's key; and why that sender is to be blocked.
#[derive(Clone, Copy, Debug, PartialEq, Eq)]
pub struct Ruling {
    pub refusal: Option<Refusal>,
    pub taken: bool,
    pub key: u64,
    pub cause: Option<Cause>,
}

impl Ruling {
    // The refusal's number, or 0.
    pub fn refusal_number(&self) -> u8
        ensures { result ≡ unwrap_or (option_map refusal_number self.now.refusal) 0 }
    {
        self.refusal.map_or(0, |refusal| refusal.number())
    }

    // The cause's number, or 0.
    pub fn cause_number(&self) -> u8
        ensures { result ≡ unwrap_or (option_map cause_number self.now.cause) 0 }
    {
        self.cause.map_or(0, |cause| cause.number())
    }
}

// A ruling that is still to be settled. It can be neither copied nor let go: whoever holds one
// settles it, once.
pub struct Slip {
    ruling: Ruling,
}

impl Slip {
    // The slip of a ruling.
    pub fn new(ruling: Ruling) -> Slip
        ensures { result.ruling ≡ ruling }
    {
        Slip { ruling }
    }
}

// What is settled with a sink of the kind B.
pub trait Settle<B: Sink> {
    // The ruling that is to be settled.
    ghost ruling_of: { Self → Ruling };

    // Tells the sink the sender's key and the cause's number, and gives the ruling back. Without a
    // cause, the sink stays as it is, in all that it holds.
    fn settle(self, sink: &mut B) -> Ruling
        ensures result { result ≡ ruling_of self }
        ensures account { B.account sink.new ≡ settled (ruling_of self) (B.account sink.old) }
        ensures untold { (ruling_of self).cause ≡ None → sink.new ≡ sink.old };
}

impl<B: Sink> Settle<B> for Slip {
    ghost ruling_of = { λ s. s.ruling };

    fn settle(self, sink: &mut B) -> Ruling {
        let Slip { ruling } = self;
        if let Some(cause) = ruling.cause {
            sink.tell(Pair {
                first: ruling.key,
                second: u64::from(cause.number()),
            });
        }
        ruling
    }
}

ghost use Rattle.std.specs.Prelude.{◌≡◌, Some, Option};
ghost use Rattle.values.specs.declared.payload.Words.{Words};
ghost use Rattle.values.specs.Payloads.{digest_words, digest_of, block_words, block_of};
ghost use Rattle.std.proofs.Common.{rules};

// The four numbers by which a payload is named in records and subject numbers.
#[derive(Clone, Copy, Debug, Default, PartialEq, Eq)]
pub struct Words {
    pub w1: u64,
    pub w2: u64,
    pub w3: u64,
    pub w4: u64,
}

// A kind of payload, whose values are told apart by their words.
pub trait Payload: Copy {
    // A payload's words.
    ghost words: { Self → Words };

    // The payload that has these words, where there is one.
    ghost named: { Words → Option Self };

    // The payload's words, which name it. (As a law, `back` would speak of fields with numbers too
    // large for their types as well.)
    fn to_words(&self) -> Words
        ensures value { result ≡ words self.now }
        ensures back { named result ≡ Some self.now };

    fn from_words(from: Words) -> Option<Self>
        ensures { result ≡ named from };

    // Payloads with the same words are the same payload.
    ghost apart: { (a b : Self) → words a ≡ words b → a ≡ b };

    // A payload has the words that name it.
    ghost sound: { (w : Words) (p : Self) → named w ≡ Some p → words p ≡ w };
}

// A block of traces by the digest of its bytes. Not a wrapper of `Words`: a digest is one kind of
// payload, words name any, and a caller would write `digest.words.w1` for `digest.w1`.
#[derive(Clone, Copy, Debug, PartialEq, Eq)]
pub struct Digest {
    pub w1: u64,
    pub w2: u64,
    pub w3: u64,
    pub w4: u64,
}

impl Payload for Digest {
    ghost words = { digest_words };

    ghost named = { digest_of };

    ghost apart = { Prim.search rules };

    ghost sound = { Prim.search rules };

    fn to_words(&self) -> Words {
        let Digest { w1, w2, w3, w4 } = *self;
        Words { w1, w2, w3, w4 }
    }

    fn from_words(from: Words) -> Option<Digest> {
        let Words { w1, w2, w3, w4 } = from;
        Some(Digest { w1, w2, w3, w4 })
    }
}

// A block of traces by the sledge that drove it, the GPS second at which it begins, and its
// number within that second.
#[derive(Clone, Copy, Debug, PartialEq, Eq)]
pub struct BlockName {
    pub sledge: u16,
    pub second: u64,
    pub ordinal: u32,
}

impl Payload for BlockName {
    ghost words = { block_words };

    ghost named = { block_of };

    ghost apart = { Prim.search rules };

    ghost sound = { Prim.search rules };

    fn to_words(&self) -> Words {
        Words {
            w1: u64::from(self.sledge),
            w2: self.second,
            w3: u64::from(self.ordinal),
            w4: 0,
        }
    }

    fn from_words(from: Words) -> Option<BlockName> {
        let sledge = u16::try_from(from.w1).ok()?;
        let ordinal = u32::try_from(from.w3).ok()?;
        (from.w4 == 0).then_some(BlockName {
            sledge,
            second: from.w2,
            ordinal,
        })
    }
}

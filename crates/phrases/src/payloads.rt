use crate::reading::Tokens;
use std::fmt;
use values::payload::{BlockName, Digest, Payload};

// A payload kind in words.
pub trait Spoken: Payload {
    fn fmt_words<W: fmt::Write>(&self, f: &mut fmt::Formatter<W>) -> fmt::Result;

    fn from_tokens(tokens: &mut Tokens<'_>) -> Option<Self>;
}

impl Spoken for Digest {
    fn fmt_words<W: fmt::Write>(&self, f: &mut fmt::Formatter<W>) -> fmt::Result {
        let Digest { w1, w2, w3, w4 } = *self;
        write!(f, "digest {w1} {w2} {w3} {w4}")
    }

    fn from_tokens(tokens: &mut Tokens<'_>) -> Option<Digest> {
        tokens.word("digest")?;
        Some(Digest {
            w1: tokens.number()?,
            w2: tokens.number()?,
            w3: tokens.number()?,
            w4: tokens.number()?,
        })
    }
}

impl Spoken for BlockName {
    fn fmt_words<W: fmt::Write>(&self, f: &mut fmt::Formatter<W>) -> fmt::Result {
        let BlockName {
            sledge,
            second,
            ordinal,
        } = *self;
        write!(f, "sledge {sledge} second {second} ordinal {ordinal}")
    }

    fn from_tokens(tokens: &mut Tokens<'_>) -> Option<BlockName> {
        Some(BlockName {
            sledge: tokens.after("sledge")?,
            second: tokens.after("second")?,
            ordinal: tokens.after("ordinal")?,
        })
    }
}

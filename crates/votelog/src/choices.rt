use phrases::checking::SchemeKind;
use phrases::reading::mask_of;

#[derive(Clone, Copy, Debug, Default, PartialEq, Eq)]
pub(crate) enum PayloadKind {
    #[default]
    Digest,
    Block,
}

// The participants that a layer withdraws.
#[derive(Clone, Copy, Debug, PartialEq, Eq)]
pub(crate) struct Mask(pub(crate) u64);

// A value that an option takes. Not FromStr, which SchemeKind's own crate would have to give.
pub(crate) trait Value: Sized {
    // What values there are, in words.
    const TAKES: &'static str;

    fn from_word(word: &str) -> Option<Self>;
}

impl Value for PayloadKind {
    const TAKES: &'static str = "digest or block";

    fn from_word(word: &str) -> Option<PayloadKind> {
        match word {
            "digest" => Some(PayloadKind::Digest),
            "block" => Some(PayloadKind::Block),
            _ => None,
        }
    }
}

impl Value for SchemeKind {
    const TAKES: &'static str = "listed or summed";

    fn from_word(word: &str) -> Option<SchemeKind> {
        match word {
            "listed" => Some(SchemeKind::Listed),
            "summed" => Some(SchemeKind::Summed),
            _ => None,
        }
    }
}

impl Value for Mask {
    const TAKES: &'static str = "a hexadecimal mask of 64 bits";

    fn from_word(word: &str) -> Option<Mask> {
        mask_of(word).map(Mask)
    }
}

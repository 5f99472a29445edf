// A certificate: its signers, participant i being bit i of the mask, and the seal that is made
// of their signatures.
#[derive(Clone, Copy, Debug, PartialEq, Eq)]
pub struct Masked {
    pub mask: u64,
    pub seal: u64,
}

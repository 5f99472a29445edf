ghost use Rattle.std.specs.Prelude.{◌≡◌};
ghost use Rattle.sinks.specs.Pairs.{pair_bytes};

// What a sink is told at a time.
#[derive(Clone, Copy, Debug, Default, PartialEq, Eq)]
pub struct Pair {
    pub first: u64,
    pub second: u64,
}

impl Pair {
    // Its 16 bytes: the two numbers, the lowest byte first. A method, as the numbers have theirs: an
    // impl of `From` would be called by its type, `<[u8; 16]>::from`.
    pub(crate) fn to_bytes(self) -> [u8; 16]
        ensures { result ≡ pair_bytes self }
    {
        let mut bytes = [0; 16];
        bytes[..8].copy_from_slice(&self.first.to_le_bytes());
        bytes[8..].copy_from_slice(&self.second.to_le_bytes());
        bytes
    }
}

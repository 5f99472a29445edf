ghost use Rattle.std.specs.Prelude.{◌≡◌, ℕ, ◌^◌, ◌<◌, ◌≤◌, List, ◌++◌, length};
ghost use Rattle.calls.specs.Layout.{number_in, fields_in, layout};

use crate::records::RECORD;
use values::payload::Words;
use values::types::Rnd;

// The fields of a record, in the order of its bytes.
#[derive(Clone, Copy, Debug, PartialEq, Eq)]
pub(crate) struct Fields {
    pub call: u8,
    pub kind: u8,
    // six bytes that no call uses
    pub gap: u64,
    pub key: u64,
    pub participant: u32,
    // four bytes that no call uses
    pub space: u32,
    pub round: Rnd,
    pub parent: u64,
    pub words: Words,
    pub signature: u64,
}

// The number that at most eight bytes hold, the lowest byte first.
fn number_in(part: &[u8]) -> u64
    requires { length part.now ≤ 8 }
    ensures value { result ≡ number_in part.now }
    ensures small { result < 256 ^ length part.now }
{
    let mut word = [0; 8];
    word[..part.len()].copy_from_slice(part);
    u64::from_le_bytes(word)
}

// Methods, not impls of `From`: `to_bytes` has a `requires`, which a `from` cannot have, and the two
// clauses of `from_bytes` would have to be one.
impl Fields {
    // The fields that a record's bytes hold.
    pub(crate) fn from_bytes(bytes: &[u8; RECORD]) -> Fields
        ensures value { result ≡ fields_in bytes.now }
        ensures exact { layout result ≡ bytes.now }
    {
        Fields {
            call: bytes[0],
            kind: bytes[1],
            gap: number_in(&bytes[2..8]),
            key: number_in(&bytes[8..16]),
            participant: number_in(&bytes[16..20]) as u32,
            space: number_in(&bytes[20..24]) as u32,
            round: Rnd {
                epoch: number_in(&bytes[24..32]),
                view: number_in(&bytes[32..40]),
            },
            parent: number_in(&bytes[40..48]),
            words: Words {
                w1: number_in(&bytes[48..56]),
                w2: number_in(&bytes[56..64]),
                w3: number_in(&bytes[64..72]),
                w4: number_in(&bytes[72..80]),
            },
            signature: number_in(&bytes[80..88]),
        }
    }

    // The bytes that hold the fields.
    pub(crate) fn to_bytes(self) -> [u8; RECORD]
        requires { self.gap < 256 ^ 6 }
        ensures value { result ≡ layout self }
        ensures exact { (rest : List ℕ) → fields_in (result ++ rest) ≡ self }
    {
        let mut bytes = [0; RECORD];
        bytes[0] = self.call;
        bytes[1] = self.kind;
        bytes[2..8].copy_from_slice(&self.gap.to_le_bytes()[..6]);
        bytes[8..16].copy_from_slice(&self.key.to_le_bytes());
        bytes[16..20].copy_from_slice(&self.participant.to_le_bytes());
        bytes[20..24].copy_from_slice(&self.space.to_le_bytes());
        bytes[24..32].copy_from_slice(&self.round.epoch.to_le_bytes());
        bytes[32..40].copy_from_slice(&self.round.view.to_le_bytes());
        bytes[40..48].copy_from_slice(&self.parent.to_le_bytes());
        bytes[48..56].copy_from_slice(&self.words.w1.to_le_bytes());
        bytes[56..64].copy_from_slice(&self.words.w2.to_le_bytes());
        bytes[64..72].copy_from_slice(&self.words.w3.to_le_bytes());
        bytes[72..80].copy_from_slice(&self.words.w4.to_le_bytes());
        bytes[80..88].copy_from_slice(&self.signature.to_le_bytes());
        bytes
    }
}

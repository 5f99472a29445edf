ghost use Rattle.std.specs.Prelude.{◌≡◌, [], ◌∷◌};
ghost use Rattle.bench.specs.Worked.{Worked};

use tags::number::{number, tag};
use values::payload::Digest;
use values::types::{Proposal, Rnd, Subject};

const ROUND: Rnd = Rnd { epoch: 1, view: 7 };

const PROPOSAL: Proposal<Digest> = Proposal {
    round: ROUND,
    parent: 6,
    payload: Digest {
        w1: 9,
        w2: 0,
        w3: 0,
        w4: 0,
    },
};

// The tags of key 11 for a nullify, a notarize and a finalize. The contract has the worked cases
// of tags and seals together.
pub fn worked_cases() -> [u64; 3]
    ensures tags { result ≡ 616 ∷ 2618 ∷ 2640 ∷ [] }
    ensures cases { Worked }
{
    [
        tag(11, number::<Digest>(Subject::Nullify(ROUND))),
        tag(11, number(Subject::Notarize(PROPOSAL))),
        tag(11, number(Subject::Finalize(PROPOSAL))),
    ]
}

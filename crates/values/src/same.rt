ghost use Rattle.std.specs.Prelude.{◌≡◌, Decides};
ghost use Rattle.values.specs.Same.{same_round, same_words, same_proposal, same_subject, same_attestation, same_vote};

use crate::payload::{Payload, Words};
use crate::types::{Attestation, Proposal, Rnd, Subject, Vote};

// Equality of values, by name: a rule of the project. Each answers the test that the rules cite, and
// that test is equality. A trait in their place would take an impl for each type, with its test.
pub fn same_round(r: &Rnd, s: &Rnd) -> bool
    ensures value { result ≡ same_round r.now s.now }
    ensures equal { Decides result (r.now ≡ s.now) }
{
    r == s
}

pub fn same_words(w: &Words, x: &Words) -> bool
    ensures value { result ≡ same_words w.now x.now }
    ensures equal { Decides result (w.now ≡ x.now) }
{
    w == x
}

pub fn same_payload<P: Payload>(p: &P, q: &P) -> bool
    ensures value { result ≡ same_words (P.words p.now) (P.words q.now) }
    ensures equal { Decides result (p.now ≡ q.now) }
{
    p.to_words() == q.to_words()
}

pub fn same_proposal<P: Payload>(p: &Proposal<P>, q: &Proposal<P>) -> bool
    ensures value { result ≡ same_proposal P.words p.now q.now }
    ensures equal { Decides result (p.now ≡ q.now) }
{
    p == q
}

pub fn same_subject<P: Payload>(s: &Subject<P>, t: &Subject<P>) -> bool
    ensures value { result ≡ same_subject P.words s.now t.now }
    ensures equal { Decides result (s.now ≡ t.now) }
{
    s == t
}

pub fn same_attestation(a: &Attestation, b: &Attestation) -> bool
    ensures value { result ≡ same_attestation a.now b.now }
    ensures equal { Decides result (a.now ≡ b.now) }
{
    a == b
}

pub fn same_vote<P: Payload>(v: &Vote<P>, w: &Vote<P>) -> bool
    ensures value { result ≡ same_vote P.words v.now w.now }
    ensures equal { Decides result (v.now ≡ w.now) }
{
    v == w
}

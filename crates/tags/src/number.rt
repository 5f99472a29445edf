ghost use Rattle.std.specs.Prelude.{◌≡◌, ◌<◌};
ghost use Rattle.tags.specs.Numbers.{prime, mixed, number_of, tag_of};

use values::payload::{Payload, Words};
use values::types::{Kind, Rnd, Subject};

// The modulus of all numbers, tags and seals. A number below it stays a u64, and its clause `small`
// stands on three functions: any u64 may be a signature, and a type of residues would be unwrapped
// wherever one is compared or added.
pub const PRIME: u64 = 2147483647;

// Each term is taken modulo the prime first, so that no sum comes near 2^64.
fn mix(kind: Kind, round: Rnd, parent: u64, words: Words) -> u64
    ensures value { result ≡ mixed kind round parent words }
    ensures small { result < prime }
{
    let total = u64::from(kind.number())
        + 5 * (round.epoch % PRIME)
        + 7 * (round.view % PRIME)
        + 11 * (parent % PRIME)
        + 13 * (words.w1 % PRIME)
        + 17 * (words.w2 % PRIME)
        + 19 * (words.w3 % PRIME)
        + 23 * (words.w4 % PRIME);
    total % PRIME
}

// The number by which a subject is signed.
pub fn number<P: Payload>(subject: Subject<P>) -> u64
    ensures value { result ≡ number_of P.words subject }
    ensures small { result < prime }
{
    let kind = subject.kind();
    match subject {
        Subject::Notarize(p) | Subject::Finalize(p) => mix(
            kind,
            p.round,
            p.parent,
            p.payload.to_words(),
        ),
        Subject::Nullify(round) => mix(kind, round, 0, Words::default()),
    }
}

// The signature that a key's owner gives on a subject's number.
pub fn tag(key: u64, number: u64) -> u64
    ensures value { result ≡ tag_of key number }
    ensures small { result < prime }
{
    (key % PRIME) * (number % PRIME) % PRIME
}

ghost use Rattle.std.specs.Prelude.{◌≡◌, true, IfSome};
ghost use Rattle.directory.specs.Directories.{keys_of};
ghost use Rattle.tags.specs.Numbers.{number_of, tagged, signed_of};

use crate::number::{number, tag};
use directory::directory::Directory;
use values::payload::Payload;
use values::types::{Attestation, Subject};

// Whether a participant signed, with its tag.
pub fn is_tagged(directory: &Directory, number: u64, attestation: Attestation) -> bool
    ensures { result ≡ tagged (keys_of directory.now) number attestation }
{
    let key = directory.keys().get(attestation.signer as usize);
    key.is_some_and(|key| attestation.signature == tag(*key, number))
}

// A participant's good attestation of a subject.
pub fn sign<P: Payload>(
    directory: &Directory,
    subject: Subject<P>,
    signer: u32,
) -> Option<Attestation>
    ensures value { result ≡ signed_of (keys_of directory.now) (number_of P.words subject) signer }
    ensures good { IfSome result (λ a. tagged (keys_of directory.now) (number_of P.words subject) a ≡ true) }
{
    let key = directory.keys().get(signer as usize)?;
    let signature = tag(*key, number(subject));
    Some(Attestation { signer, signature })
}

ghost use Rattle.std.specs.Prelude.{◌≡◌, ◌++◌, length, take, drop, IfOk, if◌then◌else◌, Ok, Err, OnOk, nat_lt};
ghost use Rattle.values.specs.declared.refusal.Refusal.TheVariants.{ShortRecord};
ghost use Rattle.calls.specs.Records.{read_of, written_of};

use crate::call::Call;
use crate::fields::Fields;
use values::payload::Payload;
use values::refusal::Refusal;

// How many bytes a record has.
pub const RECORD: usize = 88;

// The call that the first 88 bytes hold, which is written as these bytes and no others.
pub fn read<P: Payload>(bytes: &[u8]) -> Result<Call<P>, Refusal>
    ensures value { result ≡ read_of P.named bytes.now }
    ensures only { IfOk result (λ c. written_of P.words c ≡ take 88 bytes.now) }
{
    let front = bytes.first_chunk::<RECORD>().ok_or(Refusal::ShortRecord)?;
    Call::try_from(Fields::from_bytes(front))
}

// Writes a call into the first 88 bytes, from which it is then read again.
pub fn write<P: Payload>(call: &Call<P>, bytes: &mut [u8]) -> Result<(), Refusal>
    ensures answer { result ≡ (if nat_lt (length bytes.old) 88 then Err ShortRecord else Ok tt) }
    ensures after { bytes.new ≡ (if nat_lt (length bytes.old) 88 then bytes.old else written_of P.words call.now ++ drop 88 bytes.old) }
    ensures back { OnOk result (read_of P.named bytes.new ≡ Ok call.now) }
{
    let Some(front) = bytes.first_chunk_mut::<RECORD>() else {
        return Err(Refusal::ShortRecord);
    };
    *front = Fields::from(call).to_bytes();
    Ok(())
}

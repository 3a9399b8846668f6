// An answer as one number: the refusal's number or 0 in its upper half, the value in its lower half. An export may answer no enum,
// so a number stands for the refusal: the C interface.
ghost use Rattle.std.specs.Prelude.{◌≡◌, ◌*◌};
ghost use Rattle.firmware.specs.Halves.{half, one_number};

use journal::numbers::refusal_no;
use rules::Answer;

const HALF: u64 = 4294967296;

// The number of an answer.
pub(crate) fn one_number(answer: Answer) -> u64
    ensures { result ≡ one_number answer }
{
    match answer {
        Ok(value) => value as u64,
        Err(refusal) => refused(refusal_no(refusal)),
    }
}

// The number of a refusal, with value 0; of none, where its number is 0.
pub(crate) fn refused(refusal: u8) -> u64
    ensures { result ≡ refusal * half }
{
    refusal as u64 * HALF
}

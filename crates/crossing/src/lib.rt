// How the answer of a function that reads, writes or converts crosses to C, the same in every static library. The contract cites specs/Numbers.
#![tactic(auto)]

ghost use Rattle.std.specs.Prelude.{◌≡◌};
ghost use Rattle.reader.specs.Transfer.{transfer_of};
ghost use Rattle.crossing.specs.Numbers.{transfer_number, transfer_value};

use reader::Transfer;

// The number that is returned for an answer, and the one that is left in `value`.
pub fn transfer(answer: Transfer, value: &mut usize) -> usize
    ensures number { result ≡ transfer_number (transfer_of answer) }
    ensures value { value.new ≡ transfer_value (transfer_of answer) }
{
    match answer {
        Ok(count) => {
            *value = count;
            0
        }
        Err(refused) => {
            *value = refused.place;
            usize::from(refused.refusal)
        }
    }
}

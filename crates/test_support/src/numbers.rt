// Lists of numbers that were full of the mark, which no form and no record has. The contracts cite specs/Same.
ghost use Rattle.test_support.specs.Same.{Decides, number_mark};

pub const MARK: u16 = 65535;

// Whether every number of a list is this one.
pub fn is_full(list: &[u16], number: u16) -> bool
    ensures { Decides result list.now (λ k. number) }
{
    for k in 0..list.len() {
        if list[k] != number {
            return false;
        }
    }
    true
}

// Whether every number is the mark.
pub fn is_marked(list: &[u16]) -> bool
    ensures { Decides result list.now (λ k. number_mark) }
{
    is_full(list, MARK)
}

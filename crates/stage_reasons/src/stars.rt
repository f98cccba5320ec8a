// A trigger with ⋆ for every variable outside a set. The contract cites specs/Starred.
ghost use Rattle.std.specs.Prelude.{◌≡◌};
ghost use Rattle.stage_reasons.specs.Starred.{starred};

// The trigger's terms at the variables of the set, and 0, the number of ⋆, at all others.
pub fn starred(set: u8, trigger: [u16; 8]) -> [u16; 8]
    ensures { result ≡ starred set trigger }
{
    let mut row = [0u16; 8];
    for v in 0u8..8 {
        if form_variables::contains(set, v) {
            let at = usize::from(v);
            row[at] = trigger[at];
        }
    }
    row
}

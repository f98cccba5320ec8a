// The number of a refusal without a name. The ghost field cites specs/Taken.
ghost use Rattle.std.specs.Prelude.{◌≡◌, false};
ghost use Rattle.refusal.specs.Taken.{taken};

#[derive(Clone, Copy, Debug, PartialEq, Eq)]
pub struct Spare {
    pub number: u8,
    ghost spare: { taken number ≡ false },
}

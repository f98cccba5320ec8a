// Numbers of sixteen bits in two bytes, big-endian. The contracts cite `Differences` of columns_model.
ghost use Rattle.std.specs.Prelude.{◌≡◌, ◌+◌, ◌≤◌, ◌<◌, length, get_or};
ghost use Rattle.std.proofs.lemmas.List.Edits.{sets};
ghost use Rattle.model.specs.Format.{stated};
ghost use Rattle.columns_model.specs.Differences.{two_bytes, paired};

pub fn put_number(n: u16, out: &mut [u8], at: usize)
    requires { at + 2 ≤ length out.old }
    ensures { out.new ≡ sets out.old at (two_bytes n) }
{
    out[at..at + 2].copy_from_slice(&n.to_be_bytes());
}

pub fn number_at(bytes: &[u8], at: usize) -> u16
    requires { at + 2 ≤ length bytes.now }
    ensures { result ≡ paired (get_or bytes.now at 0) (get_or bytes.now (at + 1) 0) }
{
    u16::from_be_bytes([bytes[at], bytes[at + 1]])
}

// The same, as a count.
pub fn count_at(bytes: &[u8], at: usize) -> usize
    requires { at + 2 ≤ length bytes.now }
    ensures { (result ≡ paired (get_or bytes.now at 0) (get_or bytes.now (at + 1) 0)) × (result < 65536) }
{
    usize::from(number_at(bytes, at))
}

// The number of the first four bytes.
pub fn stated_length(bytes: &[u8]) -> usize
    requires { 4 ≤ length bytes.now }
    ensures { (result ≡ stated bytes.now) × (result < 4294967296) }
{
    u32::from_be_bytes([bytes[0], bytes[1], bytes[2], bytes[3]]) as usize
}

// The flagged-before bits: bit number row * columns + column, lowest bit of a byte first, set and tested by shifts and masks.
// The contracts cite rules' Lent; proofs/Bits.antt has the laws that callers cite.
#![tactic(auto)]

ghost use Rattle.std.specs.Prelude.{◌≡◌, ◌<◌, ◌/◌, length};
ghost use Rattle.rules.specs.Lent.{bit_at, with_bit};

pub fn test_bit(bits: &[u8], n: usize) -> bool
    requires { n / 8 < length bits.now }
    ensures { result ≡ bit_at bits.now n }
{
    let at = n / 8;
    let k = n % 8;
    (bits[at] >> k) & 1 == 1
}

// All other bits stay as they were.
pub fn set_bit(bits: &mut [u8], n: usize)
    requires { n / 8 < length bits.old }
    ensures { bits.new ≡ with_bit bits.old n }
{
    let at = n / 8;
    let k = n % 8;
    bits[at] = bits[at] | (1u8 << k);
}

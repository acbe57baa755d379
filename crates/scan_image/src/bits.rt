// The bits of a marker.
ghost use Rattle.std.specs.{Prelude.{◌≡◌, ◌<◌, ◌≤◌}, Option.ForSome};
ghost use Rattle.scan_image.specs.Places.{has_bit, has_named_bit};

/// Whether these bits have bit `bit`, 1 to 4, which has the value 2^(bit - 1).
pub fn has_bit(bits: u8, bit: u8) -> bool
    requires { (0 < bit) × (bit ≤ 4) }
    ensures { result ≡ has_bit bit bits }
{
    (bits >> (bit - 1)) & 1 == 1
}

/// The same of a bit that a plan may name or not.
pub fn has_named_bit(bits: u8, bit: Option<u8>) -> bool
    requires { ForSome bit (λ n. (0 < n) × (n ≤ 4)) }
    ensures { result ≡ has_named_bit bit bits }
{
    match bit {
        Some(bit) => has_bit(bits, bit),
        None => false,
    }
}

// Division by a number that stays the same.
ghost use Rattle.std.specs.Prelude.{◌≡◌, ◌<◌, ◌/◌, ◌^◌, ℕ};

/// A number to divide by, with what makes most divisions by it a product: numbers below 2^63 over the
/// divisor take no division.
#[derive(Clone, Copy)]
pub struct Divisor {
    by: u64,
    // 2^63 over that number, rounded down.
    share: u64,
    ghost some: { 0 < by },
    ghost is_share: { share ≡ 2 ^ 63 / by },
}

impl Divisor {
    ghost use Rattle.tally_base.specs.Settings.{divisor_of, IsShort};

    /// Divides by this number.
    pub fn new(by: u64) -> Divisor
        requires { 0 < by }
        ensures { divisor_of result ≡ by }
    {
        Divisor {
            by,
            share: 0x8000_0000_0000_0000 / by,
        }
    }

    /// How often the divisor is in a number that isn't too great for a product.
    #[inline(always)]
    pub fn short_quotient(&self, number: u64) -> u64
        requires { IsShort self.now number }
        ensures { result ≡ number / divisor_of self.now }
    {
        by_share(self.by, self.share, number)
    }

    /// An end below which each number has a product for its quotient, and one below `quotients`. Where the
    /// divisor is above 2^31 it is 0.
    #[inline(always)]
    pub fn short_end(&self, quotients: u32) -> u64
        ensures { (number : ℕ) → number < result
            → IsShort self.now number × (number / divisor_of self.now < quotients) }
    {
        if self.by <= 0x8000_0000 {
            (self.by * u64::from(quotients)).min(self.share)
        } else {
            0
        }
    }

    /// How often the divisor is in a number: the quotient, rounded down.
    #[inline(always)]
    pub fn quotient(&self, number: u64) -> u64
        ensures { result ≡ number / divisor_of self.now }
    {
        if number < self.share {
            by_share(self.by, self.share, number)
        } else {
            number / self.by
        }
    }
}

/// A quotient by the share of a divisor in 2^63.
#[inline(always)]
fn by_share(by: u64, share: u64, number: u64) -> u64
    requires some { 0 < by }
    requires is_share { share ≡ 2 ^ 63 / by }
    requires small { number < share }
    ensures { result ≡ number / by }
{
    let product = u128::from(number) * u128::from(share + 1);
    (product / 0x8000_0000_0000_0000) as u64
}

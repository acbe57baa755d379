// How often each count came in the bins that are closed.
ghost use Rattle.std.specs.Prelude.{◌≡◌, ◌+◌, ◌^◌, ◌<◌, ◌≤◌, ◌==◌, ℕ, length, nat_le, slice_index, sum, if◌then◌else◌};
ghost use Rattle.long_trace.specs.Texts.{frequency_limit};

/// How many counts have a frequency of their own.
pub(crate) const FREQUENCIES: usize = 1024;

/// How often each count came in the bins that are closed.
#[derive(Clone, Copy)]
pub(crate) struct Closed {
    /// By count.
    pub frequencies: [u64; FREQUENCIES],
    /// The bins with a greater count.
    pub many: u64,
    pub ghost sized: { length frequencies ≡ 1024 },
}

impl Closed {
    /// No bin is closed.
    pub fn new() -> Closed
        ensures frequencies { (c : ℕ) → c < frequency_limit → slice_index result.frequencies c ≡ 0 }
        ensures many { result.many ≡ 0 }
        ensures sum { sum result.frequencies ≡ 0 }
    {
        Closed {
            frequencies: [0; FREQUENCIES],
            many: 0,
        }
    }

    /// A bin more has this count.
    pub fn raise(&mut self, count: u64)
        requires own { count < frequency_limit → slice_index self.old.frequencies count + 1 < 2 ^ 64 }
        requires many { frequency_limit ≤ count → self.old.many + 1 < 2 ^ 64 }
        ensures frequencies { (c : ℕ) → c < frequency_limit → slice_index self.new.frequencies c
            ≡ slice_index self.old.frequencies c + (if count == c then 1 else 0) }
        ensures many { self.new.many ≡ self.old.many + (if nat_le frequency_limit count then 1 else 0) }
        ensures sum { sum self.new.frequencies + self.new.many ≡ sum self.old.frequencies + self.old.many + 1 }
    {
        if count < FREQUENCIES as u64 {
            self.frequencies[count as usize] += 1;
        } else {
            self.many += 1;
        }
    }

    /// A bin with this count is closed, and so many empty ones after it.
    pub fn close(&mut self, count: u64, empty: u64)
        requires { sum self.old.frequencies + self.old.many + 1 + empty < 2 ^ 64 }
        ensures frequencies { (c : ℕ) → c < frequency_limit → slice_index self.new.frequencies c
            ≡ slice_index self.old.frequencies c + (if count == c then 1 else 0)
            + (if 0 == c then empty else 0) }
        ensures many { self.new.many ≡ self.old.many + (if nat_le frequency_limit count then 1 else 0) }
        ensures sum { sum self.new.frequencies + self.new.many ≡ sum self.old.frequencies + self.old.many + 1 + empty }
    {
        self.raise(count);
        self.frequencies[0] += empty;
    }
}

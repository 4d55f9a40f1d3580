//! Sizes up to a bound, and alignments.
ghost use Rattle.std.specs.Prelude.{◌≡◌, ◌<◌, ◌≤◌, ◌^◌};
ghost use Rattle.std.specs.Int.{next_multiple_of};
ghost use Rattle.c_types.specs.Extents as s;

/// The greatest size of an object, in bytes.
pub const SIZE_LIMIT: u64 = 1_073_741_824;

/// The size of an object in bytes, or one more than the limit where it passes that, and its
/// alignment.
#[derive(Clone, Copy)]
pub struct Extent {
    pub size: u64,
    pub align: u64,
}

/// The least multiple of `align` that isn't below `size`.
pub fn padded_size(size: u64, align: u64) -> u64
    requires size { size ≤ 2147483648 }
    requires positive { 0 < align }
    requires small { align ≤ 8 }
    ensures value { result ≡ next_multiple_of size align }
    ensures bound { result ≤ 2147483656 }
{
    size + (align - size % align) % align
}

fn limited(size: u64) -> u64
    ensures { result ≡ s.limited size }
{
    size.min(SIZE_LIMIT + 1)
}

impl Extent {
    /// A scalar, whose alignment is its size.
    pub fn scalar(size: u64) -> Extent
        ensures { result ≡ record { size = size; align = size } }
    {
        Extent { size, align: size }
    }

    /// No member yet.
    pub fn no_member() -> Extent
        ensures { result ≡ record { size = 0; align = 1 } }
    {
        Extent { size: 0, align: 1 }
    }

    /// An array of this many.
    pub fn repeated(self, count: u64) -> Extent
        requires { self.size ≤ s.past_limit }
        ensures { result ≡ s.repeated count self }
    {
        Extent {
            size: limited(self.size.saturating_mul(count)),
            align: self.align,
        }
    }

    /// One more member behind these.
    pub fn followed_by(self, member: Extent) -> Extent
        requires size { self.size ≤ s.past_limit }
        requires member { member.size ≤ s.past_limit }
        requires positive { 0 < member.align }
        requires small { member.align ≤ 8 }
        ensures { result ≡ s.followed_by self member }
    {
        Extent {
            size: limited(padded_size(self.size, member.align) + member.size),
            align: self.align.max(member.align),
        }
    }

    /// The whole structure of these members.
    pub fn padded(self) -> Extent
        requires size { self.size ≤ s.past_limit }
        requires positive { 0 < self.align }
        requires small { self.align ≤ 8 }
        ensures { result ≡ s.padded self }
    {
        Extent {
            size: limited(padded_size(self.size, self.align)),
            align: self.align,
        }
    }
}

// The size and depth of plain expressions as they fit 64 bits, and how parts make a whole.
ghost use Rattle.std.specs.Prelude.{◌≡◌, ◌+◌, ◌*◌};
ghost use Rattle.cdk_measure.specs.Wholes.{around as spec_around, around_list as spec_around_list, around_two as spec_around_two, capped, collected as spec_collected, leaf as spec_leaf, no_parts, nothing as spec_nothing, with_part};

// What each pair of dependencies counts.
const PAIR_SIZE: u64 = 16;

/// What is measured of a plain expression or condition: sums that don't fit 64 bits stop at 2^64 - 1.
#[derive(Clone, Copy)]
pub struct Measure {
    /// The size.
    pub size: u64,
    /// The depth.
    pub depth: u64,
    /// Whether it is an array, which as the argument of `Fn::Join` or `Fn::Select` counts with its expression.
    pub is_list: bool,
}

/// The measures of parts that stand one after another.
#[derive(Clone, Copy)]
pub struct Parts {
    /// The sum of the sizes.
    pub size: u64,
    /// The greatest depth, 0 where there is no part.
    pub deepest: u64,
}

impl Measure {
    /// That of no expression.
    pub fn nothing() -> Measure
        ensures { result ≡ spec_nothing }
    {
        Measure {
            size: 0,
            depth: 0,
            is_list: false,
        }
    }

    /// That of a literal or target, with so many bytes of texts.
    pub fn leaf(bytes: usize) -> Measure
        ensures { result ≡ spec_leaf bytes }
    {
        Measure {
            size: (bytes as u64).saturating_add(16),
            depth: 1,
            is_list: false,
        }
    }

    /// That of an expression around this one, with so many bytes besides.
    pub fn around(self, bytes: usize) -> Measure
        ensures { result ≡ spec_around bytes self }
    {
        Measure {
            size: self.size.saturating_add(bytes as u64).saturating_add(16),
            depth: self.depth.saturating_add(1),
            is_list: false,
        }
    }

    /// That of `Fn::Join` or `Fn::Select` of this one, with so many bytes besides.
    pub fn around_list(self, bytes: usize) -> Measure
        ensures { result ≡ spec_around_list bytes self }
    {
        let depth = if self.is_list {
            self.depth
        } else {
            self.depth.saturating_add(1)
        };
        Measure {
            size: self.size.saturating_add(bytes as u64).saturating_add(16),
            depth,
            is_list: false,
        }
    }

    /// That of an expression around this one and another, with so many bytes besides.
    pub fn around_two(self, other: Measure, bytes: usize) -> Measure
        ensures { result ≡ spec_around_two bytes self other }
    {
        Measure {
            size: self
                .size
                .saturating_add(other.size)
                .saturating_add(bytes as u64)
                .saturating_add(16),
            depth: self.depth.max(other.depth).saturating_add(1),
            is_list: false,
        }
    }

    /// That of a resource whose properties have this one, with so many pairs of dependencies.
    pub fn with_pairs(self, pairs: u64) -> Measure
        ensures { result ≡ record { size = capped (self.size + 16 * pairs); depth = self.depth; is_list = self.is_list } }
    {
        Measure {
            size: self.size.saturating_add(pairs.saturating_mul(PAIR_SIZE)),
            depth: self.depth,
            is_list: self.is_list,
        }
    }
}

impl Parts {
    /// No part.
    pub fn none() -> Parts
        ensures { result ≡ no_parts }
    {
        Parts {
            size: 0,
            deepest: 0,
        }
    }

    /// These, and one more with a key of so many bytes.
    pub fn with(self, key_bytes: usize, part: Measure) -> Parts
        ensures { result ≡ with_part key_bytes part self }
    {
        Parts {
            size: self
                .size
                .saturating_add(part.size)
                .saturating_add(key_bytes as u64),
            deepest: self.deepest.max(part.depth),
        }
    }

    /// That of the array, object, Concat or condition that they are the parts of.
    pub fn collected(self, is_list: bool) -> Measure
        ensures { result ≡ spec_collected is_list self }
    {
        Measure {
            size: self.size.saturating_add(16),
            depth: self.deepest.saturating_add(1),
            is_list,
        }
    }
}

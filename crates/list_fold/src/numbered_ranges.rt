// Ranges by the numbers of their ends.
ghost use Rattle.std.specs.Prelude.{◌≡◌, [], ◌∷◌, ◌++◌, ◌+◌, ◌<◌, ◌≤◌, length, take};
ghost use Rattle.list_fold.specs.Ranges.{Holds, range, range_of, ranges_in};

// A range by the numbers of its two ends.
#[derive(Clone, Copy)]
pub struct NumberedRange {
    pub low: u8,
    pub high: u8,
}

// The first `count` of the list; the others are blank. A list has at most 17 ranges, and a hole may leave two parts of each.
#[derive(Clone, Copy)]
pub struct NumberedRanges {
    list: [NumberedRange; 34],
    count: usize,
}

impl NumberedRanges {
    pub fn none() -> NumberedRanges
        ensures { Holds 0 [] result }
    {
        NumberedRanges {
            list: [NumberedRange { low: 0, high: 0 }; 34],
            count: 0,
        }
    }

    pub(crate) fn push(mut self, range: NumberedRange) -> NumberedRanges
        requires { (self.count < 34) × Holds self.count (ranges_in self) self }
        ensures { Holds (self.count + 1) (ranges_in self ++ (range_of range ∷ [])) result }
    {
        let i = self.count;
        self.list[i] = range;
        self.count = i + 1;
        self
    }

    // One range, from below all to above all.
    pub fn everything() -> NumberedRanges
        ensures { Holds 1 (range 0 1 ∷ []) result }
    {
        NumberedRanges::none().push(NumberedRange { low: 0, high: 1 })
    }

    pub fn ranges(&self) -> &[NumberedRange]
        ensures is { result.now ≡ take self.now.count self.now.list }
        ensures few { length result.now ≤ self.now.count }
    {
        &self.list[..self.count.min(34)]
    }
}

// One end of a range.
ghost use Rattle.std.specs.Prelude.{◌≡◌};
ghost use Rattle.list_ends.specs.End.{level_of, side_of, bottom, topmost};

use version_parts::fields::Version;

// Below all versions, above all, right before a version, or right after it.
#[derive(Clone, Copy)]
pub enum Side {
    Bottom,
    Top,
    Before,
    After,
}

// A place between versions. Below all and above all stand beside the blank version.
#[derive(Clone, Copy)]
pub struct End {
    pub side: Side,
    pub version: Version,
}

impl End {
    pub fn bottom() -> End
        ensures { result ≡ bottom }
    {
        End {
            side: Side::Bottom,
            version: Version::none(),
        }
    }

    pub fn topmost() -> End
        ensures { result ≡ topmost }
    {
        End {
            side: Side::Top,
            version: Version::none(),
        }
    }
}

// Below all, at a version, above all.
pub fn level_of(side: Side) -> u64
    ensures { result ≡ level_of side }
{
    match side {
        Side::Bottom => 0,
        Side::Top => 2,
        Side::Before => 1,
        Side::After => 1,
    }
}

// Before a version or after it.
pub fn side_of(side: Side) -> u64
    ensures { result ≡ side_of side }
{
    match side {
        Side::Bottom => 0,
        Side::Top => 0,
        Side::Before => 0,
        Side::After => 1,
    }
}

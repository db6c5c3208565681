// The fields of a version, by value.
ghost use Rattle.std.specs.Prelude.{◌≡◌, ◌<◌};
ghost use Rattle.version_parts.specs.Fields.{Numbers, Spans, no_release, only_number, pushed_number, no_local, no_version};

use chars::spelling::PreKind;

// The first len numbers count; the others are 0.
#[derive(Clone, Copy)]
pub struct Release {
    pub numbers: [u64; 16],
    pub len: usize,
}

// A pre-release: its kind and its number.
pub type Pre = (PreKind, u64);

// A place in the text: it has at most 1,024 bytes, so that 16 bits do and the array stays small.
#[derive(Clone, Copy)]
pub struct Span {
    pub start: u16,
    pub end: u16,
}

// The segments of a local label, as places in the text. The first len spans count; the others are 0.
#[derive(Clone, Copy)]
pub struct Local {
    pub spans: [Span; 16],
    pub len: usize,
}

#[derive(Clone, Copy)]
pub struct Version {
    pub epoch: u64,
    pub release: Release,
    pub pre: Option<Pre>,
    pub post: Option<u64>,
    pub dev: Option<u64>,
    pub local: Local,
}

impl Release {
    pub fn none() -> Release
        ensures { Numbers no_release result }
    {
        Release {
            numbers: [0; 16],
            len: 0,
        }
    }

    pub fn only(n: u64) -> Release
        ensures { Numbers (only_number n) result }
    {
        let mut numbers = [0u64; 16];
        numbers[0] = n;
        Release { numbers, len: 1 }
    }

    pub(crate) fn push(mut self, n: u64) -> Release
        requires { self.len < 16 }
        ensures { Numbers (pushed_number self n) result }
    {
        let i = self.len;
        self.numbers[i] = n;
        self.len = i + 1;
        self
    }
}

impl Local {
    pub fn none() -> Local
        ensures { Spans no_local result }
    {
        let nothing = Span { start: 0, end: 0 };
        Local {
            spans: [nothing; 16],
            len: 0,
        }
    }
}

impl Version {
    // The blank version, which stands where there is none.
    pub fn none() -> Version
        ensures { result ≡ no_version }
    {
        let release = Release::none();
        let local = Local::none();
        Version {
            epoch: 0,
            release,
            pre: None,
            post: None,
            dev: None,
            local,
        }
    }
}

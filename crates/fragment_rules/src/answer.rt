// What a reader says.
use version_parts::fields::Version;
use version_reading::text::Verdict;

// Where nothing is said, or the text is refused, the version is the blank one.
#[derive(Clone, Copy)]
pub struct Answer {
    pub says: Option<Verdict>,
    pub version: Version,
}

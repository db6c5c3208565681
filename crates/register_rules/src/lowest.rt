// The two lowest identifiers of those that were met.
#[derive(Clone, Copy)]
pub enum Lowest {
    Nothing,
    One(u16),
    Two(u16, u16),
}

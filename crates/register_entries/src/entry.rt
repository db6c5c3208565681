// An identifier, and where its table lies in a buffer.

#[derive(Clone, Copy)]
pub struct Entry {
    pub id: u16,
    pub start: usize,
    pub length: usize,
}

// The text that came in lumps: the first `count` bytes of `held`, and whether the end mark came after them. A count over 1,024 says that
// too many came, and there is no such text.
#[derive(Clone, Copy)]
pub struct Reader {
    pub held: [u8; 1024],
    pub count: usize,
    pub ended: bool,
}

// Texts made from a seed: versions that lie close together, and lists of clauses about them.
use answer_lines::line::Line;

// What the next number is drawn from.
#[derive(Drop)]
pub(crate) struct Seed(u64);

impl Seed {
    pub(crate) fn first() -> Seed {
        Seed(1)
    }

    // The upper bits vary more than the lower ones.
    fn draw(&mut self) -> u64 {
        self.0 = (self.0 % 2147483648) * 1103515245 % 2147483648 + 12345;
        self.0 / 4096
    }
}

fn put_number(text: &mut Line<'_>, seed: &mut Seed) {
    text.text(match seed.draw() % 12 {
        0 => b"18446744073709551615",
        1 => b"18446744073709551614",
        2 => b"10",
        3 => b"3",
        4..=5 => b"2",
        6..=8 => b"1",
        _ => b"0",
    });
}

fn put_epoch(text: &mut Line<'_>, seed: &mut Seed) {
    text.text(match seed.draw() % 24 {
        0 => b"18446744073709551615!",
        1 => b"1!",
        _ => b"",
    });
}

fn put_suffix(text: &mut Line<'_>, seed: &mut Seed) {
    text.text(match seed.draw() % 20 {
        0 => b"a1",
        1 => b"b0",
        2 => b"rc1",
        3 => b"rc1.dev2",
        4 => b".post0",
        5 => b".post1.dev0",
        6 => b".dev0",
        7 => b".dev1",
        8 => b"a1.dev18446744073709551615",
        _ => b"",
    });
}

// One to four numbers.
fn put_release(text: &mut Line<'_>, seed: &mut Seed) {
    let further = seed.draw() % 4;
    put_number(text, seed);
    for _ in 0..further {
        text.byte(b'.');
        put_number(text, seed);
    }
}

fn put_plain(text: &mut Line<'_>, seed: &mut Seed) {
    put_epoch(text, seed);
    put_release(text, seed);
    put_suffix(text, seed);
}

// A version, now and then with a label.
pub(crate) fn put_candidate(text: &mut Line<'_>, seed: &mut Seed) {
    put_plain(text, seed);
    if seed.draw() % 6 == 0 {
        text.text(b"+b1");
    }
}

// Half of the clauses are prefixes with a wildcard, mostly to be left out.
fn put_clause(text: &mut Line<'_>, seed: &mut Seed) {
    let drawn = seed.draw();
    if drawn % 3 == 0 {
        text.text(b"!=");
        put_release(text, seed);
        text.text(b".*");
        return;
    }
    text.text(match drawn % 11 {
        0 => b"==",
        1 => b"~=",
        2 => b"<=",
        3 => b"<",
        4..=5 => b">=",
        6 => b">",
        _ => b"!=",
    });
    put_plain(text, seed);
}

// One to seven clauses; a few of these lists are refused.
pub(crate) fn put_list(text: &mut Line<'_>, seed: &mut Seed) {
    let further = seed.draw() % 7;
    put_clause(text, seed);
    for _ in 0..further {
        text.byte(b',');
        put_clause(text, seed);
    }
    // The counts in `stdout` are those of the versions that come when one number is passed over.
    seed.draw();
}

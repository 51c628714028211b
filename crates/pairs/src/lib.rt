// The pairs of a row: read, written, put in and taken out.
#![tactic(auto)]

ghost use Rattle.std.specs.Prelude.{◌+◌, ◌≤◌, ◌<◌, ◌≡◌, length};
ghost use Rattle.segments.specs.Segments.{Reads, written};
ghost use Rattle.model.specs.Row.{used_pairs};
ghost use Rattle.pairs.specs.Pairs.{segment, Carries, Inserts, Shifts, Removes};

// A segment, as a row holds it.
#[derive(Clone, Copy)]
pub struct Pair {
    pub offset: u16,
    pub count: u16,
}

pub fn pair_at(row: &[u16; 256], k: usize) -> Pair
    requires { k < 128 }
    ensures { Reads row.now k result.offset result.count }
{
    Pair {
        offset: row[2 * k],
        count: row[2 * k + 1],
    }
}

pub fn set_pair(row: &mut [u16; 256], k: usize, p: Pair)
    requires { k < 128 }
    ensures { row.new ≡ written row.old k (segment p) }
{
    row[2 * k] = p.offset;
    row[2 * k + 1] = p.count;
}

// Puts a pair into pair k, and each of the n pairs from there on, but for the last, into the place after its own; the last of the n is returned. It is inlined, so
// that eight are moved at once, with no jump between them.
#[inline]
fn carry(row: &mut [u16; 256], k: usize, n: usize, mut p: Pair) -> Pair
    requires { k + n ≤ 128 }
    ensures { Carries k n (segment p) row.old row.new (segment result) }
{
    for i in 0..n {
        let q = pair_at(row, k + i);
        set_pair(row, k + i, p);
        p = q;
    }
    p
}

// Each pair from k on moves to the next place: eight at a time, until an unused one comes into hand, and then those that are left.
pub fn insert(row: &mut [u16; 256], k: usize, mut p: Pair)
    ensures { Inserts k (segment p) row.old row.new }
{
    let left = 128usize.saturating_sub(k);
    for j in 0..left / 8 {
        p = carry(row, k + 8 * j, 8, p);
        if p.count == 0 {
            return;
        }
    }
    carry(row, 128 - left % 8, left % 8, p);
}

// Each of the n pairs after k moves to the place before it; the count of the last is returned, 0 if there is none. It is inlined, as `carry` is.
#[inline]
fn shift(row: &mut [u16; 256], k: usize, n: usize) -> u16
    requires { k + n < 128 }
    ensures { Shifts k n row.old row.new result }
{
    let mut count = 0;
    for i in 0..n {
        let p = pair_at(row, k + i + 1);
        set_pair(row, k + i, p);
        count = p.count;
    }
    count
}

// Each pair after k moves to the place before it: eight at a time, until an unused one was moved, and then those that are left.
pub fn remove(row: &mut [u16; 256], k: usize)
    requires { k < 128 }
    ensures { Removes k row.old row.new }
{
    let left = 127 - k;
    for j in 0..left / 8 {
        if shift(row, k + 8 * j, 8) == 0 {
            return;
        }
    }
    shift(row, 127 - left % 8, left % 8);
    let unused = Pair {
        offset: 0,
        count: 0,
    };
    set_pair(row, 127, unused);
}

// A row's used pairs, as that part of the row.
pub fn used_part(row: &[u16]) -> &[u16]
    requires { length row.now ≡ 256 }
    ensures { result.now ≡ used_pairs row.now }
{
    for k in 0..128 {
        if row[2 * k + 1] == 0 {
            return &row[..2 * k];
        }
    }
    row
}

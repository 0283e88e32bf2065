// How many of some rows have each item, counted for all items at once in planes: plane b has the items in whose count bit b is set.
ghost use Rattle.std.specs.Prelude.{◌≡◌, ℕ, ◌+◌, ◌*◌, ◌^◌, ◌<◌, ◌≤◌, true, false, map, length};
ghost use Rattle.sets.specs.Sets.{one};
ghost use Rattle.duality.specs.Shares.{Tallied, Most, counted, having};

use sets::Mask;

// Counts below 8,192 have 13 bits; a table has at most 4,096 rows.
pub(crate) const PLANES: usize = 13;

// The planes of the rows with these masks.
pub(crate) fn tally<M: Mask>(planes: &mut [M], masks: &[M])
    requires long { length planes.old ≡ 13 }
    requires few { length masks.now < 2 ^ 13 }
    ensures long { length planes.new ≡ 13 }
    ensures tallied { Tallied M.bits (map M.bits masks.now) planes.new }
{
    for plane in 0..PLANES {
        planes[plane] = M::none();
    }
    add(planes, masks);
}

// Adds the rows with these masks.
fn add<M: Mask>(planes: &mut [M], masks: &[M])
    requires { length planes.old ≡ 13 }
    ensures long { length planes.new ≡ 13 }
    ensures each { (k : ℕ) → counted M.bits planes.old k + having (map M.bits masks.now) k < 2 ^ 13 → counted M.bits planes.new k ≡ counted M.bits planes.old k + having (map M.bits masks.now) k }
{
    let mut rest = masks;
    'eights: while rest.len() >= 8 {
        let (rows, others) = rest.split_at(8);
        add_eight(planes, rows);
        rest = others;
    }
    for mask in rest {
        carry(planes, 0, *mask);
    }
}

// Takes away rows with these masks: what is added to turned counts is taken from the counts.
pub(crate) fn take_away<M: Mask>(planes: &mut [M], masks: &[M])
    requires { length planes.old ≡ 13 }
    ensures long { length planes.new ≡ 13 }
    ensures each { (k : ℕ) → having (map M.bits masks.now) k ≤ counted M.bits planes.old k → counted M.bits planes.new k + having (map M.bits masks.now) k ≡ counted M.bits planes.old k }
{
    let items = present(planes);
    turn(planes, items);
    add(planes, masks);
    turn(planes, items);
}

// The items whose count is not 0.
fn present<M: Mask>(planes: &[M]) -> M
    requires { length planes.now ≡ 13 }
    ensures { (k : ℕ) → M.bits result k ≡ false → counted M.bits planes.now k ≡ 0 }
{
    let mut items = M::none();
    for at in 0..PLANES {
        items = items.or(planes[at]);
    }
    items
}

// Turns the counts of these items: each is now what it lacked of the largest number that the planes can hold.
fn turn<M: Mask>(planes: &mut [M], items: M)
    requires { length planes.old ≡ 13 }
    ensures long { length planes.new ≡ 13 }
    ensures turned { (k : ℕ) → M.bits items k ≡ true → counted M.bits planes.new k + counted M.bits planes.old k + 1 ≡ 2 ^ 13 }
    ensures others { (k : ℕ) → M.bits items k ≡ false → counted M.bits planes.new k ≡ counted M.bits planes.old k }
{
    for at in 0..PLANES {
        planes[at] = planes[at].xor(items);
    }
}

// Eight rows more: by sums of three bits into the first three planes. Only what those carry goes on from plane to plane.
fn add_eight<M: Mask>(planes: &mut [M], rows: &[M])
    requires long { length planes.old ≡ 13 }
    requires eight { length rows.now ≡ 8 }
    ensures long { length planes.new ≡ 13 }
    ensures each { (k : ℕ) → counted M.bits planes.old k + having (map M.bits rows.now) k < 2 ^ 13 → counted M.bits planes.new k ≡ counted M.bits planes.old k + having (map M.bits rows.now) k }
{
    let (ones, first_two) = sum(planes[0], rows[0], rows[1]);
    let (ones, second_two) = sum(ones, rows[2], rows[3]);
    let (ones, third_two) = sum(ones, rows[4], rows[5]);
    let (ones, fourth_two) = sum(ones, rows[6], rows[7]);
    let (twos, first_four) = sum(planes[1], first_two, second_two);
    let (twos, second_four) = sum(twos, third_two, fourth_two);
    let (fours, eight) = sum(planes[2], first_four, second_four);
    planes[0] = ones;
    planes[1] = twos;
    planes[2] = fours;
    carry(planes, 3, eight);
}

// The sum of three bits for each number: its first bit, and its second.
fn sum<M: Mask>(a: M, b: M, c: M) -> (M, M)
    ensures { (k : ℕ) → one (M.bits result.0 k) + 2 * one (M.bits result.1 k) ≡ one (M.bits a k) + one (M.bits b k) + one (M.bits c k) }
{
    let either = a.xor(b);
    (either.xor(c), a.and(b).or(either.and(c)))
}

// As many more as plane `from` stands for, of each item of the mask.
fn carry<M: Mask>(planes: &mut [M], from: usize, mask: M)
    requires long { length planes.old ≡ 13 }
    requires from { from ≤ 13 }
    ensures long { length planes.new ≡ 13 }
    ensures each { (k : ℕ) → counted M.bits planes.old k + 2 ^ from * one (M.bits mask k) < 2 ^ 13 → counted M.bits planes.new k ≡ counted M.bits planes.old k + 2 ^ from * one (M.bits mask k) }
{
    let mut carried = mask;
    for at in from..PLANES {
        let plane = planes[at];
        planes[at] = plane.xor(carried);
        carried = plane.and(carried);
        if carried.is_none() {
            return;
        }
    }
}

// The largest count of the items in question, and those that have it. No count is larger than the number of rows, so the planes above its
// highest bit are empty.
pub(crate) fn most<M: Mask>(planes: &[M], rows: usize, items: M) -> (usize, M)
    requires { length planes.now ≡ 13 }
    ensures most { ((k : ℕ) → counted M.bits planes.now k ≤ rows) → Most (counted M.bits planes.now) (M.bits items) result.0 (M.bits result.1) }
    ensures few { result.0 < 2 ^ 13 }
{
    let bits = (usize::BITS - rows.leading_zeros()) as usize;
    let used = bits.min(PLANES);
    let mut most = 0;
    let mut leading = items;
    for above in 0..used {
        let more = leading.and(planes[used - 1 - above]);
        most *= 2;
        if !more.is_none() {
            most += 1;
            leading = more;
        }
    }
    (most, leading)
}

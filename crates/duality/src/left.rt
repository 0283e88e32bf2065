// Which rows of a table may still be left in a half.
ghost use Rattle.std.specs.Prelude.{◌≡◌, ℕ, ◌+◌, ◌<◌, ◌≤◌, Bool, Some, [], map, length, slice_index};
ghost use Rattle.std.specs.List.{list_any};
ghost use Rattle.std.specs.Fn.{FnReturnsAt};
ghost use Rattle.sets.specs.Sets.{Numbers, Below};
ghost use Rattle.systems.specs.Systems.{EachRow};
ghost use Rattle.tables.specs.Memory.{meant};
ghost use Rattle.duality.specs.Remaining.{Alike, any_row, Tests, Fits, Sifted, Unmoved, GoneBack, kept, standing};

use crate::masks::{load, sift};
use crate::tally::{PLANES, take_away, tally};
use sets::{Mask, SetKind};
use tables::Row;

// The first rows, as many as a table can have, stand as masks; those behind them may always be left. Of the masks the first `count` may be
// left, and those that have dropped out stand behind. `counts` has for each open split the count before it. The planes count the first
// masks, where `tallied` says how many.
#[derive(Drop)]
pub(crate) struct Left<'r, M: Mask, K: SetKind> {
    masks: &'r mut [M],
    behind: &'r [Row<K>],
    pub(crate) count: usize,
    counts: [usize; 256],
    planes: &'r mut [M],
    tallied: Option<usize>,
}

impl<'r, M: Mask, K: SetKind> Left<'r, M, K> {
    // All of them; the memory has places for the planes, and behind them for masks.
    pub(crate) fn new(memory: &'r mut [M], rows: &'r [Row<K>]) -> Left<'r, M, K>
        requires room { 13 ≤ length memory.now }
        requires most { length memory.now ≤ 4109 }
        requires low { EachRow (map (meant K.mem) rows.now) (Below M.most) }
        ensures fits { Fits M.bits result }
        ensures all { Alike any_row (map (meant K.mem) rows.now) (standing M.bits K.mem result result.count) }
        ensures counts { (split : ℕ) → split < 256 → slice_index result.counts split ≡ result.count }
        ensures behind { 13 + length rows.now ≤ length memory.entry.now → result.behind.now ≡ [] }
    {
        let (planes, places) = memory.split_at_mut(PLANES);
        let count = rows.len().min(places.len());
        let masks = &mut places[..count];
        let (first, behind) = rows.split_at(count);
        load(masks, first);
        Left {
            masks,
            behind,
            count,
            counts: [count; 256],
            planes,
            tallied: None,
        }
    }

    // Drops the rows that do not pass, and answers whether any is left.
    pub(crate) fn sift<F: Fn(&M) -> bool, G: Fn(&Row<K>) -> bool>(
        &mut self,
        is_left: F,
        row_is_left: G,
    ) -> bool
        requires callable { F.IsAlwaysCallable is_left }
        requires row_callable { G.IsAlwaysCallable row_is_left }
        requires fits { Fits M.bits self.old }
        ensures sifted { (test : Numbers → Bool) → Tests M.bits (FnReturnsAt F.Fn is_left) test → Sifted M.bits K.mem test self.old self.new }
        ensures left { (test : Numbers → Bool) → Tests M.bits (FnReturnsAt F.Fn is_left) test → Tests (meant K.mem) (FnReturnsAt G.Fn row_is_left) test → result ≡ list_any test (standing M.bits K.mem self.old self.old.count) }
    {
        self.count = sift(&mut self.masks[..self.count], &is_left);
        self.count > 0 || self.behind.iter().any(&row_is_left)
    }

    // Whether one of the rows that may be left passes.
    pub(crate) fn any<F: Fn(&M) -> bool, G: Fn(&Row<K>) -> bool>(
        &self,
        passes: F,
        row_passes: G,
    ) -> bool
        requires callable { F.IsAlwaysCallable passes }
        requires row_callable { G.IsAlwaysCallable row_passes }
        requires fits { Fits M.bits self.now }
        ensures { (test : Numbers → Bool) → Tests M.bits (FnReturnsAt F.Fn passes) test → Tests (meant K.mem) (FnReturnsAt G.Fn row_passes) test → result ≡ list_any test (standing M.bits K.mem self.now self.now.count) }
    {
        self.behind.iter().any(&row_passes) || self.masks[..self.count].iter().any(&passes)
    }

    // Sees to it that the planes are those of the masks that may be left: by those that have dropped out since, or by those left, whichever are
    // fewer.
    pub(crate) fn tally(&mut self)
        requires { Fits M.bits self.old }
        ensures fits { Fits M.bits self.new }
        ensures tallied { self.new.tallied ≡ Some self.new.count }
        ensures same { Unmoved self.old self.new }
    {
        if let Some(tallied) = self.tallied {
            if tallied == self.count {
                return;
            }
            if tallied - self.count < self.count {
                let dropped = &mut self.masks[self.count..tallied];
                take_away(&mut self.planes[..], dropped);
                self.tallied = Some(self.count);
                return;
            }
        }
        let masks = &mut self.masks[..self.count];
        tally(&mut self.planes[..], masks);
        self.tallied = Some(self.count);
    }

    pub(crate) fn planes(&self) -> &[M]
        ensures { result.now ≡ self.now.planes.now }
    {
        self.planes
    }

    // Remembers, for a split, the rows that may be left before it.
    pub(crate) fn keep(&mut self, split: usize)
        requires { split < 256 }
        ensures fits { Fits M.bits self.old → Fits M.bits self.new }
        ensures kept { self.new ≡ kept self.old split }
    {
        self.counts[split] = self.count;
    }

    // Back to the rows that could be left before the split.
    pub(crate) fn go_back(&mut self, split: usize)
        requires { split < 256 }
        ensures fits { Fits M.bits self.old → Fits M.bits self.new }
        ensures back { GoneBack self.old self.new split }
    {
        let count = self.counts[split];
        self.count = count;
        self.tallied = self.tallied.filter(|tallied| *tallied >= count);
    }
}

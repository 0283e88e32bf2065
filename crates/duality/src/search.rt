// A search for the states that two tables miss, which can go on after it has shown one.
use crate::choice::choose;
use crate::left::Left;
use crate::masks::{all_low, is_in, is_out, mask_of};
use crate::rows::{is_down, is_up};
use crate::splits::Splits;
use crate::tally::PLANES;
use sets::{Marks, Mask, SetKind, WordSet};
use systems::State;
use tables::Row;
use tables::table::MOST_ROWS;

// The memory for masks is as large as the tables need, in four steps: it is made in each call, and a function makes room for all that it names.
const FEWEST_ROWS: usize = 32;

const FEW_ROWS: usize = 256;

const MANY_ROWS: usize = 1024;

// Memory for the masks of two tables, and their planes.
const FEWEST_MASKS: usize = 2 * (PLANES + FEWEST_ROWS);

const FEW_MASKS: usize = 2 * (PLANES + FEW_ROWS);

const MANY_MASKS: usize = 2 * (PLANES + MANY_ROWS);

const MOST_MASKS: usize = 2 * (PLANES + MOST_ROWS);

// The half being tried lies from `low`, where the undecided items are down, to `high`, where they are up.
#[derive(Clone, Copy)]
pub struct Search {
    splits: Splits,
    low: State,
    high: State,
}

// What comes out of a half: all its states are covered, or a state is missed, or it has to be split.
enum Finding {
    Closed,
    Open,
    Missed(State),
}

impl Search {
    ghost use Rattle.std.specs.Prelude.{◌≡◌, ℕ, ◌+◌, ◌*◌, ◌≤◌, not, ◌&&◌, ◌||◌, List, [], ◌++◌, length, map, MatchOption};
    ghost use Rattle.std.specs.List.{list_any};
    ghost use Rattle.sets.specs.Sets.{Numbers, Within, Below};
    ghost use Rattle.systems.specs.States.{up};
    ghost use Rattle.systems.specs.Systems.{Works, Fails, EachRow};
    ghost use Rattle.tables.specs.Memory.{meant};
    ghost use Rattle.duality.specs.Halves.{opened, backed};
    ghost use Rattle.duality.specs.Shares.{Leads, is_within, is_apart, left_paths, left_cuts};
    ghost use Rattle.duality.specs.Remaining.{AllPass, Fits, Sifted, Thinned, Unmoved, standing, left_masks};
    ghost use Rattle.duality.specs.Searches.{Stands, Behind, AllCovered, MissedState, Known, Found, Narrowed, Leaves, Led};

    // A search among the states of n items, of which there are at most 256.
    pub fn new(n: usize) -> Search
        ensures stands { n ≤ 256 → Stands n result }
        ensures fresh { opened result.splits ≡ [] }
    {
        let low = State::new(n);
        Search {
            splits: Splits::new(),
            low,
            high: low.flipped(),
        }
    }

    // The next state that the tables miss, if there is one more.
    pub fn next_missed<K: SetKind>(&mut self, paths: &[Row<K>], cuts: &[Row<K>]) -> Option<State>
        ensures stands { (n : ℕ) → Stands n self.old → Stands n self.new }
        ensures behind { (n : ℕ) → Stands n self.old → Behind n (map (meant K.mem) paths.now) (map (meant K.mem) cuts.now) self.old → Behind n (map (meant K.mem) paths.now) (map (meant K.mem) cuts.now) self.new }
        ensures found { (n : ℕ) → Stands n self.old → MatchOption result (Behind n (map (meant K.mem) paths.now) (map (meant K.mem) cuts.now) self.old → AllCovered n (map (meant K.mem) paths.now) (map (meant K.mem) cuts.now)) (MissedState n (map (meant K.mem) paths.now) (map (meant K.mem) cuts.now)) }
    {
        let low = self.low.count() <= 64
            && self.high.count() <= 64
            && all_low(paths)
            && all_low(cuts);
        let rows = paths.len().max(cuts.len());
        match (low, rows) {
            (true, 0..=FEWEST_ROWS) => self.find_in_words::<K, FEWEST_MASKS>(paths, cuts),
            (true, 0..=FEW_ROWS) => self.find_in_words::<K, FEW_MASKS>(paths, cuts),
            (true, 0..=MANY_ROWS) => self.find_in_words::<K, MANY_MASKS>(paths, cuts),
            (true, _) => self.find_in_words::<K, MOST_MASKS>(paths, cuts),
            (false, 0..=FEWEST_ROWS) => self.find_in_marks::<K, FEWEST_MASKS>(paths, cuts),
            (false, 0..=FEW_ROWS) => self.find_in_marks::<K, FEW_MASKS>(paths, cuts),
            (false, 0..=MANY_ROWS) => self.find_in_marks::<K, MANY_MASKS>(paths, cuts),
            (false, _) => self.find_in_marks::<K, MOST_MASKS>(paths, cuts),
        }
    }

    // The same, with so many masks of one word, where all items lie below 64. (Not inlined, so that its memory is made for it alone.)
    #[inline(never)]
    fn find_in_words<K: SetKind, const MASKS: usize>(
        &mut self,
        paths: &[Row<K>],
        cuts: &[Row<K>],
    ) -> Option<State>
        requires low { self.old.low.count ≤ 64 }
        requires high { self.old.high.count ≤ 64 }
        requires paths { EachRow (map (meant K.mem) paths.now) (Below 64) }
        requires cuts { EachRow (map (meant K.mem) cuts.now) (Below 64) }
        requires room { 26 ≤ MASKS }
        requires most { MASKS ≤ 8218 }
        ensures stands { (n : ℕ) → Stands n self.old → Stands n self.new }
        ensures behind { (n : ℕ) → Stands n self.old → Behind n (map (meant K.mem) paths.now) (map (meant K.mem) cuts.now) self.old → Behind n (map (meant K.mem) paths.now) (map (meant K.mem) cuts.now) self.new }
        ensures found { (n : ℕ) → Stands n self.old → MatchOption result (Behind n (map (meant K.mem) paths.now) (map (meant K.mem) cuts.now) self.old → AllCovered n (map (meant K.mem) paths.now) (map (meant K.mem) cuts.now)) (MissedState n (map (meant K.mem) paths.now) (map (meant K.mem) cuts.now)) }
    {
        self.find(paths, cuts, &mut [WordSet::empty(); MASKS])
    }

    // The same, with so many masks of four words.
    #[inline(never)]
    fn find_in_marks<K: SetKind, const MASKS: usize>(
        &mut self,
        paths: &[Row<K>],
        cuts: &[Row<K>],
    ) -> Option<State>
        requires room { 26 ≤ MASKS }
        requires most { MASKS ≤ 8218 }
        ensures stands { (n : ℕ) → Stands n self.old → Stands n self.new }
        ensures behind { (n : ℕ) → Stands n self.old → Behind n (map (meant K.mem) paths.now) (map (meant K.mem) cuts.now) self.old → Behind n (map (meant K.mem) paths.now) (map (meant K.mem) cuts.now) self.new }
        ensures found { (n : ℕ) → Stands n self.old → MatchOption result (Behind n (map (meant K.mem) paths.now) (map (meant K.mem) cuts.now) self.old → AllCovered n (map (meant K.mem) paths.now) (map (meant K.mem) cuts.now)) (MissedState n (map (meant K.mem) paths.now) (map (meant K.mem) cuts.now)) }
    {
        self.find(paths, cuts, &mut [Marks::none(); MASKS])
    }

    // The same, in memory for masks of a kind that has room for all items. A split that an earlier call opened tells nothing of these rows:
    // its second half is looked at as a whole.
    fn find<M: Mask, K: SetKind>(
        &mut self,
        paths: &[Row<K>],
        cuts: &[Row<K>],
        memory: &mut [M],
    ) -> Option<State>
        requires low { self.old.low.count ≤ M.most }
        requires high { self.old.high.count ≤ M.most }
        requires paths { EachRow (map (meant K.mem) paths.now) (Below M.most) }
        requires cuts { EachRow (map (meant K.mem) cuts.now) (Below M.most) }
        requires room { 26 ≤ length memory.old }
        requires most { length memory.old ≤ 8218 }
        ensures stands { (n : ℕ) → Stands n self.old → Stands n self.new }
        ensures behind { (n : ℕ) → Stands n self.old → Behind n (map (meant K.mem) paths.now) (map (meant K.mem) cuts.now) self.old → Behind n (map (meant K.mem) paths.now) (map (meant K.mem) cuts.now) self.new }
        ensures found { (n : ℕ) → Stands n self.old → MatchOption result (Behind n (map (meant K.mem) paths.now) (map (meant K.mem) cuts.now) self.old → AllCovered n (map (meant K.mem) paths.now) (map (meant K.mem) cuts.now)) (MissedState n (map (meant K.mem) paths.now) (map (meant K.mem) cuts.now)) }
        ensures led { (n d : ℕ) → Stands n self.old → 2 * (13 + length paths.now) ≤ length memory.old → 2 * (13 + length cuts.now) ≤ length memory.old → Led n (map (meant K.mem) paths.now) (map (meant K.mem) cuts.now) d (opened self.old.splits) → Led n (map (meant K.mem) paths.now) (map (meant K.mem) cuts.now) d (opened self.new.splits) }
    {
        let (path_memory, cut_memory) = memory.split_at_mut(memory.len() / 2);
        let mut left_paths = Left::new(path_memory, paths);
        let mut left_cuts = Left::new(cut_memory, cuts);
        let mut earlier = self.splits.count();
        let mut finding = self.look(&mut left_paths, &mut left_cuts);
        'halves: loop {
            match finding {
                Finding::Missed(state) => return Some(state),
                Finding::Closed => {
                    let split = self.back()?;
                    left_paths.go_back(split);
                    left_cuts.go_back(split);
                    if split < earlier {
                        earlier = split + 1;
                        finding = self.look(&mut left_paths, &mut left_cuts);
                    } else {
                        finding = self.look_down(&mut left_paths, &left_cuts);
                    }
                }
                Finding::Open => {
                    let item = self.choose(&mut left_paths, &mut left_cuts)?;
                    let split = self.splits.count();
                    self.splits.push(item)?;
                    left_paths.keep(split);
                    left_cuts.keep(split);
                    self.low.set(item, true);
                    finding = self.look_up(&left_paths, &mut left_cuts);
                }
            }
        }
    }

    // What comes out of the half, by all rows that may be left. Those drop that are left in no state of it.
    fn look<M: Mask, K: SetKind>(
        &self,
        paths: &mut Left<'_, M, K>,
        cuts: &mut Left<'_, M, K>,
    ) -> Finding
        requires low { self.now.low.count ≤ M.most }
        requires high { self.now.high.count ≤ M.most }
        requires paths { Fits M.bits paths.old }
        requires cuts { Fits M.bits cuts.old }
        ensures paths { Fits M.bits paths.new }
        ensures cuts { Fits M.bits cuts.new }
        ensures known { (n : ℕ) (ps cs : List Numbers) → Known M.bits K.mem n ps cs self.now paths.old cuts.old → Known M.bits K.mem n ps cs self.now paths.new cuts.new }
        ensures found { (n : ℕ) (ps cs : List Numbers) → Known M.bits K.mem n ps cs self.now paths.old cuts.old → Found n ps cs self.now result }
        ensures thinned_paths { Thinned M.bits K.mem paths.old paths.new }
        ensures thinned_cuts { Thinned M.bits K.mem cuts.old cuts.new }
        ensures only { Leaves M.bits self.now paths.new cuts.new result }
    {
        if self.is_closed(paths, cuts) {
            Finding::Closed
        } else if !self.sift_paths(paths) {
            Finding::Missed(self.high)
        } else if !self.sift_cuts(cuts) {
            Finding::Missed(self.low)
        } else {
            Finding::Open
        }
    }

    // The same, once an item of a half that was open has gone up: a path may be up now, and cuts drop.
    fn look_up<M: Mask, K: SetKind>(
        &self,
        paths: &Left<'_, M, K>,
        cuts: &mut Left<'_, M, K>,
    ) -> Finding
        requires low { self.now.low.count ≤ M.most }
        requires paths { Fits M.bits paths.now }
        requires cuts { Fits M.bits cuts.old }
        ensures cuts { Fits M.bits cuts.new }
        ensures known { (n : ℕ) (ps cs : List Numbers) → Known M.bits K.mem n ps cs self.now paths.now cuts.old → Known M.bits K.mem n ps cs self.now paths.now cuts.new }
        ensures found { (n : ℕ) (ps cs : List Numbers) → Known M.bits K.mem n ps cs self.now paths.now cuts.old → Works ps (up self.now.high) → (Fails cs (up self.now.high) → ⊥) → Found n ps cs self.now result }
        ensures thinned { Thinned M.bits K.mem cuts.old cuts.new }
        ensures only { AllPass (λ p. is_within p (up self.now.high)) (left_masks M.bits paths.now) → Leaves M.bits self.now paths.now cuts.new result }
    {
        if self.path_is_up(paths) {
            Finding::Closed
        } else if !self.sift_cuts(cuts) {
            Finding::Missed(self.low)
        } else {
            Finding::Open
        }
    }

    // The same, once the item has gone down: a cut may be down now, and paths drop.
    fn look_down<M: Mask, K: SetKind>(
        &self,
        paths: &mut Left<'_, M, K>,
        cuts: &Left<'_, M, K>,
    ) -> Finding
        requires high { self.now.high.count ≤ M.most }
        requires paths { Fits M.bits paths.old }
        requires cuts { Fits M.bits cuts.now }
        ensures paths { Fits M.bits paths.new }
        ensures known { (n : ℕ) (ps cs : List Numbers) → Known M.bits K.mem n ps cs self.now paths.old cuts.now → Known M.bits K.mem n ps cs self.now paths.new cuts.now }
        ensures found { (n : ℕ) (ps cs : List Numbers) → Known M.bits K.mem n ps cs self.now paths.old cuts.now → Fails cs (up self.now.low) → (Works ps (up self.now.low) → ⊥) → Found n ps cs self.now result }
        ensures thinned { Thinned M.bits K.mem paths.old paths.new }
        ensures only { AllPass (λ c. is_apart c (up self.now.low)) (left_masks M.bits cuts.now) → Leaves M.bits self.now paths.new cuts.now result }
    {
        if self.cut_is_down(cuts) {
            Finding::Closed
        } else if !self.sift_paths(paths) {
            Finding::Missed(self.high)
        } else {
            Finding::Open
        }
    }

    // Whether all states of the half are covered: a path is wholly up in it, or a cut wholly down.
    fn is_closed<M: Mask, K: SetKind>(&self, paths: &Left<'_, M, K>, cuts: &Left<'_, M, K>) -> bool
        requires low { self.now.low.count ≤ M.most }
        requires high { self.now.high.count ≤ M.most }
        requires paths { Fits M.bits paths.now }
        requires cuts { Fits M.bits cuts.now }
        ensures { result ≡ (list_any (λ p. is_within p (up self.now.low)) (standing M.bits K.mem paths.now paths.now.count) || list_any (λ c. is_apart c (up self.now.high)) (standing M.bits K.mem cuts.now cuts.now.count)) }
    {
        self.path_is_up(paths) || self.cut_is_down(cuts)
    }

    // Whether a path that may be left is wholly up in the half.
    fn path_is_up<M: Mask, K: SetKind>(&self, paths: &Left<'_, M, K>) -> bool
        requires low { self.now.low.count ≤ M.most }
        requires paths { Fits M.bits paths.now }
        ensures { result ≡ list_any (λ p. is_within p (up self.now.low)) (standing M.bits K.mem paths.now paths.now.count) }
    {
        let low = mask_of::<M>(&self.low);
        paths.any(|row| is_in(row, low), |row| is_up(row, &self.low))
    }

    // Whether a cut that may be left is wholly down in the half.
    fn cut_is_down<M: Mask, K: SetKind>(&self, cuts: &Left<'_, M, K>) -> bool
        requires high { self.now.high.count ≤ M.most }
        requires cuts { Fits M.bits cuts.now }
        ensures { result ≡ list_any (λ c. is_apart c (up self.now.high)) (standing M.bits K.mem cuts.now cuts.now.count) }
    {
        let high = mask_of::<M>(&self.high);
        cuts.any(|row| is_out(row, high), |row| is_down(row, &self.high))
    }

    // Drops the paths that have an item down in the half, and answers whether any is left.
    fn sift_paths<M: Mask, K: SetKind>(&self, paths: &mut Left<'_, M, K>) -> bool
        requires high { self.now.high.count ≤ M.most }
        requires paths { Fits M.bits paths.old }
        ensures sifted { Sifted M.bits K.mem (λ p. is_within p (up self.now.high)) paths.old paths.new }
        ensures left { result ≡ list_any (λ p. is_within p (up self.now.high)) (standing M.bits K.mem paths.old paths.old.count) }
    {
        let high = mask_of::<M>(&self.high);
        paths.sift(|row| is_in(row, high), |row| is_up(row, &self.high))
    }

    // Drops the cuts that have an item up in the half, and answers whether any is left.
    fn sift_cuts<M: Mask, K: SetKind>(&self, cuts: &mut Left<'_, M, K>) -> bool
        requires low { self.now.low.count ≤ M.most }
        requires cuts { Fits M.bits cuts.old }
        ensures sifted { Sifted M.bits K.mem (λ c. is_apart c (up self.now.low)) cuts.old cuts.new }
        ensures left { result ≡ list_any (λ c. is_apart c (up self.now.low)) (standing M.bits K.mem cuts.old cuts.old.count) }
    {
        let low = mask_of::<M>(&self.low);
        cuts.sift(|row| is_out(row, low), |row| is_down(row, &self.low))
    }

    // An undecided item, down in `low` and up in `high`, that stands in the largest share of the paths or of the cuts that are left.
    fn choose<M: Mask, K: SetKind>(
        &self,
        paths: &mut Left<'_, M, K>,
        cuts: &mut Left<'_, M, K>,
    ) -> Option<usize>
        requires low { self.now.low.count ≤ M.most }
        requires high { self.now.high.count ≤ M.most }
        requires paths { Fits M.bits paths.old }
        requires cuts { Fits M.bits cuts.old }
        ensures chosen { MatchOption result (Within (up self.now.high) (up self.now.low)) (Leads (left_masks M.bits paths.old) (left_masks M.bits cuts.old) (λ k. up self.now.high k && not (up self.now.low k))) }
        ensures leads { (n : ℕ) (ps cs first_paths first_cuts : List Numbers) → Known M.bits K.mem n ps cs self.now paths.old cuts.old → Narrowed M.bits self.now paths.old cuts.old → ps ≡ first_paths ++ map (meant K.mem) paths.old.behind.now → cs ≡ first_cuts ++ map (meant K.mem) cuts.old.behind.now → MatchOption result (Within (up self.now.high) (up self.now.low)) (Leads (left_paths first_paths (up self.now.high)) (left_cuts first_cuts (up self.now.low)) (λ k. up self.now.high k && not (up self.now.low k))) }
        ensures paths { Fits M.bits paths.new }
        ensures cuts { Fits M.bits cuts.new }
        ensures same_paths { Unmoved paths.old paths.new }
        ensures same_cuts { Unmoved cuts.old cuts.new }
    {
        let undecided = mask_of::<M>(&self.high).without(mask_of::<M>(&self.low));
        paths.tally();
        cuts.tally();
        choose(
            undecided,
            paths.count,
            paths.planes(),
            cuts.count,
            cuts.planes(),
        )
    }

    // Leaves a closed half: back to the last split that is in its first half, and on to its second. None if no split is.
    fn back(&mut self) -> Option<usize>
        ensures stands { (n : ℕ) → Stands n self.old → Stands n self.new }
        ensures counts { (self.new.low.count ≡ self.old.low.count) × (self.new.high.count ≡ self.old.high.count) }
        ensures back { opened self.new.splits ≡ backed (opened self.old.splits) }
        ensures split { MatchOption result (opened self.new.splits ≡ []) (λ split. length (opened self.new.splits) ≡ split + 1) }
    {
        while let Some(frame) = self.splits.last() {
            self.low.set(frame.item, false);
            if frame.up {
                self.high.set(frame.item, false);
                self.splits.turn_last();
                return Some(self.splits.count() - 1);
            }
            self.high.set(frame.item, true);
            self.splits.pop();
        }
        None
    }
}

// The members of a set, one after another.
ghost use Rattle.std.specs.Prelude.{◌≡◌};
ghost use Rattle.std.specs.Iterator.{YieldsFirst, item_count};
ghost use Rattle.sets.specs.Members.{members_from, members_left};

use crate::kind::SetKind;

// Gives the members from `at` on, in rising order.
#[derive(Drop)]
pub struct Members<'a, K: SetKind> {
    set: &'a K,
    at: usize,
}

impl<'a, K: SetKind> Members<'a, K> {
    // All members of the set.
    pub(crate) fn of(set: &'a K) -> Members<'a, K>
        ensures { members_left K.mem K.top result ≡ members_from (K.mem set.now) 0 K.top }
    {
        Members { set, at: 0 }
    }
}

impl<'a, K: SetKind> Iterator for Members<'a, K> {
    type Item = usize;

    ghost next_gives = { YieldsFirst (members_left K.mem K.top) };

    ghost remaining = { item_count (members_left K.mem K.top) };

    fn next(&mut self) -> Option<usize> {
        let item = self.set.next(self.at)?;
        self.at = item + 1;
        Some(item)
    }
}

// A place of a table's memory.
ghost use Rattle.std.specs.Prelude.{◌≡◌};
ghost use Rattle.sets.specs.Sets.{nothing, Same};

use sets::SetKind;

#[derive(Drop)]
pub struct Row<K: SetKind> {
    pub(crate) set: K,
}

impl<K: SetKind> Row<K> {
    // A free place: the empty set.
    pub fn empty() -> Row<K>
        ensures { Same (K.mem result.set) nothing }
    {
        Row { set: K::empty() }
    }

    // The set of the row's items.
    pub fn set(&self) -> &K
        ensures { result.now ≡ self.now.set }
    {
        &self.set
    }
}

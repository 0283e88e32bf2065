// The memory that the calls lend: as many places as the program `audit` has.
ghost use Rattle.std.specs.Prelude.{◌≡◌, length};

use sets::SetKind;
use sheets::LabelPlace;
use std::array;
use tables::Row;

pub(crate) const LABEL_PLACES: usize = 256;

pub(crate) const ROW_PLACES: usize = 1_000;

pub(crate) fn labels() -> [LabelPlace; LABEL_PLACES]
    ensures { length result ≡ 256 }
{
    [LabelPlace { start: 0, len: 0 }; LABEL_PLACES]
}

pub(crate) fn rows<K: SetKind>() -> [Row<K>; ROW_PLACES]
    ensures { length result ≡ 1000 }
{
    array::from_fn(|_| Row::empty())
}

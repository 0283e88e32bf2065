// What the bytes of a text decide, as theorems.
ghost use Rattle.sheets.specs.Items.{Determined, ItemsComeBack};
ghost use Rattle.sheets.specs.RowsCalls.{OneReading, RowsComeBack};

use sets::SetKind;

// `determined`: the bytes decide what the first reading call answers, and the labels.
// `comes_back`: items that may stand in one text come back from the text that is written of them.
pub fn items_round_trip()
    ensures determined { Determined }
    ensures comes_back { ItemsComeBack }
{}

// `determined`: the text, the places and the rows of the tables decide what the second reading call answers, and the rows that it leaves.
// `comes_back`: rows that were put come back from the text that is written of them.
pub fn rows_round_trip<K: SetKind>()
    ensures determined { OneReading K.holds }
    ensures comes_back { RowsComeBack K.holds }
{}

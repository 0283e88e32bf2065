// Where the labels of a text stand.
ghost use Rattle.std.specs.Prelude.{◌≡◌, map, MatchOption};
ghost use Rattle.sheets.specs.Labels.{named, Absent, First};

// Where a label stands in a text.
#[derive(Clone, Copy, Debug, PartialEq, Eq)]
pub struct LabelPlace {
    pub start: usize,
    pub len: usize,
}

impl LabelPlace {
    // The label that the place stands for: one that leaves the text stands for the empty label.
    pub fn label<'a>(&self, text: &'a [u8]) -> &'a [u8]
        ensures { result.now ≡ named text.now self.now }
    {
        text.get(self.start..)
            .and_then(|rest| rest.get(..self.len))
            .unwrap_or(&[])
    }
}

// The lowest item whose place stands for the label.
pub(crate) fn find_label(text: &[u8], places: &[LabelPlace], label: &[u8]) -> Option<usize>
    ensures { MatchOption result (Absent (map (named text.now) places.now) label.now) (First (map (named text.now) places.now) label.now) }
{
    places.iter().position(|place| place.label(text) == label)
}

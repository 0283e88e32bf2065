// What the program reads, and what it prints for it.
use crate::explain::{Explained, Sheet};
use sets::SetKind;
use sheets::{LabelPlace, MOST_BYTES};
use std::alloc::{AllocError, Global};
use std::io::{self, Read};
use tables::Row;
use writing::answer_text;

// Bytes that are read: one more than a text may have, so that a longer one is refused.
const MOST_READ: u64 = MOST_BYTES as u64 + 1;

const LABEL_PLACES: usize = 256;

const ROW_PLACES: usize = 1_000;

const OUTPUT: usize = 65_535;

// What goes to standard output; and the sentence for standard error, where it is asked for.
#[derive(Drop)]
pub struct Output {
    pub bytes: Vec<u8>,
    pub sentence: Option<String>,
}

// The text that is there, as far as it is read.
pub fn read<R: Read + Drop>(alloc: Global, input: R) -> io::Result<Vec<u8>> {
    let mut text = vec![in alloc]?;
    input.take(MOST_READ).read_to_end(&mut text)?;
    Ok(text)
}

fn rows<K: SetKind>(alloc: Global) -> Result<Vec<Row<K>>, AllocError> {
    (0..ROW_PLACES).map(|_| Row::empty()).collect(alloc)
}

// All that is printed for the text.
pub fn printed(alloc: Global, text: &[u8], explained: bool) -> io::Result<Output> {
    let nowhere = LabelPlace { start: 0, len: 0 };
    let mut labels = vec![in alloc; nowhere; LABEL_PLACES]?;
    let mut word_paths = rows(alloc)?;
    let mut word_cuts = rows(alloc)?;
    let mut list_paths = rows(alloc)?;
    let mut list_cuts = rows(alloc)?;
    let mut bytes = vec![in alloc; 0u8; OUTPUT]?;
    let answer = answer_text(
        text,
        labels.as_mut_slice(),
        word_paths.as_mut_slice(),
        word_cuts.as_mut_slice(),
        list_paths.as_mut_slice(),
        list_cuts.as_mut_slice(),
        bytes.as_mut_slice(),
    )
    .map_err(|_| io::Error::from(io::ErrorKind::Other))?;
    bytes.truncate(answer.len);
    let labels = labels.as_slice();
    let found = answer.found;
    let sentence = if explained {
        let sheet = Sheet { text, labels };
        Some(format!(in alloc; "{}", Explained { sheet, found })?)
    } else {
        None
    };
    Ok(Output { bytes, sentence })
}

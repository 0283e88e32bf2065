// Output memory that is lent, written on from its front.
ghost use Rattle.std.specs.Prelude.{◌≡◌, ◌+◌, ◌<◌, ◌^◌, length};
ghost use Rattle.writing.specs.Pages.{Wrote};

// The memory, and how many bytes are put on it. What has no place in the memory is counted all the same, so an empty page measures.
#[derive(Drop)]
pub(crate) struct Page<'a> {
    memory: &'a mut [u8],
    len: usize,
}

impl<'a> Page<'a> {
    // A page with nothing on it.
    pub(crate) fn new(memory: &'a mut [u8]) -> Page<'a>
        ensures lent { result.memory.ghost_name ≡ memory.entry.ghost_name }
        ensures memory { result.memory.now ≡ memory.old }
        ensures len { result.len ≡ 0 }
    {
        Page { memory, len: 0 }
    }

    // How many bytes are put on it.
    pub(crate) fn len(&self) -> usize
        ensures { result ≡ self.now.len }
    {
        self.len
    }

    // Puts the bytes behind the others.
    pub(crate) fn put(&mut self, bytes: &[u8])
        requires { self.old.len + length bytes.now < 2 ^ 64 }
        ensures { Wrote self.old self.new bytes.now }
    {
        let end = self.len + bytes.len();
        if end <= self.memory.len() {
            self.memory[self.len..end].copy_from_slice(bytes);
        }
        self.len = end;
    }
}

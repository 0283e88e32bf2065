// Numbers in columns.
ghost use Rattle.std.specs.Prelude.{◌≡◌};
ghost use Rattle.writing.specs.Columns.{shown};

// The number, right-justified in N columns; nines if it is too wide for them.
pub(crate) fn columns<const N: usize>(n: usize) -> [u8; N]
    ensures { result ≡ shown N n }
{
    let mut bytes = [b' '; N];
    let mut left = n;
    for at in (0..N).rev() {
        bytes[at] = b'0' + (left % 10) as u8;
        left /= 10;
        if left == 0 {
            return bytes;
        }
    }
    [b'9'; N]
}

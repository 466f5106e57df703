// What the programs read.
ghost use Rattle.std.specs.Prelude.{◌≤◌, length, IfSome};

// The descriptor of standard input.
const STDIN_FILENO: i32 = 0;

// The most bytes that the file of a program may have.
const MOST: usize = 65536;

// Reads the file on standard input, which has one byte less than the buffer at most. A longer one is refused with 13. A read that fails
// counts as the end of the file.
pub fn read_file(buf: &mut [u8; 65537]) -> Option<&[u8]>
    ensures { IfSome result (λ file. length file.now ≤ 65536) }
{
    let n = io::read_full(STDIN_FILENO, &mut *buf);
    if MOST < n {
        crate::refuse(13, MOST);
        return None;
    }
    Some(&buf[..n])
}

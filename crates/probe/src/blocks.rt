// The input in blocks.
ghost use Rattle.std.specs.Prelude.{◌≤◌, length, IfOk};

use crate::lines::LONGEST;
use std::io;
use std::io::{ErrorKind, Read};

// A block with what was held of a line before it is of so many bytes.
pub(crate) const BLOCK: usize = 131072;

// A reader that waits for a whole block, or the input's end, before it gives a byte of it. So no line is answered before its block
// was read, and who writes a block before it reads the answers does not wait for a reader that waits to write them.
#[derive(Drop)]
pub(crate) struct Blocks<R> {
    from: R,
    // How long the line is that had not ended at the last block's end.
    held: usize,
    // A terminal could be read on after its end.
    ended: bool,
}

impl<R: Read> Blocks<R> {
    pub(crate) fn new(from: R) -> Blocks<R> {
        Blocks {
            from,
            held: 0,
            ended: false,
        }
    }
}

// Reads until the slice is full or the input ends.
fn read_full<R: Read>(from: &mut R, buf: &mut [u8]) -> io::Result<usize>
    ensures { IfOk result (λ n. n ≤ length buf.new) }
{
    let mut n: usize = 0;
    while n < buf.len() {
        match from.read(&mut buf[n..]) {
            Ok(0) => break,
            Ok(more) => n = n + more,
            Err(e) => {
                // After a signal the reader is asked again: what was read is given first.
                if n == 0 || e.kind() != ErrorKind::Interrupted {
                    return Err(e);
                }
                break;
            }
        }
    }
    Ok(n)
}

impl<R: Read> Read for Blocks<R> {
    fn read(&mut self, buf: &mut [u8]) -> io::Result<usize> {
        let most = buf.len().min(BLOCK - self.held.min(LONGEST + 1));
        if self.ended || most == 0 {
            return Ok(0);
        }
        let n = read_full(&mut self.from, &mut buf[..most])?;
        self.ended = n == 0;
        self.held = match buf[..n].iter().rposition(|&byte| byte == b'\n') {
            Some(i) => n - i - 1,
            None => self.held.saturating_add(n),
        };
        Ok(n)
    }
}

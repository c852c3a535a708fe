// The lines of the input.
ghost use Rattle.std.specs.Prelude.{◌≡◌, ◌≢◌, ◌+◌, ◌≤◌, ◌<◌, [], ◌∷◌, ◌++◌, All, IfSome, IsOk, Ok, None, Some, true, false, take, length, slice_index};
ghost use Rattle.std.specs.Io.BufRead.{first_piece, strip_last};
ghost use Rattle.std.specs.Io.{StopsAt};
ghost use Rattle.std.specs.Io.KnownBytes.{Consumes, IsAtEnd, Keeps};

use memchr::memchr;
use std::io;
use std::io::{BufRead, ErrorKind, Read};

// The longest line that may be a request.
pub(crate) const LONGEST: usize = 65536;

// A line without its line feed, which the last may lack.
fn strip(line: &mut Vec<u8>)
    ensures items { line.new.items ≡ strip_last 10 line.old.items }
    ensures gone { StopsAt line.old.items 10 → All (λ byte. byte ≢ 10) line.new.items }
{
    let n = line.len();
    if n == 0 {
        return;
    }
    if line[n - 1] != b'\n' {
        return;
    }
    line.truncate(n - 1);
}

// The length of the first line, if its line feed is here and it is not too long.
fn line_len(bytes: &[u8]) -> Option<usize>
    ensures longest { IfSome result (λ n. n ≤ LONGEST) }
    ensures within { IfSome result (λ n. n < length bytes.now) }
    ensures line_feed { IfSome result (λ n. slice_index bytes.now n ≡ 10) }
    ensures first { IfSome result (λ n. All (λ byte. byte ≢ 10) (take n bytes.now)) }
{
    let near = &bytes[..bytes.len().min(LONGEST + 1)];
    memchr(b'\n', near)
}

// Takes the next line, without its line feed, where the reader holds it whole, and answers whether there is one. At `None`
// nothing is taken: the line goes on, is too long, or a signal came.
fn held_line<R: BufRead>(from: &mut R, line: &mut Vec<u8>) -> io::Result<Option<bool>>
    ensures no_line_feed { IsOk result → All (λ byte. byte ≢ 10) line.new.items }
    ensures longest { result ≡ Ok (Some true) → length line.new.items ≤ LONGEST }
    ensures taken { result ≡ Ok (Some true) → Consumes (R.remaining from.old) (R.remaining from.new) (line.new.items ++ 10 ∷ []) }
    ensures end { result ≡ Ok (Some false) → IsAtEnd (R.remaining from.old) }
    ensures empty { result ≡ Ok None → line.new.items ≡ [] }
    ensures kept { result ≡ Ok None → Keeps (R.remaining from.old) (R.remaining from.new) }
{
    line.clear();
    let held = match from.fill_buf() {
        Ok(held) => held,
        Err(e) if e.kind() == ErrorKind::Interrupted => return Ok(None),
        Err(e) => return Err(e),
    };
    if held.is_empty() {
        return Ok(Some(false));
    }
    let Some(n) = line_len(held) else {
        return Ok(None);
    };
    line.extend_from_slice(&held[..n])?;
    from.consume(n + 1);
    Ok(Some(true))
}

// Reads the next line, without its line feed, and answers whether there is one. Of a line that is too long only as much is
// kept as shows that.
pub(crate) fn next_line<R: BufRead>(from: &mut R, line: &mut Vec<u8>) -> io::Result<bool>
    ensures no_line_feed { IsOk result → All (λ byte. byte ≢ 10) line.new.items }
    ensures cut { result ≡ Ok true → IfSome (R.remaining from.old) (λ bytes.
        line.new.items ≡ first_piece 10 (take (LONGEST + 1) bytes)) }
    ensures end { result ≡ Ok false → IsAtEnd (R.remaining from.old) }
{
    // Most lines are held whole, and are copied at once.
    if let Some(is_there) = held_line(from, line)? {
        return Ok(is_there);
    }
    let most = LONGEST as u64 + 1;
    if (&mut *from).take(most).read_until(b'\n', line)? == 0 {
        return Ok(false);
    }
    strip(line);
    if LONGEST < line.len() {
        from.skip_until(b'\n')?;
    }
    Ok(true)
}

// Reads requests, a line each, and answers them in turn.
use crate::lines::next_line;
use crate::words;
use probe_text::{Answer, ProbeError};
use std::alloc::{AllocError, Global};
use std::io;
use std::io::{BufRead, Write};

// The answer to a line, and a line feed.
fn answer_line(alloc: Global, line: &[u8], answer: &mut Answer) -> Result<(), ProbeError> {
    answer.clear();
    match words::answer_request(alloc, line, answer) {
        Err(ProbeError::Malformed) => {
            answer.clear();
            answer.malformed()?;
        }
        answered => answered?,
    }
    answer.put("\n")
}

// Without memory for an answer the lines before it are answered. A write that fails is passed over.
pub(crate) fn serve<R: BufRead, W: Write>(
    alloc: Global,
    from: &mut R,
    to: &mut W,
) -> io::Result<()> {
    let mut line = Vec::new(alloc);
    let mut answer = Answer::new(alloc);
    // A loop needs an end, and no input has as many lines.
    for _ in 0..u64::MAX {
        if !next_line(from, &mut line)? {
            break;
        }
        // What is malformed is answered too, so only memory can be short here.
        answer_line(alloc, &line, &mut answer).map_err(|_| AllocError)?;
        let _ = to.write_all(answer.as_str().as_bytes());
    }
    Ok(())
}

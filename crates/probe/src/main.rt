// Answers the requests of docs/REQUESTS.md, which it reads from standard input, by the decoder's public functions.
// The program in reference/ prints the same.
#![tactic(auto)]

mod blocks;
mod lines;
mod serve;
mod words;

use blocks::{BLOCK, Blocks};
use std::io;
use std::io::{BufReader, BufWriter, Input, Write};

fn main(rt: HostRuntime) -> io::Result<()> {
    let alloc = rt.alloc();
    let mut from = BufReader::with_capacity(alloc, BLOCK, Blocks::new(rt.reader()))?;
    let mut to = BufWriter::new(alloc, io::writer(&rt))?;
    serve::serve(alloc, &mut from, &mut to)?;
    to.flush()
}

//! Prints the words of standard input, one a line, with a sign at each place where the patterns of a file let them be hyphenated. The
//! argument is that file.
#![tactic(auto)]

use anyhow::{Context, Result};
use seg_hyphens::patterns::HyphenationPatterns;
use std::io::{BufWriter, Read, Write};
use std::{env, fs};

fn main(rt: HostRuntime) -> Result<()> {
    let alloc = rt.alloc();
    let path = env::args(&rt)?
        .nth(1)
        .context("usage: hyphen_points PATTERNS")?;
    let text = fs::read(&rt, path.as_str()).context("reading patterns")?;
    let patterns = HyphenationPatterns::try_from_text(alloc, text.as_slice())?;
    let mut words = String::new(alloc);
    rt.stdin().read_to_string(&mut words)?;
    let mut out = BufWriter::new(alloc, rt.stdout())?;
    let mut points = Vec::new(alloc);
    for word in words.lines() {
        patterns.points(word, &mut points)?;
        print(&mut out, word, points.as_slice())?;
    }
    out.flush()?;
    Ok(())
}

// Prints a word with a sign at each of these places.
fn print<W: Write>(out: &mut W, word: &str, points: &[usize]) -> Result<()> {
    let mut left = points;
    for (place, byte) in word.bytes().enumerate() {
        if let [first, others @ ..] = left
            && *first == place
        {
            out.write_all(b"=")?;
            left = others;
        }
        out.write_all(&[byte])?;
    }
    out.write_all(b"\n")?;
    Ok(())
}

//! Segmenters, and how long they took.

use crate::engine::{Data, Engine};
use crate::making::segmenter_of;
use crate::segmenter::{memo_tally, tally};
use crate::tally::Tally;
use anyhow::Result;
use bench::segmenter::{AnySegmenter, Text};
use std::alloc::Global;
use std::io;
use std::io::Write;
use std::rt::Clock;
use std::time::{Duration, Instant};

/// How often everything is done: the best time counts.
pub const PASSES: usize = 25;

/// An engine with its data, and what was measured of it.
#[derive(Drop)]
pub struct Trial {
    /// The engine.
    pub engine: Engine,
    /// Which data it has.
    pub source: Data,
    /// The segmenter.
    pub segmenter: AnySegmenter,
    /// How long making the segmenter and its data, and letting them go, took at best.
    pub making: Duration,
    /// The boundaries of the text in the last pass.
    pub tally: Tally,
    /// How long a pass took at best.
    pub best: Duration,
}

impl Trial {
    /// The engine with these data. The errors that are met are out of memory, and a clock that can't be read.
    pub fn new<C: Clock>(clock: &C, alloc: Global, engine: Engine, source: Data) -> Result<Trial> {
        let making = making_time(clock, alloc, engine, source)?;
        let segmenter = segmenter_of(alloc, engine, source)?;
        Ok(Trial {
            engine,
            source,
            segmenter,
            making,
            tally: Tally::default(),
            best: Duration::MAX,
        })
    }

    /// Goes over the text once, in UTF-8 a memoised engine with a table of cells that is made anew; in other encodings it has no memo. The
    /// errors that are met are out of memory, and a clock that can't be read.
    pub fn pass<C: Clock>(&mut self, clock: &C, alloc: Global, text: Text<'_>) -> Result<()> {
        let start = Instant::now(clock)?;
        self.tally = match text {
            Text::Utf8(bytes) if self.engine.is_memoised() => {
                memo_tally(alloc, &self.segmenter, bytes)?
            }
            _ => tally(&self.segmenter, text),
        };
        self.best = self.best.min(start.elapsed(clock)?);
        Ok(())
    }

    /// Prints what is the same each time.
    pub fn print_found<O: Write>(&self, out: &mut O) -> io::Result<()> {
        let (engine, source) = (self.engine.word(), self.source.word());
        let Tally { count, sum } = self.tally;
        writeln!(out, "{engine} {source}: {count} boundaries, sum {sum}")
    }

    /// Prints what differs each time, over a text of this length.
    pub fn print_time<E: Write>(&self, len: usize, err: &mut E) -> io::Result<()> {
        let (engine, source) = (self.engine.word(), self.source.word());
        let rate = megabytes_a_second(len, self.best);
        let micros = self.making.as_micros();
        writeln!(
            err,
            "{engine} {source}: {rate} MB/s; made in {micros} microseconds"
        )
    }
}

// How long it takes at best to make a segmenter and its data, and to let them go.
fn making_time<C: Clock>(
    clock: &C,
    alloc: Global,
    engine: Engine,
    source: Data,
) -> Result<Duration> {
    let mut best = Duration::MAX;
    for _ in 0..PASSES {
        let start = Instant::now(clock)?;
        make(alloc, engine, source)?;
        best = best.min(start.elapsed(clock)?);
    }
    Ok(best)
}

// Makes a segmenter and its data, and lets them go.
fn make(alloc: Global, engine: Engine, source: Data) -> Result<()> {
    let _segmenter = segmenter_of(alloc, engine, source)?;
    Ok(())
}

// How many millions of bytes are done in a second, where so many take so long.
fn megabytes_a_second(len: usize, time: Duration) -> u128 {
    len as u128 * 1000 / time.as_nanos().max(1)
}

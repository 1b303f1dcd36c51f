//! Records of numbers, each of which is kept once and has a number, and how each was come to.

use crate::fault::Fault;
use crate::lists::{at, row};
use std::alloc::Global;

/// Records of one width, numbered in the order in which they came.
#[derive(Drop)]
pub(crate) struct Records {
    width: usize,
    most: u16,
    words: Vec<u32>,
    ways: Vec<Option<Way>>,
    // The newest record of each bucket, and of each record the one before it in its bucket.
    newest: Vec<Option<u16>>,
    older: Vec<Option<u16>>,
}

/// How a record was come to: by a symbol, from another record.
#[derive(Clone, Copy)]
pub(crate) struct Way {
    pub(crate) from: u16,
    pub(crate) symbol: u8,
}

const BUCKETS: usize = 1024;

impl Records {
    /// No records yet, of this width, and of at most so many.
    pub(crate) fn new(alloc: Global, width: usize, most: u16) -> Result<Records, Fault> {
        let mut newest = Vec::new(alloc);
        for _ in 0..BUCKETS {
            newest.push(None)?;
        }
        Ok(Records {
            width,
            most,
            words: Vec::new(alloc),
            ways: Vec::new(alloc),
            newest,
            older: Vec::new(alloc),
        })
    }

    /// How many records there are.
    pub(crate) fn len(&self) -> usize {
        self.ways.len()
    }

    /// The record of a number; an empty one if there is none.
    pub(crate) fn get(&self, number: u16) -> &[u32] {
        row(self.words.as_slice(), usize::from(number), self.width)
    }

    /// How a record was come to, if not by itself.
    pub(crate) fn way(&self, number: u16) -> Option<Way> {
        at(self.ways.as_slice(), usize::from(number), None)
    }

    /// The number of a record, which is kept if it is new.
    pub(crate) fn number(&mut self, record: &[u32], way: Option<Way>) -> Result<u16, Fault> {
        let bucket = bucket_of(record);
        match self.find(record, bucket) {
            Some(number) => Ok(number),
            None => self.add(record, bucket, way),
        }
    }

    fn find(&self, record: &[u32], bucket: usize) -> Option<u16> {
        let mut next = at(self.newest.as_slice(), bucket, None);
        for _ in 0..self.older.len() {
            let number = next?;
            if self.get(number) == record {
                return next;
            }
            next = at(self.older.as_slice(), usize::from(number), None);
        }
        None
    }

    fn add(&mut self, record: &[u32], bucket: usize, way: Option<Way>) -> Result<u16, Fault> {
        let number = self.len();
        if number >= usize::from(self.most) || record.len() != self.width {
            return Err(Fault::TooLarge);
        }
        self.words.extend_from_slice(record)?;
        self.ways.push(way)?;
        self.older.push(at(self.newest.as_slice(), bucket, None))?;
        if let Some(newest) = self.newest.get_mut(bucket) {
            *newest = Some(number as u16);
        }
        Ok(number as u16)
    }
}

// The bucket of a record.
fn bucket_of(record: &[u32]) -> usize {
    let mut sum = 0_u32;
    for word in record {
        sum = (sum ^ *word).wrapping_mul(0x9E37_79B1);
        sum ^= sum >> 15;
    }
    sum as usize % BUCKETS
}

//! A row: what is given to a run, and the words of its line.

use crate::long_shelf::LongShelf;
use anyhow::Result;
use arrayvec::ArrayString;
use cs_cli::cogstack;
use cs_shelf::{MemShelf, MemSink, Shelf, Sink};
use std::alloc::{AllocError, Global};
use std::fs;
use std::rt::Files;

/// The number of a call that isn't made.
const NEVER: u64 = u64::MAX;

/// How much of a printed text is shown.
const SHOWN: usize = 120;

/// The outside of a run.
#[derive(Drop)]
struct Given {
    /// What the name `a` holds.
    image: Vec<u8>,
    /// What the name `b` holds; nothing where this is empty.
    other: Vec<u8>,
    /// How many zeros stand behind the image, on a shelf that computes them.
    zeros: u64,
    /// The bytes that the sink takes.
    room: usize,
    /// The call of the shelf that fails, counted from 0.
    read: u64,
    /// The call of the sink that fails, counted from 0.
    write: u64,
}

/// Runs the line of these words over the outside that a row gives, and prints its status, what it wrote and how many
/// calls of the shelf and of the sink failed.
pub fn take(rt: &(impl Files + Print + Alloc<A = Global>), given: &str, words: &str) -> Result<()> {
    let alloc = rt.alloc();
    let given = given_by(rt, given)?;
    let words = words_of(alloc, words)?;
    let mut out = MemSink::new(alloc, given.room, &[given.write])?;
    if given.zeros == 0 {
        let mut shelf = shelf_with(alloc, &given)?;
        let status = cogstack(alloc, words.as_slice(), &mut shelf, &mut out);
        tell(rt, status, shelf.faults(), &out)
    } else {
        let mut shelf = LongShelf {
            front: given.image.as_slice(),
            len: given.zeros.saturating_add(given.image.len() as u64),
            end: 0,
            faults: 0,
            begun: None,
            last: ArrayString::new(),
        };
        let status = cogstack(alloc, words.as_slice(), &mut shelf, &mut out);
        println!(rt; "read to {}", shelf.end)?;
        tell(rt, status, shelf.faults(), &out)
    }
}

fn tell(rt: &impl Print, status: u8, reads: u64, out: &MemSink) -> Result<()> {
    let taken = out.taken();
    if taken.len() > SHOWN {
        println!(rt; "written {}", taken.len())?;
    }
    let shown = &taken[..taken.len().min(SHOWN)];
    let text = str::from_utf8(shown)?;
    let writes = out.faults();
    println!(rt; "{status} {text:?} faults {reads} {writes}")?;
    Ok(())
}

/// Each word of `text` is `file=NAME`, `other=NAME`, `length=BYTES`, `zeros=BYTES`, `room=BYTES`, `read=CALL`,
/// `write=CALL`, or a place in the image and the bytes that stand there, in hexadecimal digits, as `71=01`.
fn given_by(rt: &(impl Files + Alloc<A = Global>), text: &str) -> Result<Given> {
    let alloc = rt.alloc();
    let mut given = Given {
        image: Vec::new(alloc),
        other: Vec::new(alloc),
        zeros: 0,
        room: 99,
        read: NEVER,
        write: NEVER,
    };
    for word in text.split_whitespace() {
        let (key, value) = word.split_once('=').unwrap_or((word, ""));
        match key {
            "file" => given.image = fs::read(rt, value)?,
            "other" => given.other = fs::read(rt, value)?,
            "length" => given.image.truncate(value.parse::<usize>()?),
            "zeros" => given.zeros = value.parse::<u64>()?,
            "room" => given.room = value.parse::<usize>()?,
            "read" => given.read = value.parse::<u64>()?,
            "write" => given.write = value.parse::<u64>()?,
            place => {
                let other = hex::decode(alloc, value)?;
                given.image = damaged(
                    alloc,
                    given.image.as_slice(),
                    place.parse::<usize>()?,
                    other.as_slice(),
                )?;
            }
        }
    }
    Ok(given)
}

/// An image with other bytes from a place on. Those that come to stand behind its end are added to it.
fn damaged(alloc: Global, image: &[u8], place: usize, other: &[u8]) -> Result<Vec<u8>, AllocError> {
    let mut bytes = Vec::new(alloc);
    for byte in image.iter().take(place) {
        bytes.extend_from_slice(&[*byte])?;
    }
    bytes.extend_from_slice(other)?;
    for byte in image.iter().skip(place).skip(other.len()) {
        bytes.extend_from_slice(&[*byte])?;
    }
    Ok(bytes)
}

/// The words of a line. `""` is the word without letters, and `x*3` is `xxx`.
fn words_of(alloc: Global, line: &str) -> Result<Vec<String>> {
    let mut words = Vec::new(alloc);
    for word in line.split_whitespace() {
        let mut letters = String::new(alloc);
        match word.split_once('*') {
            Some((letter, count)) => {
                for _ in 0..count.parse::<u32>()? {
                    letters.push_str(letter)?;
                }
            }
            None if word == "\"\"" => {}
            None => letters.push_str(word)?,
        }
        words.push(letters)?;
    }
    Ok(words)
}

/// A shelf on which the names `a` and `b` hold what a row gives. One of its calls fails.
fn shelf_with(alloc: Global, given: &Given) -> Result<MemShelf, AllocError> {
    let names = vec![in alloc;
        String::from_str(alloc, "a")?,
        String::from_str(alloc, "b")?,
    ]?;
    let room = given.image.len().max(given.other.len());
    let mut shelf = MemShelf::new(alloc, names, room, &[given.read])?;
    shelf.put(0, given.image.as_slice());
    if !given.other.is_empty() {
        shelf.put(1, given.other.as_slice());
    }
    Ok(shelf)
}

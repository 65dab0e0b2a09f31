//! Files as a shelf.

ghost use Rattle.std.specs.Prelude.{◌≡◌, ◌≤◌, [], IfOk, None, false, length, option_map};
ghost use Rattle.cs_shelf.specs.Outside.{next_count, save_fault};

use crate::last_fault::LastFault;
use crate::whole::PIECE;
use crate::{Failed, Shelf};
use arrayvec::ArrayString;
use std::io::{Read, Seek, SeekFrom, Write};
use std::rt::Files;
use std::{fs, io};

/// A shelf whose names are paths of files. It tells nothing of what they hold.
///
/// Each read opens the file anew, so that it depends on the name and the place alone, and asks for at
/// most 64 KiB. A `start` makes the file or empties it, and each `append` writes to it at once, so that a
/// content that isn't finished stands there in part. Each error of the system is a fault, and so is an
/// `append` that wrote nothing of a piece which isn't empty.
#[derive(Drop)]
pub struct FileShelf<'a, R: Files> {
    runtime: &'a R,
    faults: u64,
    last: LastFault,
    /// The file that a content is begun in, where one is, and the name that was started last.
    file: Option<R::File>,
    started: ArrayString<4096>,
}

impl<'a, R: Files> FileShelf<'a, R> {
    /// A shelf that has not failed yet.
    pub fn new(runtime: &'a R) -> FileShelf<'a, R>
        ensures faults { ⟦<FileShelf<'a, R> as Shelf>⟧.fault_count result ≡ 0 }
        ensures last { ⟦<FileShelf<'a, R> as Shelf>⟧.last_fault result ≡ record { name = []; was_read = false } }
        ensures begun { ⟦<FileShelf<'a, R> as Shelf>⟧.begun result ≡ None }
    {
        FileShelf {
            runtime,
            faults: 0,
            last: LastFault::new(),
            file: None,
            started: ArrayString::new(),
        }
    }

    /// Counts a failed call.
    fn count_fault(&mut self)
        ensures after { self.new ≡ record self.old { faults = next_count self.old.faults } }
        ensures never_falls { self.old.faults ≤ self.new.faults }
    {
        self.faults = self.faults.saturating_add(1);
    }

    /// Counts a failed call on what was started last, and gives that up.
    fn give_up(&mut self)
        ensures file { self.new.file ≡ None }
        ensures faults { self.new.faults ≡ next_count self.old.faults }
        ensures never_falls { self.old.faults ≤ self.new.faults }
        ensures last { self.new.last ≡ save_fault self.old.started.bytes }
    {
        self.file = None;
        self.count_fault();
        self.last.set(self.started.as_str(), false);
    }
}

/// Reads the file at a path from the place `at` on.
fn read_file<R: Files>(runtime: &R, path: &str, at: u64, piece: &mut [u8]) -> io::Result<usize>
    ensures { IfOk result (λ n. n ≤ length piece.old) }
{
    let mut file = fs::open(runtime, path)?;
    file.seek(SeekFrom::Start(at))?;
    file.read(piece)
}

impl<R: Files> Shelf for FileShelf<'_, R> {
    ghost use Rattle.std.specs.Prelude.{None, option_map};

    ghost fault_count = { λ s. s.faults };

    ghost last_fault = { λ s. s.last };

    ghost content = { λ _ _. None };

    ghost begun = { λ s. option_map (λ _. s.started.bytes) s.file };

    ghost taken = { λ _. None };

    ghost asked = { λ _. None };

    fn read(&mut self, name: &str, at: u64, buffer: &mut [u8]) -> Result<usize, Failed> {
        let mut piece = [0u8; PIECE];
        let wanted = buffer.len().min(PIECE);
        match read_file(self.runtime, name, at, &mut piece[..wanted]) {
            Ok(n) => {
                buffer[..n].copy_from_slice(&piece[..n]);
                Ok(n)
            }
            Err(_) => {
                self.count_fault();
                self.last.set(name, true);
                Err(Failed)
            }
        }
    }

    fn start(&mut self, name: &str) -> Result<(), Failed> {
        self.started.clear();
        self.started.push_str(name);
        match fs::create(self.runtime, name) {
            Ok(file) => {
                self.file = Some(file);
                Ok(())
            }
            Err(_) => {
                self.give_up();
                Err(Failed)
            }
        }
    }

    fn append(&mut self, bytes: &[u8]) -> Result<usize, Failed> {
        let Some(file) = &mut self.file else {
            unreachable!()
        };
        match file.write(bytes) {
            Ok(n) if n > 0 || bytes.is_empty() => Ok(n),
            _ => {
                self.give_up();
                Err(Failed)
            }
        }
    }

    fn finish(&mut self) -> Result<(), Failed> {
        let Some(file) = &mut self.file else {
            unreachable!()
        };
        match file.flush() {
            Ok(()) => {
                self.file = None;
                Ok(())
            }
            Err(_) => {
                self.give_up();
                Err(Failed)
            }
        }
    }

    fn faults(&self) -> u64 {
        self.faults
    }

    fn last(&self) -> &str {
        self.last.name()
    }

    fn last_read(&self) -> bool {
        self.last.was_read()
    }
}

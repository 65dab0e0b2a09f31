//! Standard output as a sink.

ghost use Rattle.std.specs.Prelude.{◌≡◌, None};

use crate::{Failed, Sink};
use std::io;
use std::io::Write;

/// A sink over standard output. It tells nothing of what it took. Each error of the system is a fault,
/// and so is a write that took nothing of a piece which isn't empty.
#[derive(Drop)]
pub struct OutSink<'a, R: Print> {
    runtime: &'a R,
    faults: u64,
}

impl<'a, R: Print> OutSink<'a, R> {
    /// A sink that has not failed yet.
    pub fn new(runtime: &'a R) -> OutSink<'a, R>
        ensures { ⟦<OutSink<'a, R> as Sink>⟧.fault_count result ≡ 0 }
    {
        OutSink { runtime, faults: 0 }
    }
}

impl<R: Print> Sink for OutSink<'_, R> {
    ghost fault_count = { λ s. s.faults };

    ghost taken = { λ _. None };

    fn write(&mut self, bytes: &[u8]) -> Result<usize, Failed> {
        match io::writer(self.runtime).write(bytes) {
            Ok(n) if n > 0 || bytes.is_empty() => Ok(n),
            _ => {
                self.faults = self.faults.saturating_add(1);
                Err(Failed)
            }
        }
    }

    fn faults(&self) -> u64 {
        self.faults
    }
}

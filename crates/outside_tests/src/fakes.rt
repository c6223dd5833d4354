//! Inputs and outputs that do what a list of calls says.

ghost use Rattle.std.specs.Prelude.{◌≤◌, IfOk};

use std::alloc::Allocator;
use std::cell::Cell;
use std::fmt::Display;
use std::fs::{Metadata, OpenOptions};
use std::io::{self, BufRead, ErrorKind, Lines, Read};
use std::rt::Files;

/// What one call of the system comes to.
#[derive(Clone, Copy)]
pub enum Call {
    /// A signal breaks it off.
    Interrupted,
    /// So many bytes go, or as many as there is room for.
    Moved(usize),
    Failed,
}

// How many bytes go at a call of a list, behind whose end each fails.
fn moved(calls: &[Call], place: usize, most: usize) -> io::Result<usize>
    ensures { IfOk result (λ n. n ≤ most) }
{
    match calls.get(place) {
        Some(Call::Moved(count)) => Ok((*count).min(most)),
        Some(Call::Interrupted) => Err(io::Error::from(ErrorKind::Interrupted)),
        Some(Call::Failed) | None => Err(io::Error::from(ErrorKind::Other)),
    }
}

/// An input of the letter a.
#[derive(Drop)]
pub struct Letters {
    calls: &'static [Call],
    place: usize,
}

impl Read for Letters {
    fn read(&mut self, buf: &mut [u8]) -> io::Result<usize> {
        let place = self.place;
        self.place = place.saturating_add(1);
        let count = moved(self.calls, place, buf.len())?;
        buf[..count].fill(b'a');
        Ok(count)
    }
}

impl BufRead for Letters {
    fn fill_buf(&mut self) -> io::Result<&[u8]> {
        Err(io::Error::from(ErrorKind::Other))
    }

    fn consume(&mut self, _: usize) {}
}

/// The files of a runtime, and a standard input of letters.
#[derive(Drop)]
pub struct LettersIn<'a, R> {
    rt: &'a R,
    calls: &'static [Call],
}

impl<'a, R> LettersIn<'a, R> {
    pub fn new(rt: &'a R, calls: &'static [Call]) -> LettersIn<'a, R> {
        LettersIn { rt, calls }
    }
}

impl<R> Input for LettersIn<'_, R> {
    type Reader = Letters;

    fn read_line<A: Allocator + Clone>(&self, buf: &mut String<A>) -> io::Result<usize> {
        self.reader().read_line(buf)
    }

    fn lines<A: Allocator>(&self, alloc: A) -> Lines<Letters, A> {
        self.reader().lines(alloc)
    }

    fn reader(&self) -> Letters {
        Letters {
            calls: self.calls,
            place: 0,
        }
    }
}

impl<R: Files> Files for LettersIn<'_, R> {
    type File = R::File;

    type Dir = R::Dir;

    fn open_file(&self, how: &OpenOptions, path: &str) -> io::Result<R::File> {
        self.rt.open_file(how, path)
    }

    fn open_dir(&self, path: &str) -> io::Result<R::Dir> {
        self.rt.open_dir(path)
    }

    fn metadata(&self, path: &str) -> io::Result<Metadata> {
        self.rt.metadata(path)
    }

    fn symlink_metadata(&self, path: &str) -> io::Result<Metadata> {
        self.rt.symlink_metadata(path)
    }

    fn copy(&self, from: &str, to: &str) -> io::Result<u64> {
        self.rt.copy(from, to)
    }

    fn rename(&self, from: &str, to: &str) -> io::Result<()> {
        self.rt.rename(from, to)
    }

    fn remove_file(&self, path: &str) -> io::Result<()> {
        self.rt.remove_file(path)
    }

    fn create_dir(&self, path: &str) -> io::Result<()> {
        self.rt.create_dir(path)
    }

    fn remove_dir(&self, path: &str) -> io::Result<()> {
        self.rt.remove_dir(path)
    }

    fn remove_dir_all<B: Allocator>(&self, alloc: B, path: &str) -> io::Result<()> {
        self.rt.remove_dir_all(alloc, path)
    }
}

/// An output that counts what it took.
#[derive(Drop)]
pub struct Counted {
    calls: &'static [Call],
    place: Cell<usize>,
    taken: Cell<usize>,
}

impl Counted {
    pub fn new(calls: &'static [Call]) -> Counted {
        Counted {
            calls,
            place: Cell::new(0),
            taken: Cell::new(0),
        }
    }

    pub fn taken(&self) -> usize {
        self.taken.get()
    }
}

impl Print for Counted {
    fn print<D: Display + Drop>(&self, _: D) -> io::Result<()> {
        Ok(())
    }

    fn println<D: Display + Drop>(&self, _: D) -> io::Result<()> {
        Ok(())
    }

    fn write_all(&self, _: &[u8]) -> io::Result<()> {
        Ok(())
    }

    fn write_some(&self, bytes: &[u8]) -> io::Result<usize> {
        let place = self.place.get();
        self.place.set(place.saturating_add(1));
        let count = moved(self.calls, place, bytes.len())?;
        self.taken.set(self.taken.get().saturating_add(count));
        Ok(count)
    }
}

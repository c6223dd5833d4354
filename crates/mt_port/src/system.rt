//! The calls of the system by which the program reads and writes: a file is opened, the standard input is taken, and bytes
//! come and go. What stands above these makes no other, and is held to what they answer.

ghost use Rattle.std.specs.Prelude.{ℕ, List, Option, Result, ⊤};
ghost use Rattle.std.specs.Io.{ReadsAtMost, WritesAtMost};
ghost use Rattle.std.specs.Io.KnownBytes.{ReadConsumes, WriteAppends};
ghost use Rattle.std.specs.declared.fs.options.OpenOptions.{OpenOptions};
ghost use Rattle.std.specs.declared.io.Error.{Error};

use std::fs::OpenOptions;
use std::io::{self, Read, Write};
use std::rt::Files;

/// Where bytes come from, one call of the system at a time.
pub trait Inlet {
    /// The bytes that it has left, where it tells them.
    ghost left: { Self → Option (List ℕ) };

    /// That a call with a buffer can answer so, and leave the inlet and the buffer so.
    ghost reads: { Self → List ℕ → Result ℕ Error → Self → List ℕ → Type 0 };

    /// Puts the next bytes to the front of `buf`, and answers their count: 0 only at the end, or for an empty `buf`.
    ///
    /// An error has taken none. `ErrorKind::Interrupted` is that of a call which a signal broke off.
    fn read_once(&mut self, buf: &mut [u8]) -> io::Result<usize>
        ensures bound { ReadsAtMost result buf.new }
        ensures bytes { ReadConsumes (left self.old) (left self.new) result buf.new }
        ensures call { reads self.old buf.old result self.new buf.new };
}

impl<R: Read> Inlet for R {
    ghost left = { R.remaining };

    ghost reads = { λ s _ r t buf. ReadsAtMost r buf × ReadConsumes (R.remaining s) (R.remaining t) r buf };

    fn read_once(&mut self, buf: &mut [u8]) -> io::Result<usize> {
        self.read(buf)
    }
}

/// Where bytes go, one call of the system at a time.
pub trait Outlet {
    /// The bytes that it holds, where it tells them.
    ghost holds: { Self → Option (List ℕ) };

    /// That a call with a piece can answer so, and leave the outlet so.
    ghost writes: { Self → List ℕ → Result ℕ Error → Self → Type 0 };

    /// Takes bytes from the front of `piece`, and answers their count.
    ///
    /// An error has taken none. `ErrorKind::Interrupted` is that of a call which a signal broke off.
    fn write_once(&mut self, piece: &[u8]) -> io::Result<usize>
        ensures bound { WritesAtMost result piece.now }
        ensures bytes { WriteAppends (holds self.old) (holds self.new) result piece.now }
        ensures call { writes self.old piece.now result self.new };
}

impl<W: Write> Outlet for W {
    ghost holds = { W.contents };

    ghost writes = { λ s piece r t. WritesAtMost r piece × WriteAppends (W.contents s) (W.contents t) r piece };

    fn write_once(&mut self, piece: &[u8]) -> io::Result<usize> {
        self.write(piece)
    }
}

/// Files by their paths, and the standard input.
pub trait System {
    type File: Inlet + Drop;

    type Input: Inlet + Drop;

    /// That opening a path in such a way can answer so.
    ghost opens: { OpenOptions → List ℕ → Result Self.File Error → Type 0 };

    /// That this is the standard input.
    ghost is_input: { Self.Input → Type 0 };

    /// Opens the file of a path, or tells why it can't be opened so.
    fn open_file(&self, how: &OpenOptions, path: &str) -> io::Result<Self::File>
        ensures call { opens how.now path.now result };

    /// The standard input.
    fn input(&self) -> Self::Input
        ensures call { is_input result };
}

impl<R: Files + Input> System for R {
    type File = R::File;

    type Input = R::Reader;

    ghost opens = { λ _ _ _. ⊤ };

    ghost is_input = { λ _. ⊤ };

    fn open_file(&self, how: &OpenOptions, path: &str) -> io::Result<R::File> {
        Files::open_file(self, how, path)
    }

    fn input(&self) -> R::Reader {
        self.reader()
    }
}

//! The real files and streams behind the traits, a few lines each.

ghost use Rattle.std.specs.Prelude.{[], false, true, codes, bytes_eq, take, ◌≡◌, ◌≢◌, ◌↔◌, ◌||◌, ◌^◌, ◌-◌, ◌<◌, ◌≤◌, IsErr, IfOk, OnErr, OnOk, length, min};
ghost use Rattle.std.specs.Fs.{new_options, with_read};
ghost use Rattle.std.specs.Io.KnownBytes.{Appends, Consumes, IsAtEnd, Keeps};
ghost use Rattle.mt_port.specs.Calls.{ToldOfRead, ToldOfWrite};
ghost use Rattle.mt_port.specs.Memory.{one_more};
ghost use Rattle.mt_port.specs.Outside.{GivesNext, IsInput, IsOpened, ToldOfOpen, left_of, stands_open};
ghost use Rattle.mt_port.specs.Port.{HasCause};
ghost use Rattle.mt_port.specs.declared.outside.Source.TheVariants.{Nothing};

use crate::{Failed, Inlet, Outlet, Shelf, Sink, System};
use std::fs::OpenOptions;
use std::io::{self, ErrorKind, Printer};
use std::marker::Model;

/// How often at most a call is made that signals break off each time.
pub const TRIES: u32 = 65_536;

/// A call that signals break off is made 65,536 times at most.
pub fn limit_is_a_number()
    ensures tries { TRIES ≡ 65536 }
{}

// Reads the next bytes of an inlet to the front of a buffer.
//
// A call that a signal broke off is made again, `TRIES` times in all at most: only then is it a failure.
fn read_next<R: Inlet>(reader: &mut R, buf: &mut [u8]) -> Result<usize, Failed>
    ensures size { length buf.new ≡ length buf.old }
    ensures count { IfOk result (λ n. n ≤ length buf.new) }
    ensures given { IfOk result (λ n. Consumes (R.left reader.old) (R.left reader.new) (take n buf.new)) }
    ensures end { IfOk result (λ n. n ≡ 0 → 0 < length buf.new → IsAtEnd (R.left reader.new)) }
    ensures place { OnErr result (Keeps (R.left reader.old) (R.left reader.new)) }
    ensures answer { ToldOfRead R.reads reader.old buf.old reader.new buf.new result }
{
    let mut broken_off = 0;
    while broken_off < TRIES {
        match reader.read_once(buf) {
            Ok(count) => return Ok(count),
            Err(error) if error.kind() == ErrorKind::Interrupted => broken_off += 1,
            Err(_) => return Err(Failed),
        }
    }
    Err(Failed)
}

// Writes the first bytes of a piece, at least one of a piece that isn't empty.
fn write_next<W: Outlet>(writer: &mut W, piece: &[u8]) -> Result<usize, Failed>
    ensures count { IfOk result (λ n. n ≤ length piece.now) }
    ensures some { IfOk result (λ n. 0 < length piece.now → 0 < n) }
    ensures taken { IfOk result (λ n. Appends (W.holds writer.old) (W.holds writer.new) (take n piece.now)) }
    ensures kept { OnErr result (Keeps (W.holds writer.old) (W.holds writer.new)) }
    ensures answer { ToldOfWrite W.writes piece.now writer.old writer.new result }
{
    let mut broken_off = 0;
    while broken_off < TRIES {
        match writer.write_once(piece) {
            Ok(count) if count > 0 || piece.is_empty() => return Ok(count),
            Err(fault) if fault.kind() == ErrorKind::Interrupted => broken_off += 1,
            _ => return Err(Failed),
        }
    }
    Err(Failed)
}

// The count of faults after a call with this answer.
fn count_after<T>(answer: &Result<T, Failed>, faults: u64) -> u64
    ensures { HasCause faults result answer.now }
{
    if answer.is_err() {
        faults.saturating_add(1)
    } else {
        faults
    }
}

// Opens the file of a path for reading, and for nothing else.
fn open_to_read<R: System>(rt: &R, path: &str) -> io::Result<R::File>
    ensures { R.opens (with_read new_options true) path.now result }
{
    rt.open_file(OpenOptions::new().read(true), path)
}

// What a shelf of real files reads from.
#[derive(Drop)]
enum Source<F, I> {
    Nothing,
    Opened(F),
    Input(I),
}

/// The real files by their paths, and the standard input under the name `-`.
///
/// It tells no content. Contracts see its calls of the system, and what the open file or input has left, where
/// that tells it.
#[derive(Drop)]
pub struct FileShelf<'a, R: System> {
    rt: &'a R,
    source: Source<R::File, R::Input>,
    input_taken: bool,
    openings: u64,
    faults: u64,
}

impl<'a, R: System> Model for FileShelf<'a, R> {
    ghost use Rattle.std.specs.Prelude.{◌<◌, ◌^◌};
    ghost use Rattle.mt_port.specs.Outside.{Reached};

    ghost Value = { Reached R.File R.Input };

    ghost view = { λ s. record { source = s.source; input_taken = s.input_taken; openings = s.openings; faults = s.faults } };

    ghost invariant = { λ s. (s.openings < 2 ^ 64) × (s.faults < 2 ^ 64) };
}

impl<'a, R: System> FileShelf<'a, R> {
    /// A shelf over what the program was given, with nothing open, and no opening and no fault so far.
    pub fn new(rt: &'a R) -> FileShelf<'a, R>
        ensures { result ≡ record { source = Nothing; input_taken = false; openings = 0; faults = 0 } }
    {
        FileShelf {
            rt,
            source: Source::Nothing,
            input_taken: false,
            openings: 0,
            faults: 0,
        }
    }
}

impl<R: System> Shelf for FileShelf<'_, R> {
    ghost faults = { λ s. s.faults };

    ghost openings = { λ s past. s.openings ≡ min (length past) (2 ^ 64 - 1) };

    ghost is_open = { λ s. stands_open s.source };

    ghost tells = { λ s. false };

    ghost files = { λ s. [] };

    ghost left = { λ s. [] };

    ghost steady = { λ s. ⊥ };

    /// Opens the file of this path, or the standard input, which can be opened once.
    fn open(&mut self, name: &str) -> Result<(), Failed>
        ensures opened { OnOk result (stands_open self.new.source ≡ true) }
        ensures closed { OnErr result (stands_open self.new.source ≡ false) }
        ensures opening { self.new.openings ≡ one_more self.old.openings }
        ensures cause { HasCause self.old.faults self.new.faults result }
        ensures in_range { self.new.faults < 2 ^ 64 }

        // The standard input has the name `-`. It opens at first, and never again.
        ensures input { name.now ≡ codes "-" → (IsErr result ↔ (self.old.input_taken ≡ true)) }
        ensures standard { name.now ≡ codes "-" → OnOk result (IsInput R.is_input self.new.source) }
        ensures taken { self.new.input_taken ≡ (self.old.input_taken || bytes_eq name.now (codes "-")) }

        // Of any other name the system opens the file for reading, and what it answers is told.
        ensures file { name.now ≢ codes "-" → IsOpened (R.opens (with_read new_options true) name.now) self.new.source result }
    {
        self.openings = self.openings.saturating_add(1);
        self.source = Source::Nothing;
        if name == "-" {
            if !self.input_taken {
                self.input_taken = true;
                self.source = Source::Input(self.rt.input());
                return Ok(());
            }
        } else if let Ok(file) = open_to_read(self.rt, name) {
            self.source = Source::Opened(file);
            return Ok(());
        }
        self.faults = self.faults.saturating_add(1);
        Err(Failed)
    }

    fn read(&mut self, buf: &mut [u8]) -> Result<usize, Failed>
        requires { stands_open self.old.source ≡ true }
        ensures open { stands_open self.new.source ≡ true }
        ensures count { IfOk result (λ n. n ≤ length buf.old) }
        ensures openings { self.new.openings ≡ self.old.openings }
        ensures cause { HasCause self.old.faults self.new.faults result }
        ensures in_range { self.new.faults < 2 ^ 64 }
        ensures taken { self.new.input_taken ≡ self.old.input_taken }

        // The system is asked for bytes of the open one, and what it answers is told.
        ensures answer { ToldOfOpen R.File.reads R.Input.reads self.old.source buf.old self.new.source buf.new result }

        // Where the open file or input tells what it has left, its next bytes are given, and none only at its end.
        ensures given { IfOk result (GivesNext R.File.left R.Input.left self.old.source self.new.source buf.new) }
        ensures end { IfOk result (λ n. n ≡ 0 → 0 < length buf.old → IsAtEnd (left_of R.File.left R.Input.left self.new.source)) }
        ensures kept { OnErr result (Keeps (left_of R.File.left R.Input.left self.old.source) (left_of R.File.left R.Input.left self.new.source)) }
    {
        let given = match &mut self.source {
            Source::Nothing => unreachable!(),
            Source::Opened(file) => read_next(file, buf),
            Source::Input(input) => read_next(input, buf),
        };
        self.faults = count_after(&given, self.faults);
        given
    }
}

/// The standard output, or what else takes bytes by such calls. It tells no content; contracts see its calls.
#[derive(Drop)]
pub struct StdSink<W> {
    output: W,
    faults: u64,
}

impl<W> Model for StdSink<W> {
    ghost use Rattle.std.specs.Prelude.{◌<◌, ◌^◌};
    ghost use Rattle.mt_port.specs.Outside.{Written};

    ghost Value = { Written W };

    ghost view = { λ s. record { output = s.output; faults = s.faults } };

    ghost invariant = { λ s. s.faults < 2 ^ 64 };
}

impl<'a, R: Print> StdSink<Printer<'a, R>> {
    /// A sink over what the program was given, with no fault so far.
    pub fn new(rt: &'a R) -> StdSink<Printer<'a, R>>
        ensures { result.faults ≡ 0 }
    {
        StdSink {
            output: io::writer(rt),
            faults: 0,
        }
    }
}

impl<W: Outlet> Sink for StdSink<W> {
    ghost faults = { λ s. s.faults };

    ghost tells = { λ s. false };

    ghost bytes = { λ s. [] };

    /// Fails where the system does, and where it takes nothing of a piece that isn't empty.
    fn write(&mut self, piece: &[u8]) -> Result<usize, Failed>
        ensures count { IfOk result (λ n. n ≤ length piece.now) }
        ensures some { IfOk result (λ n. 0 < length piece.now → 0 < n) }
        ensures cause { HasCause self.old.faults self.new.faults result }
        ensures in_range { self.new.faults < 2 ^ 64 }

        // The system is given the piece, and what it answers is told.
        ensures answer { ToldOfWrite W.writes piece.now self.old.output self.new.output result }

        // Where the output tells what it holds, just the bytes that are counted were added.
        ensures taken { IfOk result (λ n. Appends (W.holds self.old.output) (W.holds self.new.output) (take n piece.now)) }
        ensures kept { OnErr result (Keeps (W.holds self.old.output) (W.holds self.new.output)) }
    {
        let taken = write_next(&mut self.output, piece);
        self.faults = count_after(&taken, self.faults);
        taken
    }
}

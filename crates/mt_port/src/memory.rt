//! A shelf and a sink in memory, which fail at chosen calls.

ghost use Rattle.std.specs.Prelude.{◌≡◌, ◌⊎◌, ◌∷◌, ◌++◌, [], None, ◌<◌, ◌≤◌, ◌-◌, ◌^◌, IfOk, IsErr, IsOk, IsSome, IsNone, IfSome, Some, Contains, IsTrue, ◌↔◌, OnOk, OnErr, true, false, position, bytes_eq, string_bytes, drop, take, min, length, ◌+◌};
ghost use Rattle.mt_port.specs.Port.{Gives, HasCause, Opens, file_of};
ghost use Rattle.mt_port.specs.Memory.{AreDistinct, HasOpened, IsFullFor, IsSteady, IsToFail, Shelved, Sunk, bytes_of, gave, left_at, named, new_shelf, not_opened, not_read, not_written, opened, place_of, took};

use crate::{Failed, Shelf, Sink};
use std::alloc::{AllocError, Global};
use std::marker::Model;

/// A sink that keeps its bytes in memory, and fails at chosen calls. Only its making allocates.
#[derive(Drop)]
pub struct MemSink {
    bytes: Vec<u8>,
    room: usize,
    piece: usize,
    fails: Vec<u64>,
    calls: u64,
    faults: u64,
}

impl Model for MemSink {
    ghost use Rattle.std.specs.Prelude.{◌<◌, ◌≤◌, vec_len, vec_capacity};
    ghost use Rattle.mt_port.specs.Memory.{Sunk};

    ghost Value = { Sunk };

    ghost view = { λ s. record { bytes = s.bytes.items; room = s.room; piece = s.piece; fails = s.fails.items; calls = s.calls; faults = s.faults } };

    ghost invariant = { λ s. (0 < s.piece) × (s.room ≤ vec_capacity s.bytes) × (vec_len s.bytes ≤ s.room) };
}

impl MemSink {
    /// A sink with memory for `room` bytes, of which one call takes at most `piece`.
    ///
    /// `fails` has the numbers of the writes that fail, where the first is 1. The number `2^64 - 1`
    /// stands for that write and all later ones.
    pub fn new(
        alloc: Global,
        room: usize,
        piece: usize,
        fails: Vec<u64>,
    ) -> Result<MemSink, AllocError>
        requires { 0 < piece }
        ensures { IfOk result (λ s. s ≡ record { bytes = []; room = room; piece = piece; fails = fails.items; calls = 0; faults = 0 }) }
    {
        Ok(MemSink {
            bytes: Vec::with_capacity(alloc, room)?,
            room,
            piece,
            fails,
            calls: 0,
            faults: 0,
        })
    }

    /// The bytes that were written so far.
    pub fn bytes(&self) -> &[u8]
        ensures { result.now ≡ self.now.bytes }
    {
        &self.bytes
    }
}

impl Sink for MemSink {
    ghost faults = { λ s. s.faults };

    ghost tells = { λ s. true };

    ghost bytes = { λ s. s.bytes };

    /// Fails at the chosen calls, and where a piece that isn't empty finds no room.
    fn write(&mut self, piece: &[u8]) -> Result<usize, Failed>
        ensures count { IfOk result (λ n. n ≤ length piece.now) }
        ensures some { IfOk result (λ n. 0 < length piece.now → 0 < n) }
        ensures taken { IfOk result (λ n. self.new.bytes ≡ self.old.bytes ++ take n piece.now) }
        ensures kept { OnErr result (self.new.bytes ≡ self.old.bytes) }
        ensures cause { HasCause self.old.faults self.new.faults result }
        ensures in_range { self.new.faults < 2 ^ 64 }

        // Exactly when it fails, how much it takes, and all that changes.
        ensures fails { IsErr result ↔ (IsToFail self.old.fails self.old.calls ⊎ IsFullFor self.old piece.now) }
        ensures moved { IfOk result (λ n. n ≡ min (min (length piece.now) self.old.piece) (self.old.room - length self.old.bytes)) }
        ensures ok { IfOk result (λ n. self.new ≡ took self.old (take n piece.now)) }
        ensures err { OnErr result (self.new ≡ not_written self.old) }
    {
        self.calls = self.calls.saturating_add(1);
        if is_to_fail(&self.fails, self.calls) {
            self.faults = self.faults.saturating_add(1);
            return Err(Failed);
        }
        if piece.is_empty() {
            return Ok(0);
        }
        let space = self.room - self.bytes.len();
        if space == 0 {
            self.faults = self.faults.saturating_add(1);
            return Err(Failed);
        }
        let count = piece.len().min(self.piece).min(space);
        match self.bytes.extend_from_slice(&piece[..count]) {
            Ok(()) => Ok(count),
            Err(_) => unreachable!(),
        }
    }
}

// Puts the next bytes of a file from a place on, at most a piece of them, to the front of a buffer.
fn fill(file: &[u8], place: usize, piece: usize, buf: &mut [u8]) -> usize
    requires some { 0 < piece }
    requires within { place ≤ length file.now }
    ensures gives { Gives (drop place file.now) (drop (place + result) file.now) (length buf.old) buf.new result }
    ensures within { place + result ≤ length file.now }
    ensures count { result ≤ length buf.old }
    ensures moved { result ≡ min (min piece (length buf.old)) (length (drop place file.now)) }
{
    let left = &file[place..];
    let count = left.len().min(buf.len()).min(piece);
    buf[..count].copy_from_slice(&left[..count]);
    count
}

// Whether the call of this number is one of those that fail.
fn is_to_fail(fails: &[u64], call: u64) -> bool
    ensures { IsTrue result ↔ Contains fails.now call }
{
    fails.contains(&call)
}

// The place of the first file with a name.
fn position_of(files: &[(String, Vec<u8>)], name: &str) -> Option<usize>
    ensures { result ≡ position (λ f. bytes_eq (string_bytes f.0) name.now) files.now }
{
    files.iter().position(|f| f.0.as_str() == name)
}

// The index of the file of a name.
fn index_of(files: &[(String, Vec<u8>)], name: &str) -> Option<usize>
    ensures found { IfSome result (λ i. file_of (named files.now) name.now ≡ Some (left_at (named files.now) (Some i) 0)) }
    ensures within { IfSome result (λ i. i < length files.now) }
    ensures absent { IsNone result ↔ IsNone (file_of (named files.now) name.now) }
    ensures place { result ≡ place_of (named files.now) name.now }
{
    position_of(files, name)
}

// The bytes of the file at an index.
fn file_at(files: &[(String, Vec<u8>)], index: usize) -> &[u8]
    requires { index < length files.now }
    ensures { result.now ≡ bytes_of (named files.now) index }
{
    &files[index].1
}

/// Files in memory, which fail at chosen calls. No call of it allocates.
#[derive(Drop)]
pub struct MemShelf {
    files: Vec<(String, Vec<u8>)>,
    piece: usize,
    fails: Vec<u64>,
    calls: u64,
    openings: u64,
    asked: Option<usize>,
    faults: u64,
    current: Option<usize>,
    place: usize,
}

impl Model for MemShelf {
    ghost use Rattle.std.specs.Prelude.{◌<◌, ◌≤◌, length, vec_len, is_some};
    ghost use Rattle.std.specs.Option.{ForSome};
    ghost use Rattle.mt_port.specs.Memory.{Shelved, bytes_of, left_at, named};

    ghost Value = { Shelved };

    ghost view = { λ s. record { files = named s.files.items; is_open = is_some s.current; left = left_at (named s.files.items) s.current s.place; piece = s.piece; fails = s.fails.items; calls = s.calls; openings = s.openings; asked = s.asked; faults = s.faults } };

    ghost invariant = { λ s. (0 < s.piece) × ForSome s.current (λ i. (i < vec_len s.files) × (s.place ≤ length (bytes_of (named s.files.items) i))) };
}

impl MemShelf {
    /// A shelf of these files, names with their bytes. One read gives at most `piece` bytes.
    ///
    /// `fails` has the numbers of the calls that fail, where openings and reads count in one row and
    /// the first is 1. The number `2^64 - 1` stands for that call and all later ones.
    pub fn new(files: Vec<(String, Vec<u8>)>, piece: usize, fails: Vec<u64>) -> MemShelf
        requires distinct { AreDistinct (named files.items) }
        requires some { 0 < piece }
        ensures { result ≡ new_shelf (named files.items) piece fails.items }
    {
        MemShelf {
            files,
            piece,
            fails,
            calls: 0,
            openings: 0,
            asked: None,
            faults: 0,
            current: None,
            place: 0,
        }
    }

    /// How often a file was opened, or was to be opened.
    pub fn openings(&self) -> u64
        ensures { result ≡ self.now.openings }
    {
        self.openings
    }

    /// Whether no two of the files have one name, as `new` requires.
    pub fn are_distinct(files: &[(String, Vec<u8>)]) -> bool
        ensures { IsTrue result ↔ AreDistinct (named files.now) }
    {
        for i in 0..files.len() {
            if index_of(&files[i + 1..], files[i].0.as_str()).is_some() {
                return false;
            }
        }
        true
    }
}

impl Shelf for MemShelf {
    ghost faults = { λ s. s.faults };

    ghost openings = { HasOpened };

    ghost is_open = { λ s. s.is_open };

    ghost tells = { λ s. true };

    ghost files = { λ s. s.files };

    ghost left = { λ s. s.left };

    ghost steady = { λ s. IsSteady s.fails s.calls };

    /// Fails at the chosen calls, and where no file has the name.
    fn open(&mut self, name: &str) -> Result<(), Failed>
        ensures opened { OnOk result (self.new.is_open ≡ true) }
        ensures closed { OnErr result (self.new.is_open ≡ false) }
        ensures at_start { OnOk result (file_of self.old.files name.now ≡ Some self.new.left) }
        ensures files { self.new.files ≡ self.old.files }
        ensures opening { Opens (name.now ∷ []) (HasOpened self.old) (HasOpened self.new) }
        ensures cause { HasCause self.old.faults self.new.faults result }
        ensures in_range { self.new.faults < 2 ^ 64 }
        ensures steady { IsSteady self.old.fails self.old.calls → IsSteady self.new.fails self.new.calls }
        ensures never { IsSteady self.old.fails self.old.calls → IsSome (file_of self.old.files name.now) → IsOk result }

        // Exactly when it fails, and all that changes.
        ensures fails { IsErr result ↔ (IsToFail self.old.fails self.old.calls ⊎ IsNone (file_of self.old.files name.now)) }
        ensures ok { OnOk result (self.new ≡ opened self.old name.now self.new.left) }
        ensures err { OnErr result (self.new ≡ not_opened self.old name.now) }
    {
        self.calls = self.calls.saturating_add(1);
        self.openings = self.openings.saturating_add(1);
        self.asked = index_of(&self.files, name);
        self.current = None;
        self.place = 0;
        if is_to_fail(&self.fails, self.calls) {
            self.faults = self.faults.saturating_add(1);
            return Err(Failed);
        }
        match self.asked {
            Some(i) => {
                self.current = Some(i);
                Ok(())
            }
            None => {
                self.faults = self.faults.saturating_add(1);
                Err(Failed)
            }
        }
    }

    /// Fails at the chosen calls alone.
    fn read(&mut self, buf: &mut [u8]) -> Result<usize, Failed>
        requires { self.old.is_open ≡ true }
        ensures open { self.new.is_open ≡ true }
        ensures count { IfOk result (λ n. n ≤ length buf.old) }
        ensures bytes { IfOk result (λ n. Gives self.old.left self.new.left (length buf.old) buf.new n) }
        ensures place { OnErr result (self.new.left ≡ self.old.left) }
        ensures files { self.new.files ≡ self.old.files }
        ensures openings { Opens [] (HasOpened self.old) (HasOpened self.new) }
        ensures cause { HasCause self.old.faults self.new.faults result }
        ensures in_range { self.new.faults < 2 ^ 64 }
        ensures steady { IsSteady self.old.fails self.old.calls → IsSteady self.new.fails self.new.calls }
        ensures never { IsSteady self.old.fails self.old.calls → IsOk result }

        // Exactly when it fails, how much it gives, and all that changes.
        ensures fails { IsErr result ↔ IsToFail self.old.fails self.old.calls }
        ensures moved { IfOk result (λ n. n ≡ min (min self.old.piece (length buf.old)) (length self.old.left)) }
        ensures ok { IfOk result (λ n. self.new ≡ gave self.old n) }
        ensures err { OnErr result (self.new ≡ not_read self.old) }
    {
        self.calls = self.calls.saturating_add(1);
        if is_to_fail(&self.fails, self.calls) {
            self.faults = self.faults.saturating_add(1);
            return Err(Failed);
        }
        let Some(i) = self.current else {
            unreachable!()
        };
        let count = fill(file_at(&self.files, i), self.place, self.piece, buf);
        self.place += count;
        Ok(count)
    }
}

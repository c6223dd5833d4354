//! What the program asks of the outside: a shelf to read from and a sink to write to.

ghost use Rattle.std.specs.Prelude.{◌≡◌, ◌∷◌, ◌++◌, ◌^◌, ◌<◌, ◌≤◌, [], ℕ, List, Bool, true, false, Some, length, take, IsOk, IsSome, IfOk, OnOk, OnErr};
ghost use Rattle.mt_port.specs.Port.{Files, Openings, Opens, file_of, HasCause, Gives};

/// A call of the outside that failed. The cause isn't told; the count of faults shows that there was one.
#[derive(Clone, Copy, Debug, PartialEq, Eq)]
pub struct Failed;

/// Files that are opened by name and read from the front, one at a time.
///
/// A shelf may tell which files it holds. Where it does, the clauses say which bytes each call gives.
pub trait Shelf {
    /// A count that rises where a call fails, and nowhere else, up to `2^64 - 1`.
    ghost faults: { Self → ℕ };

    /// That openings were asked for of just these names, the last one first, as far as the shelf tells that.
    ghost openings: { Self → Openings } = { λ _ _. Unit {0} };

    /// Whether a file is open.
    ghost is_open: { Self → Bool };

    /// Whether it tells its files. Where it doesn't, `files` and `left` mean nothing.
    ghost tells: { Self → Bool };

    /// The files, as names and bytes.
    ghost files: { Self → Files };

    /// The bytes of the open file from the place on.
    ghost left: { Self → List ℕ };

    /// That from here on no read fails, and no opening of a file that is held.
    ghost steady: { Self → Type 0 };

    /// Opens the file of this name at its first byte, and closes what was open before.
    ///
    /// `Failed` leaves nothing open.
    fn open(&mut self, name: &str) -> Result<(), Failed>
        ensures opened { OnOk result (is_open self.new ≡ true) }
        ensures closed { OnErr result (is_open self.new ≡ false) }
        ensures at_start { OnOk result (tells self.old ≡ true → file_of (files self.old) name.now ≡ Some (left self.new)) }

        ensures files { files self.new ≡ files self.old }
        ensures telling { tells self.new ≡ tells self.old }
        ensures opening { Opens (name.now ∷ []) (openings self.old) (openings self.new) }

        ensures cause { HasCause (faults self.old) (faults self.new) result }
        ensures in_range { faults self.new < 2 ^ 64 }
        ensures steady { steady self.old → steady self.new }
        ensures never { steady self.old → tells self.old ≡ true → IsSome (file_of (files self.old) name.now) → IsOk result };

    /// Copies the next bytes of the open file to the front of `buf`, and returns their count: 0 only
    /// at the end of the file, or for an empty `buf`.
    ///
    /// `Failed` leaves the file open where it was. What then stands in `buf` isn't said.
    fn read(&mut self, buf: &mut [u8]) -> Result<usize, Failed>
        requires { is_open self.old ≡ true }
        ensures open { is_open self.new ≡ true }
        ensures count { IfOk result (λ n. n ≤ length buf.old) }
        ensures bytes { IfOk result (λ n. tells self.old ≡ true → Gives (left self.old) (left self.new) (length buf.old) buf.new n) }
        ensures place { OnErr result (tells self.old ≡ true → left self.new ≡ left self.old) }

        ensures files { files self.new ≡ files self.old }
        ensures telling { tells self.new ≡ tells self.old }
        ensures openings { Opens [] (openings self.old) (openings self.new) }

        ensures cause { HasCause (faults self.old) (faults self.new) result }
        ensures in_range { faults self.new < 2 ^ 64 }
        ensures steady { steady self.old → steady self.new }
        ensures never { steady self.old → IsOk result };
}

/// A place where bytes are written, one piece after another.
///
/// A sink may tell which bytes it took. Where it does, the clauses say which bytes each call adds.
pub trait Sink {
    /// A count that rises where a call fails, and nowhere else, up to `2^64 - 1`.
    ghost faults: { Self → ℕ };

    /// Whether it tells its bytes. Where it doesn't, `bytes` means nothing.
    ghost tells: { Self → Bool };

    /// The bytes that were written so far.
    ghost bytes: { Self → List ℕ };

    /// Takes bytes from the front of `piece`, and returns their count: 0 only for an empty `piece`.
    ///
    /// `Failed` leaves the sink as it was.
    fn write(&mut self, piece: &[u8]) -> Result<usize, Failed>
        ensures count { IfOk result (λ n. n ≤ length piece.now) }
        ensures some { IfOk result (λ n. 0 < length piece.now → 0 < n) }
        ensures taken { IfOk result (λ n. tells self.old ≡ true → bytes self.new ≡ bytes self.old ++ take n piece.now) }
        ensures kept { OnErr result (tells self.old ≡ true → bytes self.new ≡ bytes self.old) }

        ensures telling { tells self.new ≡ tells self.old }
        ensures cause { HasCause (faults self.old) (faults self.new) result }
        ensures in_range { faults self.new < 2 ^ 64 };
}

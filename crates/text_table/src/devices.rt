//! How files in memory are read, and how a sink in memory takes what is written. A line has a size, the most bytes of
//! one call, the number of the call that fails, where 0 is none, and a text:
//!
//! - `+`: a name and the bytes of a file, without numbers before them; `=`: there is no file from then on.
//! - `~`: whether no two files have one name, without numbers.
//! - `?`: the file of the name is read whole, where the size is the limit.
//! - `:`: the file of the name is opened and read so many times as the size says, by a buffer of four bytes.
//! - `!`: the text is written whole, where the size is the room of the sink.
//! - `^`: the text is written by four single calls, where the size is the room of the sink.
//!
//! Each line is written again, and two spaces stand before what it asks for.

ghost use Rattle.std.specs.Prelude.{◌≡◌, true};

use crate::telling::{push_part, tell, tell_whether};
use mt_port::{Failed, MemShelf, MemSink, ReadFault, Shelf, Sink, read_all, write_all};
use std::alloc::Global;
use table_case::{Table, copied_files, number_of, push_marked, split_word, text_of};

/// Files in memory, each under its name.
#[derive(Drop)]
pub struct Devices {
    files: Vec<(String, Vec<u8>)>,
}

// What a line says of a device.
#[derive(Clone, Copy)]
struct Device<'a> {
    size: usize,
    piece: usize,
    bad_call: u64,
    text: &'a str,
}

fn device_of(line: &str) -> Option<Device<'_>> {
    let (size, rest) = split_word(line);
    let (piece, rest) = split_word(rest);
    let (bad_call, text) = split_word(rest);
    Some(Device {
        size: number_of(size)?,
        piece: number_of(piece)?,
        bad_call: number_of(bad_call)?,
        text,
    })
}

fn file_of(alloc: Global, line: &str) -> Option<(String, Vec<u8>)> {
    let (name, text) = split_word(line);
    let name = String::from_str(alloc, name).ok()?;
    Some((name, text.as_bytes().to_vec(alloc).ok()?))
}

fn shelf_of(alloc: Global, files: &[(String, Vec<u8>)], device: Device) -> Option<MemShelf> {
    let files = copied_files(alloc, files)?;
    let bad_calls = vec![in alloc; device.bad_call].ok()?;
    if MemShelf::are_distinct(&files) && device.piece > 0 {
        Some(MemShelf::new(files, device.piece, bad_calls))
    } else {
        None
    }
}

fn sink_of(alloc: Global, device: Device) -> Option<MemSink> {
    let bad_calls = vec![in alloc; device.bad_call].ok()?;
    if device.piece > 0 {
        MemSink::new(alloc, device.size, device.piece, bad_calls).ok()
    } else {
        None
    }
}

fn tell_read(alloc: Global, shelf: &mut MemShelf, device: Device, out: &mut Vec<u8>) -> Option<()> {
    if device.size >= 1 << 31 {
        return None;
    }
    match read_all(alloc, shelf, device.text, device.size) {
        Ok(bytes) => tell(alloc, out, format_args!("'{}'", text_of(&bytes)?)),
        Err(ReadFault::Failed) => tell(alloc, out, "failed"),
        Err(ReadFault::TooLong) => tell(alloc, out, "too long"),
        Err(ReadFault::Memory) => None,
    }
}

// Adds what one read of the open file gives.
fn push_read(line: &mut String, shelf: &mut MemShelf) -> Option<()>
    requires { shelf.old.is_open ≡ true }
    ensures open { shelf.new.is_open ≡ true }
{
    let mut buffer = [0u8; 4];
    match shelf.read(&mut buffer) {
        Ok(count) => push_part(line, format_args!("'{}'", text_of(buffer.get(..count)?)?)),
        Err(Failed) => push_part(line, "failed"),
    }
}

// What so many reads of the open file give.
fn reads(alloc: Global, shelf: &mut MemShelf, count: usize) -> Option<String>
    requires { shelf.old.is_open ≡ true }
{
    let mut line = String::new(alloc);
    'reads: for _ in 0..count {
        push_read(&mut line, shelf)?;
    }
    Some(line)
}

fn tell_reads(
    alloc: Global,
    shelf: &mut MemShelf,
    device: Device,
    out: &mut Vec<u8>,
) -> Option<()> {
    match shelf.open(device.text) {
        Ok(()) => tell(alloc, out, reads(alloc, shelf, device.size)?),
        Err(Failed) => tell(alloc, out, "failed"),
    }
}

fn tell_written(alloc: Global, device: Device, out: &mut Vec<u8>) -> Option<()> {
    let mut sink = sink_of(alloc, device)?;
    let word = match write_all(&mut sink, device.text.as_bytes()) {
        Ok(()) => "written",
        Err(Failed) => "failed",
    };
    tell(
        alloc,
        out,
        format_args!("{word}: '{}'", text_of(sink.bytes())?),
    )
}

// Adds what one write of a text says.
fn push_write(line: &mut String, sink: &mut MemSink, text: &str) -> Option<()> {
    match sink.write(text.as_bytes()) {
        Ok(count) => push_part(line, count),
        Err(Failed) => push_part(line, "failed"),
    }
}

fn tell_writes(alloc: Global, device: Device, out: &mut Vec<u8>) -> Option<()> {
    let mut sink = sink_of(alloc, device)?;
    let mut line = String::new(alloc);
    for _ in 0..4 {
        push_write(&mut line, &mut sink, device.text)?;
    }
    tell(
        alloc,
        out,
        format_args!("{line}: '{}'", text_of(sink.bytes())?),
    )
}

impl Devices {
    /// No file.
    pub fn new(alloc: Global) -> Devices {
        Devices {
            files: Vec::new(alloc),
        }
    }

    // Adds what a line with numbers asks for.
    fn answer(&self, alloc: Global, mark: u8, line: &str, out: &mut Vec<u8>) -> Option<()> {
        let device = device_of(line)?;
        match mark {
            b'?' => tell_read(
                alloc,
                &mut shelf_of(alloc, &self.files, device)?,
                device,
                out,
            ),
            b':' => tell_reads(
                alloc,
                &mut shelf_of(alloc, &self.files, device)?,
                device,
                out,
            ),
            b'!' => tell_written(alloc, device, out),
            b'^' => tell_writes(alloc, device, out),
            _ => None,
        }
    }
}

impl Table for Devices {
    fn take(&mut self, alloc: Global, mark: u8, text: &[u8], out: &mut Vec<u8>) -> Option<()> {
        push_marked(out, mark, text)?;
        let line = text_of(text)?;
        match mark {
            b'+' => self.files.push(file_of(alloc, line)?).ok(),
            b'=' => {
                self.files.clear();
                Some(())
            }
            b'~' => tell_whether(alloc, out, MemShelf::are_distinct(&self.files)),
            _ => self.answer(alloc, mark, line, out),
        }
    }
}

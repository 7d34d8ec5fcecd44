// The program `blocks`: it reads `marks.ord`, `ties.rec` and `want.rec`, and prints what a run on their bytes says.
#![tactic(auto)]

ghost use Rattle.std.specs.Prelude.{◌≡◌};
ghost use Rattle.files.specs.Files.{marks_front, ties_front, want_front};
ghost use Rattle.std.specs.Counts.{IsPrefixLen};

use files::{MARKS, TIES, WANT};
use run::TEXT;
use std::fs::File;
use std::io;
use std::io::{Read, Write};

// Reads until the buffer is full, the file ends or a read fails, and says how much stands at the front of the buffer.
fn read_full(file: &mut File, buffer: &mut [u8]) -> usize
    ensures { IsPrefixLen result buffer.new }
{
    let mut done = 0;
    while done < buffer.len() {
        match file.read(&mut buffer[done..]) {
            Ok(count) if count > 0 => done += count,
            _ => break,
        }
    }
    done
}

// Reads a file to the front of a buffer, as much of it as the buffer holds, and says how much. A file that cannot be opened counts as
// empty.
fn read(rt: &HostRuntime, path: &str, buffer: &mut [u8]) -> usize
    ensures { IsPrefixLen result buffer.new }
{
    match File::open(rt, path) {
        Ok(mut file) => read_full(&mut file, buffer),
        Err(_) => 0,
    }
}

// The front of each file, into a buffer of its own type: a buffer that is too short for what a run has to see does not fit.
fn read_marks(rt: &HostRuntime, buffer: &mut [u8; MARKS]) -> usize
    ensures { IsPrefixLen result buffer.new }
{
    read(rt, "marks.ord", buffer)
}

fn read_ties(rt: &HostRuntime, buffer: &mut [u8; TIES]) -> usize
    ensures { IsPrefixLen result buffer.new }
{
    read(rt, "ties.rec", buffer)
}

fn read_want(rt: &HostRuntime, buffer: &mut [u8; WANT]) -> usize
    ensures { IsPrefixLen result buffer.new }
{
    read(rt, "want.rec", buffer)
}

// Prints what a run says.
fn print(rt: &HostRuntime, marks: &[u8], ties: &[u8], want: &[u8]) -> io::Result<()> {
    let mut text = [0u8; TEXT];
    let end = run::run(marks, ties, want, &mut text);
    rt.stdout().write_all(&text[..end])
}

// Prints what a run on the files says. The buffers hold the fronts of the files, on which it says what it says of the whole files (the
// law `run-front`). What no theorem covers, and the tests from outside try, is that the three files are read whole, up to their fronts,
// and that the text is printed once.
fn print_files(rt: &HostRuntime) -> io::Result<()>
    ensures { (MARKS ≡ marks_front) × (TIES ≡ ties_front) × (WANT ≡ want_front) }
{
    let mut marks = [0u8; MARKS];
    let mut ties = [0u8; TIES];
    let mut want = [0u8; WANT];
    let marks_end = read_marks(rt, &mut marks);
    let ties_end = read_ties(rt, &mut ties);
    let want_end = read_want(rt, &mut want);
    print(
        rt,
        &marks[..marks_end],
        &ties[..ties_end],
        &want[..want_end],
    )
}

fn main(rt: HostRuntime) -> io::Result<()> {
    print_files(&rt)
}

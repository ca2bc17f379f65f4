//! The language of cases.
//!
//! A subject is a file of the folder `cases`. Each of its cases begins with a name, in a line `= NAME`; lines that all
//! cases need are above the first one. A line `use NAME` is replaced by the lines of the file NAME of the folder
//! `shared`. Any other line is carried out; its expected result follows it, in lines that begin with two spaces.
//!
//! Files that a line stores are there for all later lines, so if a single case is requested, all lines above it are
//! carried out first. A line is split into words at each space; `words` has the form of a word with spaces, `"-[A b]"`.
//!
//! Files in memory, and limits for the next call or command line only:
//!
//! - an empty line, and one that begins with `#`, have no effect;
//! - `file NAME PART..` stores bytes under a name, and prints their number; `parts` has the forms of PART;
//! - `line NAME TEXT` adds a line of text to the end of a file, and prints the number of its bytes;
//! - `same NAME PART..` prints whether a file has these bytes, or the first difference;
//! - `hold pieces N`: inputs return at most N bytes at a time;
//! - `hold growths N`: N growths are granted; `hold bytes N`: growths of N bytes in all are granted to a command, or to
//!   a call that reads;
//! - `hold opened N`: there is memory to open the first N inputs of a command, in the order of the command line;
//! - `hold out N`, `hold report N`: OUT, or the report, fails after it accepted N bytes; `hold places 0`: OUT accepts
//!   all bytes, and cannot be published;
//! - `hold cut NAME N`: a file has only its first N bytes; `hold read NAME N`: it fails after it returned N bytes;
//! - `each cut NAME`, `each read NAME`, `each out`, `each report`, `each pieces N` carry the next one out at each point
//!   of the device, and print consecutive points with one result in one line;
//! - `each growth` carries it out with 0, 1, .. growths until none is refused, and prints the number of runs with a
//!   refusal for each archive type. A refused run leaves no report and nothing published, and OUT's draft empty or
//!   complete; a command that writes as it reads leaves a beginning there. The first run without a refusal has the same
//!   result as with ample memory. If no run has a refusal, the sweep is `WRONG`: `hold growths 0` shows that a call
//!   uses no memory.
//!
//! Files of the system, in a folder of this run's own:
//!
//! - `lay NAME..` writes files in memory to the folder; `fetch NAME` reads a file of the folder into memory, and prints
//!   the number of its bytes, or that it does not exist;
//! - `link hard NEW OLD` and `link soft NEW OLD` make a link to a file of the folder;
//! - `program WORD..` carries a command line out over files of the system, and prints the report, the lines of standard
//!   error, with `@` for the folder, and the status. A word that begins with `@` names a file of the folder. Of the
//!   limits of `hold`, only `report` has an effect; `unread text` and `unread memory` do the same for words that could
//!   not be read, because one is not UTF-8 text, or because memory ran out.
//!
//! The program over files in memory, whose report is printed after `|`:
//!
//! - `plan WORD..` prints the plan of a command line, or why it is refused; `-` means no words;
//! - `run WORD..` carries a command line out, and prints the report, the length and the SHA-256 of the published bytes
//!   after `OUT`, or of the draft after `draft`, the fault and the status. OUT, or its draft, is stored as a file if it
//!   received bytes.
//!
//! Calls below the commands. The result of a call is printed after `|`, or is `nothing`; its fault is printed in a line
//! of its own, `Truncated at 8`:
//!
//! - `kind NAME`: the kind of a file;
//! - `fat NAME`: a universal file, one line for each slice: `slice 0: 28 bytes SHA256`;
//! - `image NAME`: an image: `UUID ARCH image` (or `dsym`), `text base 0x..` (or `-`), `symtab SYMOFF NSYMS STROFF
//!   STRSIZE` (or `-`), `commands N`, and one line for each section: `section 1 __TEXT,__text from 0x.., SIZE
//!   addresses`;
//! - `check NAME`: a slice, by `Slice::check` and `Slice::admit`: `UUID ARCH SHA256`;
//! - `nearest NAME ADDRESS..`: the nearest symbol by the scan and by the table: `0x.. NAME + OFFSET (SEGMENT,SECTION)
//!   in section 1`, or `0x.. -`; `addresses` has the forms of ADDRESS;
//! - `named NAME PART..`: each symbol with a name, as `nearest` prints it, at its own address;
//! - `front NAME`: an archive's text, read from the start of a file: `2 records, 106 bytes are left`, with `then it
//!   fails` if the reader fails after them;
//! - `whole NAME`, `operations NAME`, `summary NAME`: an archive's text, operations and a summary, read to their ends:
//!   `2 records, 2 entries`, where the entries are those of its summary, `3 operations`, `2 entries`;
//! - `part NAME UUID QUESTION..`, `part NAME UUID ARCH QUESTION..`: an archive's text, read to its end, of which the
//!   records under a UUID, or under a key, are kept: each, as `admit UUID ARCH SHA256` or `retire ..`, then `2
//!   records`, the length and the SHA-256 of their text, and their answers. A limit on memory applies to the reading;
//! - `merge-streams LEFT RIGHT`: two archives, merged as they are read into an output with the limit of OUT: `2
//!   records, 195 bytes`, or `Left: Truncated at 97; 97 bytes written`; and the length and the SHA-256 of the written
//!   bytes;
//! - `pairs IMAGE N SEED`: N random pairs of archives, made from an image, which are merged as they are read and joined
//!   as values: the length and the SHA-256 of all merged texts;
//! - `reading NAME FAILING N`: four pulls of N bytes from a reader of std over a file, whose second call fails: `moved
//!   1` or `failed` for each, and the number of the reader's calls. FAILING is `interrupted`, `other`, `idle` (it moves
//!   no byte) or `never`;
//! - `writing NAME FAILING N`: a file, pushed in pieces of N bytes to a writer of std that fails so, and the bytes in
//!   it afterwards;
//! - `asked NAME`: four pulls of 8 bytes from an input of the cases, a pull of no bytes from another one, and pushes to
//!   an output, of no bytes and of the file: `moved 3` or `failed` for each;
//! - `room N`: the capacity of memory with N growths: the numbers that one vector accepts, and which of three vectors
//!   accept one, before and after one more growth is granted; `room-of-bytes N`: the numbers of 8 bytes that one vector
//!   accepts in memory with N bytes;
//! - `heaps ARCHIVE OTHER OPS`: operations are copied from a memory that has run out, and to one. For two archives,
//!   each in a memory of its own, one joins the other if its own memory has run out, and if the other's has, and adds
//!   the operations; the other adds them if the first one's memory has run out. Then the same with the join by value;
//! - `world SCRIPT N`: `run` of a script's events on N sites: their number, and the length and the SHA-256 of the text
//!   of each site.
//!
//! Calls that may change an archive. The result of each is followed by the length and the SHA-256 of the text of the
//! held archive, for a site also of the saved one, and by the answers to the questions; `questions` has the forms of
//! QUESTION:
//!
//! - `ask ARCHIVE QUESTION..`: only the answers;
//! - `take ARCHIVE OPS QUESTION..`: the operations of a file, added to an archive in order: `admit UUID ARCH SHA256
//!   new` or `retire ..`, where the last word is `new` if the operation changed the archive, `held` if it was there, or
//!   else `covered`; then `2 records`;
//! - `join ARCHIVE OTHER QUESTION..`: an archive before and after it is joined with another: `2 records, all of the
//!   other: no`;
//! - `take-each ARCHIVE OPS QUESTION..`, `absorb ARCHIVE OTHER QUESTION..`: the same, with the operations added
//!   together, `2 new`, and the other archive joined by value;
//! - `site HELD SAVED CALL INPUT QUESTION..`: a call of a site that saved the archive SAVED, and holds HELD in
//!   addition: `new` (an empty site in its place), `take`, `retire` (the slice in INPUT), `full`, `ask`, `reply`,
//!   `deliver`, `save` or `stop`; `-` means no INPUT.
//!
//! A limit on growths applies only to those of the call. If one is refused, the held and saved archives must be as the
//! call promises, and have the answers of an archive that is read from their text; calls that use no memory must
//! succeed; and the repeated call must have the same result as at once.
//!
//! Each call and each command line is carried out on the plain archive and on the indexed one, and must have the same
//! result. One that is not swept is carried out on the first also with inputs in pieces of 1 byte, and on the second in
//! pieces of 7. A report of more than 40 lines is printed as `5000 lines SHA256`. A contradiction is printed as
//! `WRONG`.

use crate::folder::Folder;
use crate::sweeps::{print_growths, print_sweep};
use crate::tasks::Task;
use crate::texts::{TextFault, cut_case};
use crate::verdicts::Step;
use cli_arguments::{Line, LineFault, Plan, parse_command_line};
use heap_memory::NoMemory;
use std::alloc::Global;
use std::mem;
use std::rt::Files;
use test_calls::{Call, Desk, Tried};
use test_parts::{
    CaseFault, FileLimit, Left, Limits, Store, Sweep, bytes_of, first_word, number, print_left,
    print_line_fault, print_room_of_bytes, print_room_of_growths, print_same, words_of,
};

// How often the next case is carried out.
#[derive(Clone, Copy)]
enum Mode<'t> {
    Once,
    Growths,
    Sweep(Sweep<'t>),
}

// Files in memory, and the limits for the next case.
#[derive(Drop)]
struct Bench<'t> {
    alloc: Global,
    store: Store,
    limits: Limits<'t>,
    mode: Mode<'t>,
}

/// Carries out the lines of a subject's text, or those of one of its cases, and returns each with its expected result
/// and its result. The lines above that case are carried out before it, and not returned.
pub fn carry_out<R: Files + AllocGlobal>(
    alloc: Global,
    folder: &Folder<'_, R>,
    text: &str,
    case: Option<&str>,
) -> Result<Vec<Step>, TextFault> {
    let mut bench = Bench {
        alloc,
        store: Store::new(alloc),
        limits: Limits::AMPLE,
        mode: Mode::Once,
    };
    let Some(name) = case else {
        return Ok(bench.carry_out(folder, text)?);
    };
    let (above, case) = cut_case(alloc, text, name)?;
    bench.carry_out(folder, above)?;
    Ok(bench.carry_out(folder, case)?)
}

// Prints the command of a line, the values at each of its names, and its plan.
fn print_line(line: &Line, printed: &mut String) -> Result<(), NoMemory> {
    write!(printed, "  {}", line.name)?;
    for (argument, values) in line.arguments().iter().zip(&line.values) {
        write!(printed, " {} {values:?}", argument.name)?;
    }
    writeln!(printed, "\n  {:?}", Plan::of(line))
}

// Adds a line to the expected result of the last one.
fn add_wanted(alloc: Global, steps: &mut Vec<Step>, line: &str) -> Result<(), NoMemory> {
    match steps.last_mut() {
        Some(step) => writeln!(step.wanted, "{line}"),
        None => {
            let step = Step {
                line: String::new(alloc),
                wanted: format!(in alloc; "{line}\n")?,
                came: String::new(alloc),
            };
            Ok(steps.push(step)?)
        }
    }
}

impl<'t> Bench<'t> {
    // Carries out the lines of a text, and returns each with its expected result and its result.
    fn carry_out<R: Files + AllocGlobal>(
        &mut self,
        folder: &Folder<'_, R>,
        text: &'t str,
    ) -> Result<Vec<Step>, NoMemory> {
        let mut steps = Vec::new(self.alloc);
        for line in text.lines() {
            if line.starts_with("  ") {
                add_wanted(self.alloc, &mut steps, line)?;
            } else {
                steps.push(self.step(folder, line)?)?;
            }
        }
        Ok(steps)
    }

    // Carries out a line. If that fails, the result states why.
    fn step<R: Files + AllocGlobal>(
        &mut self,
        folder: &Folder<'_, R>,
        line: &'t str,
    ) -> Result<Step, NoMemory> {
        let mut came = String::new(self.alloc);
        if let Err(fault) = self.read_line(line, folder, &mut came) {
            writeln!(came, "  WRONG: not carried out, {fault}")?;
        }
        Ok(Step {
            line: String::from_str(self.alloc, line)?,
            wanted: String::new(self.alloc),
            came,
        })
    }

    fn read_line<R: Files + AllocGlobal>(
        &mut self,
        line: &'t str,
        folder: &Folder<'_, R>,
        printed: &mut String,
    ) -> Result<(), CaseFault> {
        if line.is_empty() || line.starts_with('#') || line.starts_with("= ") {
            return Ok(());
        }
        let (verb, words) = line.split_once(' ').unwrap_or((line, ""));
        match verb {
            "file" => self.keep(words, printed),
            "line" => self.keep_line(words, printed),
            "same" => self.compare(words, printed),
            "hold" => self.hold(words),
            "each" => self.sweep(words),
            "lay" => folder.lay(&self.store, words),
            "fetch" => folder.fetch(&mut self.store, words, printed),
            "link" => folder.link(words),
            "program" => self.run_over_files(words, folder, printed),
            "unread" => folder.run_unread(words, printed),
            "room-of-bytes" => Ok(print_room_of_bytes(self.alloc, number(words)?, printed)?),
            "room" => Ok(print_room_of_growths(self.alloc, number(words)?, printed)?),
            "plan" => self.plan(words, printed),
            "run" => self.run(words, printed),
            _ => self.carry(Task::Call(Call::of_verb(verb, words)), None, printed),
        }
    }

    // Stores bytes under a name.
    fn keep(&mut self, words: &str, printed: &mut String) -> Result<(), CaseFault> {
        let (name, parts) = first_word(words);
        let bytes = bytes_of(self.alloc, &self.store, parts)?;
        writeln!(printed, "  {} bytes", bytes.len())?;
        self.store.keep(self.alloc, name, bytes)
    }

    // Adds a line of text to the end of a file, which may be new.
    fn keep_line(&mut self, words: &str, printed: &mut String) -> Result<(), CaseFault> {
        let (name, text) = words.split_once(' ').unwrap_or((words, ""));
        let mut bytes = Vec::new(self.alloc);
        if let Some(before) = self.store.bytes(name) {
            bytes.extend_from_slice(before)?;
        }
        bytes.extend_from_slice(text.as_bytes())?;
        bytes.push(b'\n')?;
        writeln!(printed, "  {} bytes", bytes.len())?;
        self.store.keep(self.alloc, name, bytes)
    }

    // Prints whether a file has these bytes.
    fn compare(&self, words: &str, printed: &mut String) -> Result<(), CaseFault> {
        let (name, parts) = first_word(words);
        let bytes = bytes_of(self.alloc, &self.store, parts)?;
        Ok(print_same(self.store.named(name)?, &bytes, printed)?)
    }

    // Sets a limit of the next case.
    fn hold(&mut self, words: &'t str) -> Result<(), CaseFault> {
        let (what, value) = words.split_once(' ').ok_or(CaseFault::BadLine)?;
        match what {
            "cut" => self.limits.cut = Some(file_limit(value)?),
            "read" => self.limits.read = Some(file_limit(value)?),
            _ => return self.hold_number(what, number(value)?),
        }
        Ok(())
    }

    fn hold_number(&mut self, what: &str, number: u64) -> Result<(), CaseFault> {
        match what {
            "pieces" => self.limits.pieces = number as usize,
            "growths" => self.limits.growths = number,
            "bytes" => self.limits.bytes = number,
            "opened" => self.limits.opened = number,
            "out" => self.limits.out = number as usize,
            "places" => self.limits.places = number > 0,
            "report" => self.limits.report = number as usize,
            _ => return Err(CaseFault::BadLine),
        }
        Ok(())
    }

    // Makes the next case a sweep.
    fn sweep(&mut self, words: &'t str) -> Result<(), CaseFault> {
        let (what, value) = words.split_once(' ').unwrap_or((words, ""));
        self.mode = match what {
            "cut" => Mode::Sweep(Sweep::Cut(value)),
            "read" => Mode::Sweep(Sweep::Read(value)),
            "pieces" => Mode::Sweep(Sweep::Pieces(number(value)? as usize)),
            "out" => Mode::Sweep(Sweep::Out),
            "report" => Mode::Sweep(Sweep::Report),
            "growth" => Mode::Growths,
            _ => return Err(CaseFault::BadLine),
        };
        Ok(())
    }

    // The line for these words, which follow the program's name.
    fn read(&self, words: &str) -> Result<Line, LineFault> {
        let mut all = Vec::new(self.alloc);
        all.push("symarch")?;
        if words != "-" {
            all.extend_from_slice(&words_of(self.alloc, words)?)?;
        }
        parse_command_line(self.alloc, &all)
    }

    // Prints the plan of a command line.
    fn plan(&self, words: &str, printed: &mut String) -> Result<(), CaseFault> {
        match self.read(words) {
            Ok(line) => print_line(&line, printed)?,
            Err(fault) => print_line_fault(&fault, printed)?,
        }
        Ok(())
    }

    // Carries out a command line.
    fn run(&mut self, words: &str, printed: &mut String) -> Result<(), CaseFault> {
        match self.read(words) {
            Ok(line) => self.carry(Task::Run(&line), line.out_path(), printed),
            Err(fault) => Ok(print_line_fault(&fault, printed)?),
        }
    }

    // Carries out a command line over files of the system, whose report may fail.
    fn run_over_files<R: Files + AllocGlobal>(
        &mut self,
        words: &str,
        folder: &Folder<'_, R>,
        printed: &mut String,
    ) -> Result<(), CaseFault> {
        let most = mem::replace(&mut self.limits, Limits::AMPLE).report;
        folder.run(words, most, printed)
    }

    // Carries out a case, stores the bytes in OUT under its name, and resets the limits for the next one.
    fn carry(
        &mut self,
        task: Task,
        out: Option<&str>,
        printed: &mut String,
    ) -> Result<(), CaseFault> {
        let mode = mem::replace(&mut self.mode, Mode::Once);
        let limits = mem::replace(&mut self.limits, Limits::AMPLE);
        let desk = Desk {
            alloc: self.alloc,
            store: &self.store,
            limits,
            tried: Tried::Plain,
        };
        match mode {
            Mode::Growths => print_growths(desk, task, printed),
            Mode::Sweep(sweep) => print_sweep(desk, sweep, task, printed),
            Mode::Once => {
                let left = task.carry_out(desk)?;
                print_left(&left, printed)?;
                print_rest(desk, task, &left, printed)?;
                self.keep_out(out, left.out)
            }
        }
    }

    // Stores OUT under its name, if it received bytes.
    fn keep_out(&mut self, name: Option<&str>, out: Vec<u8>) -> Result<(), CaseFault> {
        match name {
            Some(name) if !out.is_empty() => self.store.keep(self.alloc, name, out),
            _ => Ok(()),
        }
    }
}

// The name and the number of a limit on a file.
fn file_limit(words: &str) -> Result<FileLimit<'_>, CaseFault> {
    let (name, len) = words.split_once(' ').ok_or(CaseFault::BadLine)?;
    let len = number(len)? as usize;
    Ok(FileLimit { name, len })
}

// Prints an error if the other archive type, or inputs in small pieces, have another result.
fn print_rest(desk: Desk, task: Task, left: &Left, printed: &mut String) -> Result<(), CaseFault> {
    for (tried, pieces) in [(Tried::Plain, 1), (Tried::Indexed, 7)] {
        let mut other = Desk { tried, ..desk };
        other.limits.pieces = pieces;
        if task.carry_out(other)? != *left {
            writeln!(
                printed,
                "  WRONG: another end on {tried:?} with inputs in pieces of {pieces}"
            )?;
        }
    }
    Ok(())
}

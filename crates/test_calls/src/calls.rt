//! A call below the commands.

use crate::changes::print_change;
use crate::desk::{Desk, Tried};
use crate::subjects::Change;
use archive_core::Archive;
use archive_exchange::run;
use archive_index::{IndexedArchive, PlainArchive};
use heap_memory::Heap;
use test_parts::{
    CaseFault, End, Ended, Failing, Left, Picked, Texts, addresses_of, bytes_of, first_word,
    number, print_fat, print_front, print_heaps, print_image, print_kind, print_merging,
    print_named, print_nearest, print_operations, print_pairs, print_part, print_reading,
    print_slice, print_strict_devices, print_summary, print_text, print_whole, print_writing,
    text_of,
};
use text_input_files::{Script, read_script};

/// A call below the commands.
#[derive(Clone, Copy)]
pub struct Call<'t> {
    verb: &'t str,
    /// The file that the call reads.
    name: &'t str,
    /// Its arguments, and the questions.
    words: &'t str,
}

impl<'t> Call<'t> {
    /// The call of a verb, for the file that the first word names.
    pub fn of_verb(verb: &'t str, words: &'t str) -> Call<'t> {
        let (name, words) = first_word(words);
        Call { verb, name, words }
    }
}

impl<'a> Desk<'a> {
    /// Makes a call on the archive type that is tried, and returns its outputs.
    pub fn make(self, call: Call<'a>) -> Result<Left, CaseFault> {
        let mut printed = String::new(self.alloc);
        let ended = match self.tried {
            Tried::Plain => self.call::<PlainArchive>(call, &mut printed)?,
            Tried::Indexed => self.call::<IndexedArchive>(call, &mut printed)?,
        };
        Ok(Left {
            end: End::of_call(ended),
            out: Vec::new(self.alloc),
            is_draft: false,
            report: printed.into_bytes(),
        })
    }

    // Makes a call, and prints its result.
    fn call<A: Archive + Drop>(
        self,
        call: Call<'a>,
        printed: &mut String,
    ) -> Result<Ended, CaseFault> {
        let bytes = self.named(call.name)?;
        Ok(match call.verb {
            "kind" => print_kind(bytes, printed),
            "fat" => print_fat(bytes, printed),
            "image" => print_image(bytes, printed),
            "check" => print_slice(self.heap()?, bytes, printed),
            "nearest" => {
                let addresses = addresses_of(self.alloc, call.words)?;
                print_nearest(self.heap()?, bytes, &addresses, printed)
            }
            "named" => {
                let name = bytes_of(self.alloc, self.store, call.words)?;
                print_named(bytes, &name, printed)
            }
            "reading" => {
                let (failing, size) = failing_of(call.words)?;
                print_reading(bytes, failing, size, printed)
            }
            "asked" => print_strict_devices(bytes, printed),
            "writing" => {
                let (failing, size) = failing_of(call.words)?;
                print_writing(bytes, failing, size, printed)
            }
            _ => return self.call_on_source::<A>(call, printed),
        })
    }

    // Makes a call that reads a file piece by piece.
    fn call_on_source<A: Archive + Drop>(
        self,
        call: Call<'a>,
        printed: &mut String,
    ) -> Result<Ended, CaseFault> {
        let mut source = self.source(call.name)?;
        Ok(match call.verb {
            "front" => print_front::<A>(self.heap()?, &mut source, printed),
            "whole" => print_whole::<A>(self.heap()?, &mut source, printed),
            "part" => match Picked::of_words(call.words) {
                Ok((picked, questions)) => {
                    print_part::<A>(self.heap()?, picked, questions, &mut source, printed)
                }
                Err(fault) => return Err(fault),
            },
            "operations" => print_operations(self.heap()?, &mut source, printed),
            "summary" => print_summary(self.heap()?, &mut source, printed),
            "merge-streams" => {
                let mut right = self.source(call.words)?;
                let most = self.limits.out;
                print_merging(&self.heap()?, &mut source, &mut right, most, printed)
            }
            _ => return self.call_on_archives::<A>(call, printed),
        })
    }

    // Makes a call on archives, or on sites.
    fn call_on_archives<A: Archive + Drop>(
        self,
        call: Call<'a>,
        printed: &mut String,
    ) -> Result<Ended, CaseFault> {
        let bytes = self.named(call.name)?;
        Ok(match call.verb {
            "pairs" => {
                let (pairs, seed) = first_word(call.words);
                print_pairs::<A>(bytes, number(pairs)?, number(seed)?, printed)
            }
            "heaps" => print_heaps::<A>(self.texts(call)?, printed),
            "world" => {
                let script = read_script(Heap::new(self.alloc)?, bytes).ok();
                let script = script.ok_or(CaseFault::BadLine)?;
                let sites = call.words.parse::<u32>()?;
                print_world::<A>(self.heap()?, &script, sites, printed)
            }
            _ => print_change::<A>(self.change(call)?, printed),
        })
    }

    // A call on an archive, or on a site; the words are its other arguments.
    fn change(self, call: Call<'a>) -> Result<Change<'a>, CaseFault> {
        let (verb, saved, words) = self.act(call)?;
        let (input, questions) = if saved.is_none() && verb == "ask" {
            ("-", words)
        } else {
            first_word(words)
        };
        Ok(Change {
            alloc: self.alloc,
            verb,
            held: self.named(call.name)?,
            saved,
            input: self.given(input)?,
            growths: self.limits.growths,
            questions,
        })
    }

    // The verb of a call on an archive, or on a site with the text of its saved archive; and the words after these.
    fn act(self, call: Call<'a>) -> Result<(&'a str, Option<&'a [u8]>, &'a str), CaseFault> {
        if call.verb != "site" {
            return Ok((call.verb, None, call.words));
        }
        let (saved, words) = first_word(call.words);
        let (verb, words) = first_word(words);
        Ok((verb, Some(self.given(saved)?), words))
    }

    // Two archives and operations, named by the words.
    fn texts(self, call: Call<'a>) -> Result<Texts<'a>, CaseFault> {
        let (other, operations) = first_word(call.words);
        Ok(Texts {
            alloc: self.alloc,
            one: self.named(call.name)?,
            other: self.given(other)?,
            operations: self.given(operations)?,
        })
    }

    // The argument of a call: the bytes of a file, or nothing.
    fn given(self, name: &str) -> Result<&'a [u8], CaseFault> {
        match name {
            "-" => Ok(&[]),
            _ => self.named(name),
        }
    }

    // The bytes of a file that must exist.
    fn named(self, name: &str) -> Result<&'a [u8], CaseFault> {
        self.bytes(name).ok_or(CaseFault::BadLine)
    }
}

// The failure of a stream, and the number of bytes moved at a time.
fn failing_of(words: &str) -> Result<(Failing, usize), CaseFault> {
    let (failing, size) = first_word(words);
    let failing = Failing::of_word(failing).ok_or(CaseFault::BadLine)?;
    Ok((failing, number(size)? as usize))
}

// Carries out the events of a script on this number of sites, and prints the number of events, and the content of each
// site.
fn print_world<A: Archive + Drop>(
    heap: Heap,
    script: &Script,
    sites: u32,
    printed: &mut String,
) -> Ended {
    let alloc = *printed.allocator();
    let (world, outcomes) = run::<A>(heap, sites, &script.events)?;
    writeln!(printed, "{} events", outcomes.len())?;
    for number in 0..world.sites() {
        write!(printed, "site {number} ")?;
        print_text(&text_of(alloc, world.site(number).archive())?, printed)?;
    }
    Ok(())
}

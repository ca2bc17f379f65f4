//! The commands, each with its name, its help, and its arguments in the order of the words. The definitions for `clap`,
//! which words are paths, and the form in the refusal of a word are all read from this table.

ghost use Rattle.std.specs.Prelude.{◌≡◌, map, option_map};
ghost use Rattle.cli_arguments.specs.Arguments.{form_of, reads, reads_kind, writes};
ghost use Rattle.cli_arguments.specs.TableView.{signature_in};
ghost use Rattle.cli_arguments.specs.LineFaults.{form_words};
ghost use Rattle.cli_arguments.specs.Table.{commands, signature_named};

/// The version of the program. Its first part is the version of the archives that it writes.
pub const VERSION: &str = "2.3.1";

/// The form of a word.
#[derive(Clone, Copy)]
pub enum Form {
    /// Any text, which is its own value.
    Plain,
    Uuid,
    Arch,
    Digest,
    Number,
}

/// The kind of an input, which names it in a refusal.
#[derive(Clone, Copy, PartialEq, Eq)]
pub enum Kind {
    Archive,
    Index,
    File,
    Ops,
    Summary,
    Script,
    Frames,
}

/// The role of an argument in its command.
#[derive(Clone, Copy)]
pub enum Role {
    /// The path of an input.
    Reads(Kind),
    /// The path of OUT.
    Writes,
    /// A value.
    Says(Form),
}

/// The number of words of an argument in a line, and their position.
#[derive(Clone, Copy)]
pub enum Count {
    /// One word, which is required.
    Once,
    /// The last words, at least one.
    Several,
    /// The word after the option with this name, which may be omitted.
    Perhaps(&'static str),
    /// The word after each option with this name, any number of times.
    Often(&'static str),
    /// No word: whether the option with this name is present, at most once.
    Flag(&'static str),
}

/// An argument of a command.
#[derive(Clone, Copy)]
pub struct Argument {
    pub name: &'static str,
    pub help: &'static str,
    pub count: Count,
    pub role: Role,
}

/// A command, with its arguments in the order of the words, and the text after them in its help.
#[derive(Clone, Copy)]
pub struct Signature {
    pub name: &'static str,
    pub about: &'static str,
    pub more: Option<&'static str>,
    pub arguments: &'static [Argument],
}

const ARCHIVE: Argument = Argument {
    name: "ARCHIVE",
    help: "The archive to read",
    count: Count::Once,
    role: Role::Reads(Kind::Archive),
};

const OTHER: Argument = Argument {
    name: "OTHER",
    help: "Also search this archive, as if it were merged with ARCHIVE; may be repeated",
    count: Count::Often("with"),
    role: Role::Reads(Kind::Archive),
};

const TOGETHER: Argument = Argument {
    help: "The archives to search, as if all were merged",
    count: Count::Several,
    ..ARCHIVE
};

const INDEX: Argument = Argument {
    name: "INDEX",
    help: "Use this index instead of reading the whole archive",
    count: Count::Perhaps("index"),
    role: Role::Reads(Kind::Index),
};

const INDEXES: Argument = Argument {
    help: "Use this index instead of reading the whole archive; one for each archive, in their order",
    count: Count::Often("index"),
    ..INDEX
};

const IN: Argument = Argument {
    name: "IN",
    ..ARCHIVE
};

const OUT: Argument = Argument {
    name: "OUT",
    help: "The archive to write; an older one at this path is replaced if nothing in it is lost",
    count: Count::Once,
    role: Role::Writes,
};

const SUMMARY_OUT: Argument = Argument {
    help: "The summary to write; only an empty file or a summary at this path is replaced",
    ..OUT
};

const INDEX_OUT: Argument = Argument {
    help: "The index to write; only an empty file or an index at this path is replaced",
    ..OUT
};

const SLICE_OUT: Argument = Argument {
    help: "The file to write; only an empty file or the same slice at this path is replaced",
    ..OUT
};

const IMAGES: Argument = Argument {
    name: "FILE",
    help: "The Mach-O files to add; in a dSYM bundle, the file in Contents/Resources/DWARF",
    count: Count::Several,
    role: Role::Reads(Kind::File),
};

const ARCHIVES: Argument = Argument {
    help: "The archives to merge with IN",
    role: Role::Reads(Kind::Archive),
    ..IMAGES
};

const OPS: Argument = Argument {
    name: "OPS",
    help: "The operations file to apply",
    role: Role::Reads(Kind::Ops),
    ..ARCHIVE
};

const SUMMARY: Argument = Argument {
    name: "SUMMARY",
    help: "The summary of the site that lacks the records",
    role: Role::Reads(Kind::Summary),
    ..ARCHIVE
};

const SCRIPT: Argument = Argument {
    name: "SCRIPT",
    help: "The script, a line for each event",
    role: Role::Reads(Kind::Script),
    ..ARCHIVE
};

const FRAMES: Argument = Argument {
    name: "FRAMES",
    help: "The file with a line UUID ARCH LOAD ADDRESS for each frame",
    role: Role::Reads(Kind::Frames),
    ..ARCHIVE
};

const SLICE_UUID: Argument = Argument {
    name: "UUID",
    help: "The UUID of the slice",
    count: Count::Once,
    role: Role::Says(Form::Uuid),
};

const SOUGHT_UUID: Argument = Argument {
    help: "The UUID to look for",
    ..SLICE_UUID
};

const IMAGE_UUID: Argument = Argument {
    help: "The UUID of the image",
    ..SLICE_UUID
};

const ARCH: Argument = Argument {
    name: "ARCH",
    help: "The architecture: x86_64, x86_64h, arm64, arm64e or cpu:CCCCCCCC/00SSSSSS",
    count: Count::Once,
    role: Role::Says(Form::Arch),
};

const DIGEST: Argument = Argument {
    name: "DIGEST",
    help: "The SHA-256 of the slice, as find prints it",
    count: Count::Once,
    role: Role::Says(Form::Digest),
};

const WANTED_DIGEST: Argument = Argument {
    help: "The slice with this SHA-256, as find prints it, even if it does not answer",
    count: Count::Perhaps("digest"),
    ..DIGEST
};

const SYMBOL_NAME: Argument = Argument {
    name: "NAME",
    help: "The whole name of a symbol; put -- before a name that starts with -",
    count: Count::Once,
    role: Role::Says(Form::Plain),
};

const LOAD: Argument = Argument {
    name: "HEX",
    help: "The address at which the image was loaded; without it an ADDRESS is one in the file",
    count: Count::Perhaps("load"),
    role: Role::Says(Form::Number),
};

const LINES: Argument = Argument {
    name: "LINES",
    help: "Also print the source lines and inlined frames of each address",
    count: Count::Flag("lines"),
    role: Role::Says(Form::Plain),
};

const SLICES: Argument = Argument {
    name: "SLICES",
    help: "Also print a line for each slice that answers, for programs to read",
    count: Count::Flag("slices"),
    role: Role::Says(Form::Plain),
};

const KEEP_GOING: Argument = Argument {
    name: "KEEP_GOING",
    help: "Omit each FILE that is refused, and print a line for it; the exit status is then 2",
    count: Count::Flag("keep-going"),
    role: Role::Says(Form::Plain),
};

const ADDRESSES: Argument = Argument {
    name: "ADDRESS",
    help: "The addresses to look up",
    count: Count::Several,
    role: Role::Says(Form::Number),
};

/// The help on the lines that `symbolicate` and `frames` print for an address, and on their exit status 1.
const ANSWERS: &str = "Each address gets a line: the address, and its nearest symbol or\n\
    -   no symbol is nearest: the address is in no section, or below its section's first symbol\n\
    ?   the archive has no slice of this UUID and ARCH\n\
    !N  N slices answer, each with a line below\n\
    With --lines a line for each frame follows that of a slice, innermost first: four spaces\n\
    and NAME at PATH:LINE:COLUMN, where ? is an unknown NAME or PATH, and 0 an unknown number.\n\
    With --slices these lines follow all answers: UUID ARCH dsym DIGEST, or with image, for each\n\
    slice that answers under a UUID asked for; UUID ARCH absent for a UUID and ARCH without one.\n\
    With --slices and --index a table that is damaged or has no lines refuses only its UUID and\n\
    ARCH: ! for each address, a last line UUID ARCH refused with the fault, and the exit status 2.\n\
    The exit status is 1 if an answer is not exactly one symbol.\n\
    Numbers are hexadecimal, also without 0x.";

/// The help on the slice that `extract` writes without a digest, and on its exit status 1.
const UNDECIDED: &str =
    "The dSYM of this UUID and ARCH is written, or the image if the archive has no dSYM.\n\
    The exit status is 1 if there is no such slice, or if several answer, which are then\n\
    printed as by find: repeat the command with the --digest of one.";

/// The commands, in the order in which help lists them.
const COMMANDS: &[Signature] = &[
    Signature {
        name: "new",
        about: "Write an empty archive",
        more: None,
        arguments: &[OUT],
    },
    Signature {
        name: "admit",
        about: "Add Mach-O images and dSYMs to an archive",
        more: None,
        arguments: &[IN, OUT, KEEP_GOING, IMAGES],
    },
    Signature {
        name: "retire",
        about: "Withdraw a slice for good, at every site",
        more: None,
        arguments: &[IN, OUT, SLICE_UUID, ARCH, DIGEST],
    },
    Signature {
        name: "merge",
        about: "Merge archives into one",
        more: None,
        arguments: &[IN, OUT, ARCHIVES],
    },
    Signature {
        name: "migrate",
        about: "Rewrite an archive in the current format",
        more: None,
        arguments: &[IN, OUT],
    },
    Signature {
        name: "apply",
        about: "Apply an operations file to an archive",
        more: None,
        arguments: &[IN, OUT, OPS],
    },
    Signature {
        name: "find",
        about: "List the slices and retirements of a UUID",
        more: None,
        arguments: &[ARCHIVE, SOUGHT_UUID, OTHER, INDEXES],
    },
    Signature {
        name: "list",
        about: "List all slices and retirements of an archive",
        more: None,
        arguments: &[ARCHIVE, INDEX],
    },
    Signature {
        name: "extract",
        about: "Write a slice to a file, byte for byte as it was added",
        more: Some(UNDECIDED),
        arguments: &[
            ARCHIVE,
            SLICE_UUID,
            ARCH,
            SLICE_OUT,
            WANTED_DIGEST,
            OTHER,
            INDEXES,
        ],
    },
    Signature {
        name: "name",
        about: "Find symbols by their exact name",
        more: None,
        arguments: &[ARCHIVE, SYMBOL_NAME, OTHER],
    },
    Signature {
        name: "symbolicate",
        about: "Print the symbols nearest to addresses of an image",
        more: Some(ANSWERS),
        arguments: &[
            ARCHIVE, IMAGE_UUID, ARCH, LOAD, LINES, SLICES, OTHER, INDEXES, ADDRESSES,
        ],
    },
    Signature {
        name: "frames",
        about: "Print the symbols nearest to the frames of a crash",
        more: Some(ANSWERS),
        arguments: &[FRAMES, LINES, SLICES, INDEXES, TOGETHER],
    },
    Signature {
        name: "summary",
        about: "Write the summary of an archive, by which a site asks for missing records",
        more: None,
        arguments: &[ARCHIVE, SUMMARY_OUT, INDEX],
    },
    Signature {
        name: "index",
        about: "Write the index of an archive, for lookups by --index",
        more: None,
        arguments: &[ARCHIVE, INDEX_OUT],
    },
    Signature {
        name: "delta",
        about: "Write the archive of the records that a summary lacks",
        more: None,
        arguments: &[ARCHIVE, SUMMARY, OUT],
    },
    Signature {
        name: "rehearse",
        about: "Simulate sites that exchange archives, by a script of events",
        more: None,
        arguments: &[SCRIPT],
    },
];

/// The table of the commands.
pub fn table() -> &'static [Signature]
    ensures { map signature_in result.now ≡ commands }
{
    COMMANDS
}

/// The command with this name, if there is one.
pub fn signature_named(name: &str) -> Option<Signature>
    ensures { option_map signature_in result ≡ signature_named name.now }
{
    'table: for row in table() {
        if name == row.name {
            return Some(*row);
        }
    }
    None
}

/// Whether an argument with this role is the path of an input.
pub fn is_input(role: Role) -> bool
    ensures { result ≡ reads role }
{
    matches!(role, Role::Reads(_))
}

/// Whether an argument with this role is the path of an input of this kind.
pub fn is_input_of(role: Role, kind: Kind) -> bool
    ensures { result ≡ reads_kind kind role }
{
    match role {
        Role::Reads(other) => kind == other,
        Role::Writes | Role::Says(_) => false,
    }
}

/// Whether an argument with this role is the path of OUT.
pub fn is_out(role: Role) -> bool
    ensures { result ≡ writes role }
{
    matches!(role, Role::Writes)
}

/// The form of the words of an argument. A path is any text.
pub fn form_of(role: Role) -> Form
    ensures { result ≡ form_of role }
{
    match role {
        Role::Reads(_) | Role::Writes => Form::Plain,
        Role::Says(form) => form,
    }
}

/// The text of a form.
pub fn form_text(form: Form) -> &'static str
    ensures { result.now ≡ form_words form }
{
    match form {
        Form::Plain => "any text",
        Form::Uuid => "32 hex digits, with or without hyphens",
        Form::Arch => "x86_64, x86_64h, arm64, arm64e or cpu:CCCCCCCC/00SSSSSS",
        Form::Digest => "64 hex digits",
        Form::Number => "1 to 16 hex digits, with or without 0x",
    }
}

//! The commands and their arguments.

use crate::definition::{Argument, Definition};

/// The commands that only read, in the order of the help.
pub(crate) static LOOKS: [Definition; 6] = [
    Definition {
        name: "show",
        about: "Shows the table",
        example: "Examples:\n  gptedit show disk.img --map\n  gptedit show disk.img name=root offset",
        arguments: &[
            IMAGE,
            Argument::MayPlace(
                "N",
                "Shows only this partition: its number, name=TEXT or guid=GUID",
            ),
            Argument::MayPlace(
                "FIELD",
                "Prints only this field of it: number, start, end, size, offset,{n}\
                 size-bytes, type, guid, name or attributes",
            ),
            Argument::Flag("--map", "Also draws the disk as a line of characters"),
            Argument::Flag("--short", "Shows the table in at most 80 columns"),
        ],
        options: READING,
    },
    Definition {
        name: "check",
        about: "Reports what is wrong with the table, and how to mend it",
        example: "Example:\n  gptedit check disk.img",
        arguments: &[IMAGE],
        options: READING,
    },
    Definition {
        name: "free",
        about: "Shows the ranges of free sectors",
        example: "Example:\n  gptedit free disk.img --align 1MiB",
        arguments: &[
            IMAGE,
            Argument::Value(
                "--align",
                "SIZE",
                "Starts each range at a multiple of this size, as 1MiB or 2048s",
            ),
        ],
        options: READING,
    },
    Definition {
        name: "dump",
        about: "Prints the table as a layout for apply",
        example: "Example:\n  gptedit dump disk.img > disk.toml",
        arguments: &[
            IMAGE,
            Argument::Flag("--sfdisk", "Prints a script of sfdisk instead"),
        ],
        options: READING,
    },
    Definition {
        name: "salvage",
        about: "Prints what can be read of a damaged table, as a layout for apply --create",
        example: "Example:\n  gptedit salvage disk.img > disk.toml",
        arguments: &[IMAGE],
        options: READING,
    },
    Definition {
        name: "types",
        about: "Lists the partition types that have names",
        example: "Example:\n  gptedit types",
        arguments: &[],
        options: &[JSON],
    },
];

/// The commands that write, in the order of the help.
pub(crate) static CHANGES: [Definition; 11] = [
    Definition {
        name: "new",
        about: "Writes an empty table and a protective MBR",
        example: "Example:\n  gptedit new disk.img",
        arguments: &[
            IMAGE,
            Argument::Value("--guid", "GUID", "The GUID of the disk [default: random]"),
            Argument::Number(
                "--entries",
                MOST_ENTRIES,
                "The number of entries [default: 128]",
            ),
        ],
        options: WRITING,
    },
    Definition {
        name: "add",
        about: "Adds a partition, or those of a script of sfdisk",
        example: "Examples:\n  gptedit add disk.img --type linux --size 20GiB --name root\n  gptedit add disk.img --script more.sfdisk",
        arguments: &[
            IMAGE,
            Argument::Value("--type", "TYPE", TYPE_HELP),
            Argument::Value(
                "--size",
                "SIZE",
                "Its size, as 64MiB, 2048s or 50%; rest takes the longest free range",
            ),
            NAME,
            GUID,
            ATTRIBUTES,
            Argument::Number(
                "--number",
                u32::MAX as u64,
                "Its number [default: the lowest unused]",
            ),
            Argument::Value(
                "--start",
                "POSITION",
                "Its start, as 1MiB, 2048s, 50% or, from the end, -1GiB",
            ),
            Argument::Value(
                "--end",
                "POSITION",
                "Its end instead of its size: before this byte, or with sector Ns",
            ),
            Argument::Value(
                "--place",
                "first|last|best",
                "Which free range it takes if no start is given [default: first]",
            ),
            Argument::Value(
                "--align",
                "SIZE",
                "Starts it at a multiple of this size [default: 1MiB]",
            ),
            Argument::Value(
                "--script",
                "FILE",
                "Adds a partition for each line of a script of sfdisk instead; - is{n}\
                 standard input",
            ),
            FIT,
        ],
        options: WRITING,
    },
    Definition {
        name: "set",
        about: "Changes the name, type, GUID, attributes or number of a partition, or the GUID of the disk",
        example: "Examples:\n  gptedit set disk.img 2 --name data\n  gptedit set disk.img 2 --attributes +read-only,tries=3",
        arguments: &[
            IMAGE,
            Argument::MayPlace("N", "The partition: its number, name=TEXT or guid=GUID"),
            NAME,
            Argument::Value("--type", "TYPE", TYPE_HELP),
            GUID,
            Argument::Flag("--random-guid", "Sets a random GUID"),
            Argument::Value(
                "--attributes",
                "LIST",
                "Its attributes, as for add; or changes: + or - before each attribute,{n}\
                 priority=0..15, tries=0..15, successful=0..1",
            ),
            Argument::Number(
                "--number",
                u32::MAX as u64,
                "Its new number, which no partition has",
            ),
            Argument::Value(
                "--disk-guid",
                "GUID|random",
                "Sets the GUID of the disk instead; without N",
            ),
            FIT,
        ],
        options: WRITING,
    },
    Definition {
        name: "resize",
        about: "Moves the end of a partition",
        example: "Examples:\n  gptedit resize disk.img 2 40GiB\n  gptedit resize disk.img 2 max",
        arguments: &[
            IMAGE,
            PARTITION,
            Argument::MayPlace(
                "SIZE|max",
                "The new size, as 40GiB or 2048s, or +1GiB; max takes all that is free after it",
            ),
            Argument::Value(
                "--end",
                "POSITION",
                "Its new end instead of its size: before this byte, or with sector Ns",
            ),
            FIT,
        ],
        options: WRITING,
    },
    Definition {
        name: "remove",
        about: "Removes partitions",
        example: "Example:\n  gptedit remove disk.img 3 4",
        arguments: &[
            IMAGE,
            Argument::Places("N", "The partitions: their numbers, name=TEXT or guid=GUID"),
            FIT,
        ],
        options: WRITING,
    },
    Definition {
        name: "sort",
        about: "Numbers the partitions in the order of their starts",
        example: "Example:\n  gptedit sort disk.img --dry-run",
        arguments: &[IMAGE, FIT],
        options: WRITING,
    },
    Definition {
        name: "grow",
        about: "Fits the table to the present length of the disk",
        example: "Example:\n  truncate -s 20G disk.img && gptedit grow disk.img 2",
        arguments: &[
            IMAGE,
            Argument::MayPlace(
                "N",
                "Also extends this partition over all that is free after it",
            ),
            Argument::Flag(
                "--random-guids",
                "Also sets random GUIDs, as randomize does, in the same write",
            ),
        ],
        options: WRITING,
    },
    Definition {
        name: "repair",
        about: "Writes both copies of the table again from the good one",
        example: "Example:\n  gptedit repair disk.img",
        arguments: &[
            IMAGE,
            Argument::Flag(
                "--bounds",
                "Sets the first and last usable sector to the usual ones",
            ),
            FIT,
        ],
        options: WRITING,
    },
    Definition {
        name: "randomize",
        about: "Writes random GUIDs for the disk and its partitions, for a clone",
        example: "Example:\n  gptedit randomize clone.img",
        arguments: &[IMAGE, FIT],
        options: WRITING,
    },
    Definition {
        name: "apply",
        about: "Writes the table that a layout describes",
        example: "Example:\n  gptedit apply disk.img disk.toml",
        arguments: &[
            IMAGE,
            Argument::Place(
                "FILE",
                "The layout: of dump, your own, or a script of sfdisk; - is standard input",
            ),
            Argument::Flag(
                "--replace",
                "Removes, moves or shortens partitions that the layout has otherwise",
            ),
            Argument::Flag("--create", "Writes a new table if there is none"),
            FIT,
        ],
        options: WRITING,
    },
    Definition {
        name: "wipe",
        about: "Clears both copies of the table and the protective MBR",
        example: "Example:\n  gptedit wipe disk.img --overwrite",
        arguments: &[IMAGE],
        options: WRITING,
    },
];

// The options of the commands that only read.
const READING: &[Argument] = &[SECTOR, JSON];

// The options of the commands that write.
const WRITING: &[Argument] = &[
    Argument::Lettered(
        'n',
        "--dry-run",
        "Writes nothing, and shows what would be written",
    ),
    Argument::Flag("--overwrite", "Writes also where contents would be lost"),
    Argument::Flag("--in-use", "Writes also where the device is in use"),
    Argument::Flag("--force", "Both --overwrite and --in-use"),
    Argument::Value(
        "--lock",
        "wait|fail|none",
        "What to do if another program has locked the image [default: wait]",
    ),
    Argument::Value("--backup", "FILE", "Writes a dump to this file first"),
    SECTOR,
    JSON,
];

// Linux reads no larger table.
const MOST_ENTRIES: u64 = 32768;

const IMAGE: Argument = Argument::Place(
    "IMAGE",
    "A disk image, or the block device of a whole disk",
);

const PARTITION: Argument = Argument::Place(
    "N",
    "The partition: its number, name=TEXT or guid=GUID",
);

const FIT: Argument = Argument::Flag(
    "--fit",
    "First fits the table to the length of the disk, in the same write",
);

const SECTOR: Argument = Argument::Value(
    "--sector",
    "BYTES|auto",
    "The size of a sector: 512, 1024, 2048, 4096 [default: auto]",
);

const JSON: Argument = Argument::Flag("--json", "Prints JSON");

const TYPE_HELP: &str = "Its type: a name that gptedit types lists, or a GUID";

const NAME: Argument = Argument::Value("--name", "TEXT", "Its name, of at most 36 units of UTF-16");

const GUID: Argument = Argument::Value("--guid", "GUID", "Its own GUID");

const ATTRIBUTES: Argument = Argument::Value(
    "--attributes",
    "LIST",
    "Its attributes, with commas: required, no-block-io, legacy-boot,{n}\
     grow-file-system, read-only, no-auto, or numbers of bits",
);

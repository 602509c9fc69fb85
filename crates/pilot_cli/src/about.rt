//! The texts of `--help` and `--version`.

/// The name and the version.
pub const VERSION: &str = "pilot 0.1.0\n";

/// How the program is called.
pub const HELP: &str = "\
usage: pilot IMAGE COMMAND [OPTION VALUE]...
       pilot --help | --version

images    :n       a disk of n sectors in memory, 256 to 1048576 for a volume
          n:FILE   a new file of n sectors of 528 bytes, all zero
          FILE     the sectors of that file, for reading and writing
commands  format   makes an empty volume of the whole disk; what was there is
                   lost; options --serial n and --counter n, each 1 to
                   4294967295, by default 1
          run      opens the volume, reads calls from standard input, a line
                   each, and writes a reply to each; files are made, sized,
                   marked, deleted and asked for, and mapped to spaces, where
                   bytes are loaded and stored; options --frames n, 24 to 4096,
                   by default 64: how many pages are kept in memory, and
                   --queue n, 0 to 256, by default 0: how many pages may wait
                   before the disk, and are written in ascending sectors
          processes
                   opens the volume, reads events of up to 16 clients from
                   standard input, a line each, and writes what each client
                   gets; a load or a store may wait for its page, and other
                   clients go on meanwhile; option --frames n, as for run
          replicate OTHER
                   opens the volume, and that of the image OTHER, to which it
                   copies immutable files, as lines of standard input say:
                   copy ID, compare ID and close; it writes a reply to each,
                   and nothing to the first image; option --frames n, as for
                   run, for each of the two
          scavenge restores the volume from its labels, and writes a line for
                   each lost sector and the counts
          convert  brings a volume of version 1 or 2 to version 3, with the same
                   files, and writes the counts
          trial    makes a volume of the whole disk, carries drawn calls out on
                   it, and writes a line about them; what was there is lost;
                   options --seed n, by default 0, --calls n, up to 1000000, by
                   default 1000, and --frames n, as for run
exit      0 done, 2 usage, 3 disk fault, 4 stream fault, 5 volume refused,
          6 trace too long, 7 no memory, 8 volume damaged, 9 files without room
manual    docs/MANUAL.md in the repository
";

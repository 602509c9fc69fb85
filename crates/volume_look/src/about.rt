//! The texts of `--help` and `--version`.

/// The name and the version.
pub const VERSION: &str = "look 0.1.0\n";

/// How the program is called.
pub const HELP: &str = "\
usage: look IMAGE [--json | --picture OUT.svg | --file ID [--page N]]
       look --help | --version

IMAGE     a file of sectors of 528 bytes; it is opened for reading alone, and
          may be any, a sound volume or not
output    the root of the volume, its permanent files, both maps beside the
          labels, what is left over, and what `pilot IMAGE scavenge` would do
--json    the same as JSON
--picture a map of all sectors, as SVG, in a new file
--file    the runs of sectors of the file with this identifier, 16 hexadecimal
          digits; with --page the bytes of a page; --file=ID is taken too
exit      0 sound, or done; 2 usage, 3 the image can't be read, 4 the output
          can't be written, 5 no image, or none of a volume's size, 6 no such
          file or page, 7 no memory; of the listing and of --json also 8 not
          closed, 9 not sound, 10 root refused
manual    docs/LOOK.md in the repository
";

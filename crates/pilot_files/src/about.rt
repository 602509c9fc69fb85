//! The texts of `--help` and `--version`.

/// The name and the version.
pub const VERSION: &str = "pilot_files 0.1.0\n";

/// How the program is called.
pub const HELP: &str = "\
usage: documents IMAGE put FILE... [--name NAME]
       documents IMAGE get ID [FILE] [--force] [--pages]
       documents IMAGE list [--json]
       documents IMAGE remove ID...
       documents IMAGE replace ID FILE [--name NAME]
       documents --help | --version

IMAGE     a volume in an image file, as `pilot n:FILE format` makes one
put       puts each file, or standard input for `-`, into a new document, and
          writes its identifier once it is on the medium; its name is NAME, or
          the last part of the path
get       writes a document to standard output, or into a new file, which takes
          the place of none but with --force; --pages takes any file, whole
list      a line for each file: identifier, bytes and name of a document; of
          any other file its identifier, pages and type; --json: as JSON
remove    removes documents
replace   puts a file into a new document, removes the document that had the
          other identifier, and then writes the new one
--restore restores a volume that was not closed, before all else
--frames  how many pages are kept in memory, 24 to 4096, by default 512
--quiet   no line that says how far a document has come
exit      0 done, 1 refused by the volume, 2 usage, 3 disk fault, 4 stream
          fault, 5 volume refused, 7 no memory, 8 volume damaged
manual    docs/MANUAL.md in the repository
";

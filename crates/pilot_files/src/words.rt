//! What the words after the image ask for.

use clap::builder::ValueParser;
use clap::{Arg, ArgAction, ArgMatches, Command};
use labelled_disk::FileId;
use std::alloc::{AllocError, Global};
use thiserror::Error;

/// What is done with the documents of a volume.
#[derive(Debug, Drop)]
pub(crate) enum Task<'a> {
    Put {
        files: Vec<&'a str>,
        name: Option<&'a str>,
    },
    Get {
        id: FileId,
        file: Option<&'a str>,
        force: bool,
        pages: bool,
    },
    List {
        json: bool,
    },
    Remove {
        ids: Vec<FileId>,
    },
    Replace {
        id: FileId,
        file: &'a str,
        name: Option<&'a str>,
    },
}

/// How a task is carried out.
#[derive(Clone, Copy, Debug)]
pub(crate) struct Options {
    pub(crate) frames: u32,
    pub(crate) restore: bool,
    pub(crate) quiet: bool,
}

/// A task, and how it is carried out.
#[derive(Debug, Drop)]
pub(crate) struct Request<'a> {
    pub(crate) task: Task<'a>,
    pub(crate) options: Options,
}

/// Why words ask for nothing.
#[derive(Debug, Drop, Error)]
pub(crate) enum NoRequest<'a> {
    #[error("these words ask for nothing")]
    Usage,
    /// A word is not UTF-8.
    #[error("a word is not UTF-8")]
    NoText,
    #[error("{0:?}: no verb: put, get, list, remove or replace")]
    Verb(&'a str),
    /// There are several files for one name.
    #[error("--name takes one file")]
    OneName,
    #[error("--frames takes a number from 24 to 4096")]
    Frames,
    #[error("{0:?}: an identifier is 1 to 16 hexadecimal digits")]
    Identifier(&'a str),
    #[error("there is no memory left")]
    NoMemory,
}

impl From<AllocError> for NoRequest<'_> {
    fn from(_: AllocError) -> Self {
        NoRequest::NoMemory
    }
}

impl From<clap::Error> for NoRequest<'_> {
    fn from(error: clap::Error) -> Self {
        match error.kind() {
            clap::error::ErrorKind::OutOfMemory => NoRequest::NoMemory,
            clap::error::ErrorKind::ValueValidation => NoRequest::Frames,
            _ => NoRequest::Usage,
        }
    }
}

fn flag<'a>(alloc: Global, name: &'static str) -> Arg<'a> {
    Arg::new(alloc, name).long(name).action(ArgAction::SetTrue)
}

fn name_option<'a>(alloc: Global) -> Arg<'a> {
    Arg::new(alloc, "name").long("name").action(ArgAction::Set)
}

fn frames_option<'a>(alloc: Global) -> Arg<'a> {
    Arg::new(alloc, "frames")
        .long("frames")
        .action(ArgAction::Set)
        .value_parser(ValueParser::Unsigned(24, 4096))
}

fn operands<'a>(alloc: Global) -> Arg<'a> {
    Arg::new(alloc, "operands")
        .action(ArgAction::Append)
        .required(true)
}

/// The options that each verb takes.
fn verb<'a>(alloc: Global, name: &'static str) -> Result<Command<'a>, AllocError> {
    Command::new(alloc, name)
        .disable_help_flag(true)
        .arg(frames_option(alloc))?
        .arg(flag(alloc, "restore"))?
        .arg(flag(alloc, "quiet"))
}

/// What was read of the words of a verb.
fn read<'a>(
    verb: Command<'a>,
    words: &'a [String],
) -> Result<(ArgMatches<'a>, Options), NoRequest<'a>> {
    let matches = verb.try_get_matches_from(words)?;
    let options = Options {
        frames: matches.get_one("frames").unwrap_or(512),
        restore: matches.get_flag("restore"),
        quiet: matches.get_flag("quiet"),
    };
    Ok((matches, options))
}

/// The words that are no options.
fn operands_of<'a>(alloc: Global, matches: &ArgMatches<'a>) -> Result<Vec<&'a str>, AllocError> {
    Vec::from_slice(alloc, matches.get_strs("operands").unwrap_or(&[]))
}

/// The identifier that a word is: 1 to 16 hexadecimal digits.
fn identifier_of(word: &str) -> Result<FileId, NoRequest<'_>> {
    if word.len() > 16 || word.starts_with('+') {
        return Err(NoRequest::Identifier(word));
    }
    u64::from_str_radix(word, 16).map_err(|_| NoRequest::Identifier(word))
}

fn put_of<'a>(alloc: Global, words: &'a [String]) -> Result<Request<'a>, NoRequest<'a>> {
    let verb = verb(alloc, "put")?
        .arg(name_option(alloc))?
        .arg(operands(alloc))?;
    let (matches, options) = read(verb, words)?;
    let files = operands_of(alloc, &matches)?;
    let name = matches.get_str("name");
    if name.is_some() && files.len() > 1 {
        return Err(NoRequest::OneName);
    }
    let task = Task::Put { files, name };
    Ok(Request { task, options })
}

fn get_of<'a>(alloc: Global, words: &'a [String]) -> Result<Request<'a>, NoRequest<'a>> {
    let verb = verb(alloc, "get")?
        .arg(flag(alloc, "force"))?
        .arg(flag(alloc, "pages"))?
        .arg(operands(alloc))?;
    let (matches, options) = read(verb, words)?;
    let operands = operands_of(alloc, &matches)?;
    let (id, file) = match operands.as_slice() {
        [id] => (identifier_of(id)?, None),
        [id, file] => (identifier_of(id)?, Some(*file)),
        _ => return Err(NoRequest::Usage),
    };
    let task = Task::Get {
        id,
        file,
        force: matches.get_flag("force"),
        pages: matches.get_flag("pages"),
    };
    Ok(Request { task, options })
}

fn list_of<'a>(alloc: Global, words: &'a [String]) -> Result<Request<'a>, NoRequest<'a>> {
    let verb = verb(alloc, "list")?.arg(flag(alloc, "json"))?;
    let (matches, options) = read(verb, words)?;
    let json = matches.get_flag("json");
    let task = Task::List { json };
    Ok(Request { task, options })
}

fn remove_of<'a>(alloc: Global, words: &'a [String]) -> Result<Request<'a>, NoRequest<'a>> {
    let verb = verb(alloc, "remove")?.arg(operands(alloc))?;
    let (matches, options) = read(verb, words)?;
    let mut ids = Vec::new(alloc);
    for word in operands_of(alloc, &matches)?.iter() {
        ids.push(identifier_of(word)?).map_err(|_| AllocError)?;
    }
    let task = Task::Remove { ids };
    Ok(Request { task, options })
}

fn replace_of<'a>(alloc: Global, words: &'a [String]) -> Result<Request<'a>, NoRequest<'a>> {
    let verb = verb(alloc, "replace")?
        .arg(name_option(alloc))?
        .arg(operands(alloc))?;
    let (matches, options) = read(verb, words)?;
    let name = matches.get_str("name");
    let operands = operands_of(alloc, &matches)?;
    let (id, file) = match operands.as_slice() {
        [id, file] => (identifier_of(id)?, *file),
        _ => return Err(NoRequest::Usage),
    };
    let task = Task::Replace { id, file, name };
    Ok(Request { task, options })
}

/// What the words ask for: the first is the verb.
pub(crate) fn request_of(alloc: Global, words: &[String]) -> Result<Request<'_>, NoRequest<'_>> {
    let Some(verb) = words.first() else {
        return Err(NoRequest::Usage);
    };
    match verb.as_str() {
        "put" => put_of(alloc, words),
        "get" => get_of(alloc, words),
        "list" => list_of(alloc, words),
        "remove" => remove_of(alloc, words),
        "replace" => replace_of(alloc, words),
        other => Err(NoRequest::Verb(other)),
    }
}

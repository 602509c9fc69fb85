//! The command that words mean.
ghost use Rattle.std.specs.Prelude.{◌≡◌, ◌∷◌, Ok, Err, IfOk, map, codes, List};
ghost use Rattle.std.specs.String.{string_bytes};
ghost use Rattle.clap.specs.Words.{Text};
ghost use Rattle.command_words.specs.Meaning.{IsNoCommand, Means, Names};
ghost use Rattle.command_words.specs.Options.{IsInRange};

use crate::parsers::{
    convert_parser, format_parser, number_or, processes_parser, read, replicate_parser, run_parser,
    scavenge_parser, trial_parser,
};
use crate::refusal::Refused;
use std::alloc::Global;

/// A command, with its options.
#[derive(Clone, Copy, Debug, PartialEq, Eq)]
pub enum Command {
    /// Answers a trace on a volume.
    Run { frames: u32, queue: u32 },
    /// Answers the events of up to 16 clients on a volume.
    Processes { frames: u32 },
    /// Copies immutable files to a second volume.
    Replicate { frames: u32 },
    /// Makes a volume.
    Format { serial: u32, counter: u32 },
    /// Restores a volume from its labels.
    Scavenge,
    /// Brings an old volume to the version of today.
    Convert,
    /// Makes a volume, and drawn calls on it.
    Trial { seed: u32, calls: u32, frames: u32 },
}

// The command `run` with these words.
fn run_of(alloc: Global, words: &[String]) -> Result<Command, Refused>
    requires named { (rest : List Text) × (map string_bytes words.now ≡ codes "run" ∷ rest) }
    ensures meant { IfOk result (Means words.now) }
    ensures range { IfOk result IsInRange }
    ensures refused { result ≡ Err Refused.Usage → IsNoCommand words.now }
{
    let parser = run_parser(alloc)?;
    let matches = read(parser, words)?;
    let frames = number_or(&matches, "frames", 64);
    let queue = number_or(&matches, "queue", 0);
    Ok(Command::Run { frames, queue })
}

// The command `processes` with these words.
fn processes_of(alloc: Global, words: &[String]) -> Result<Command, Refused>
    requires named { (rest : List Text) × (map string_bytes words.now ≡ codes "processes" ∷ rest) }
    ensures meant { IfOk result (Means words.now) }
    ensures range { IfOk result IsInRange }
    ensures refused { result ≡ Err Refused.Usage → IsNoCommand words.now }
{
    let parser = processes_parser(alloc)?;
    let matches = read(parser, words)?;
    let frames = number_or(&matches, "frames", 64);
    Ok(Command::Processes { frames })
}

// The command `replicate` with these words.
fn replicate_of(alloc: Global, words: &[String]) -> Result<Command, Refused>
    requires named { (rest : List Text) × (map string_bytes words.now ≡ codes "replicate" ∷ rest) }
    ensures meant { IfOk result (Means words.now) }
    ensures range { IfOk result IsInRange }
    ensures refused { result ≡ Err Refused.Usage → IsNoCommand words.now }
{
    let parser = replicate_parser(alloc)?;
    let matches = read(parser, words)?;
    let frames = number_or(&matches, "frames", 64);
    Ok(Command::Replicate { frames })
}

// The command `format` with these words.
fn format_of(alloc: Global, words: &[String]) -> Result<Command, Refused>
    requires named { (rest : List Text) × (map string_bytes words.now ≡ codes "format" ∷ rest) }
    ensures meant { IfOk result (Means words.now) }
    ensures range { IfOk result IsInRange }
    ensures refused { result ≡ Err Refused.Usage → IsNoCommand words.now }
{
    let parser = format_parser(alloc)?;
    let matches = read(parser, words)?;
    let serial = number_or(&matches, "serial", 1);
    let counter = number_or(&matches, "counter", 1);
    Ok(Command::Format { serial, counter })
}

// The command `scavenge` with these words.
fn scavenge_of(alloc: Global, words: &[String]) -> Result<Command, Refused>
    requires named { (rest : List Text) × (map string_bytes words.now ≡ codes "scavenge" ∷ rest) }
    ensures meant { IfOk result (Means words.now) }
    ensures range { IfOk result IsInRange }
    ensures refused { result ≡ Err Refused.Usage → IsNoCommand words.now }
{
    let parser = scavenge_parser(alloc);
    let _matches = read(parser, words)?;
    Ok(Command::Scavenge)
}

// The command `convert` with these words.
fn convert_of(alloc: Global, words: &[String]) -> Result<Command, Refused>
    requires named { (rest : List Text) × (map string_bytes words.now ≡ codes "convert" ∷ rest) }
    ensures meant { IfOk result (Means words.now) }
    ensures range { IfOk result IsInRange }
    ensures refused { result ≡ Err Refused.Usage → IsNoCommand words.now }
{
    let parser = convert_parser(alloc);
    let _matches = read(parser, words)?;
    Ok(Command::Convert)
}

// The command `trial` with these words.
fn trial_of(alloc: Global, words: &[String]) -> Result<Command, Refused>
    requires named { (rest : List Text) × (map string_bytes words.now ≡ codes "trial" ∷ rest) }
    ensures meant { IfOk result (Means words.now) }
    ensures range { IfOk result IsInRange }
    ensures refused { result ≡ Err Refused.Usage → IsNoCommand words.now }
{
    let parser = trial_parser(alloc)?;
    let matches = read(parser, words)?;
    let seed = number_or(&matches, "seed", 0);
    let calls = number_or(&matches, "calls", 1000);
    let frames = number_or(&matches, "frames", 64);
    Ok(Command::Trial {
        seed,
        calls,
        frames,
    })
}

/// The command that the words mean, if they mean one.
pub fn command_of(machine: Global, words: &[String]) -> Result<Command, Refused>
    ensures meant { IfOk result (Means words.now) }
    ensures range { IfOk result IsInRange }
    ensures usage { result ≡ Err Refused.Usage → IsNoCommand words.now }
    ensures unknown { ((c : Command) → ¬ Names words.now c) → result ≡ Err Refused.Usage }
    ensures memory { result ≡ Err Refused.NoMemory → (c : Command) × Names words.now c }
{
    let Some(word) = words.first() else {
        return Err(Refused::Usage);
    };
    match word.as_str() {
        "run" => run_of(machine, words),
        "processes" => processes_of(machine, words),
        "replicate" => replicate_of(machine, words),
        "format" => format_of(machine, words),
        "scavenge" => scavenge_of(machine, words),
        "convert" => convert_of(machine, words),
        "trial" => trial_of(machine, words),
        _ => Err(Refused::Usage),
    }
}

//! The image word: which disk a command works on.
ghost use Rattle.std.specs.Prelude.{ℕ, IfSome, IfNone};
ghost use Rattle.image_disk.specs.ImageWord.{IsCount, Asks};

/// What an image word asks for.
#[derive(Clone, Copy, Debug, PartialEq, Eq)]
pub enum Image<'a> {
    /// `:n`, a disk of n sectors in memory.
    Memory(u32),
    /// `n:path`, a new file of n zero sectors.
    New { sectors: u32, path: &'a str },
    /// Any other word, the path of a file.
    File(&'a str),
}

/// The disk that a word asks for.
#[tactic(auto, using(crate::proofs::ImageWords::path_without_colon))]
pub fn image_of(word: &str) -> Image<'_>
    ensures { Asks word.now result }
{
    let Some((count, path)) = word.split_once(':') else {
        return Image::File(word);
    };
    if count.is_empty() {
        return match count_of(path) {
            Some(sectors) => Image::Memory(sectors),
            None => Image::File(word),
        };
    }
    match count_of(count) {
        Some(sectors) => Image::New { sectors, path },
        None => Image::File(word),
    }
}

// A number below 2^32, in decimal digits alone.
fn count_of(text: &str) -> Option<u32>
    ensures some { IfSome result (IsCount text.now) }
    ensures none { IfNone result ((n : ℕ) → ¬ IsCount text.now n) }
{
    if text.starts_with('+') {
        return None;
    }
    text.parse().ok()
}

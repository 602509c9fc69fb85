//! Whether a volume is sound, as a look finds it.
ghost use Rattle.std.specs.Prelude.{◌≡◌, ◌↔◌, ◌+◌, ◌≤◌, true, List, Some, slice_get};
ghost use Rattle.labelled_disk.specs.Sectors.{Sector};
ghost use Rattle.volume_view.specs.Names.{SaysAgree};
ghost use Rattle.volume_view.specs.Order.{closed_by, IsGivenBy, AreGivenBy, AreGiven};

use crate::files::FileLine;
use crate::names::Names;
use crate::view::View;
use label_laws::sound_when_closed;
use label_survey::Tally;
use labelled_disk::{FileId, Layout};
use std::alloc::Allocator;
use volume_root::{Root, RootFault, valid_roots_pass};

/// How a volume stands.
#[derive(Clone, Copy, Debug, PartialEq, Eq)]
pub enum Condition {
    /// Its root is valid, it was closed, both maps and their labels say what the labels of the files say, a restoration
    /// would free nothing, and the files' identifiers and their room are those of the root.
    Sound,
    /// Its root is valid, and it was not closed.
    NotClosed,
    /// Its root is valid, it was closed, and it is not sound.
    Damaged,
    /// Its root is refused.
    Refused,
}

// Whether the root reveals that the volume was closed, where there is one.
fn closed_by(root: &Result<Root, RootFault>) -> Option<bool>
    ensures { result ≡ closed_by root.now }
{
    match root {
        Ok(root) => Some(root.clean),
        Err(_) => None,
    }
}

// Whether the identifier was given out, if a volume of this root did it.
fn is_given(root: &Root, id: FileId) -> bool
    ensures yes { result ≡ true → IsGivenBy root.now id }
    ensures no { IsGivenBy root.now id → result ≡ true }
{
    id / 0x1_0000_0000 != u64::from(root.serial) || id % 0x1_0000_0000 < u64::from(root.counter)
}

fn are_given_by(root: &Root, files: &[FileLine]) -> bool
    ensures yes { result ≡ true → AreGivenBy root.now files.now }
    ensures no { AreGivenBy root.now files.now → result ≡ true }
{
    for i in 0..files.len() {
        if !is_given(root, files[i].id) {
            return false;
        }
    }
    true
}

// Whether the identifiers of the files were given out, where there is a root.
fn are_given(root: &Result<Root, RootFault>, files: &[FileLine]) -> bool
    ensures { result ≡ true ↔ AreGiven root.now files.now }
{
    match root {
        Ok(root) => are_given_by(root, files),
        Err(_) => true,
    }
}

// Whether so many files and pages have room.
fn have_room(layout: &Layout, tally: &Tally) -> bool
    ensures { result ≡ true ↔ (tally.now.files + tally.now.pages ≤ layout.now.capacity) }
{
    u64::from(tally.files) + u64::from(tally.pages) <= u64::from(layout.capacity)
}

// Whether it is said that the file map agrees.
fn says_agree<A: Allocator>(names: &Names<A>) -> bool
    ensures { result ≡ true ↔ SaysAgree names.now }
{
    match names {
        Names::Malformed { page: _ } => false,
        Names::Read {
            in_form,
            differences,
        } => *in_form && differences.is_empty(),
    }
}

impl<A: Allocator> View<A> {
    ghost use Rattle.volume_view.specs.View.{IsView};
    ghost use Rattle.volume_view.specs.Order.{IsCondition, HasRoom, HasGiven, SaysRight, SaysPlaced};

    // Whether both maps agree with the labels, and a restoration would free nothing.
    fn says_right(&self) -> bool
        ensures { result ≡ true ↔ SaysRight self.now }
    {
        self.found.survey.tally.freed == 0 && self.bits.is_empty() && says_agree(&self.names)
    }

    /// Whether the volume's capacity is enough for its files.
    pub fn has_room(&self) -> bool
        ensures { result ≡ true ↔ HasRoom self.now }
    {
        have_room(&self.layout, &self.found.survey.tally)
    }

    /// Whether the volume has given out the identifiers of its files, as far as they are of its serial:
    /// they are below the counter. Without a root there is nothing to ask.
    pub fn has_given_ids(&self) -> bool
        ensures { result ≡ true ↔ HasGiven self.now }
    {
        are_given(&self.root, &self.found.files)
    }

    // Whether the maps have their labels, the files have room, and their identifiers were given out.
    fn says_placed(&self) -> bool
        ensures { result ≡ true ↔ SaysPlaced self.now }
    {
        self.maps_labelled && self.has_room() && self.has_given_ids()
    }

    /// How the volume stands.
    pub fn condition(&self) -> Condition
        ensures { (d : List Sector) (s : Sector) → IsView d self.now → slice_get d 0 ≡ Some s
            → IsCondition d s result }
    {
        sound_when_closed();
        valid_roots_pass();
        match closed_by(&self.root) {
            None => Condition::Refused,
            Some(false) => Condition::NotClosed,
            Some(true) => {
                if !self.says_right() {
                    return Condition::Damaged;
                }
                if !self.says_placed() {
                    return Condition::Damaged;
                }
                Condition::Sound
            }
        }
    }
}

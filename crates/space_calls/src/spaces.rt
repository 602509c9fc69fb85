//! Spaces that are made, removed and looked at.
ghost use Rattle.std.specs.Prelude.{OnOk};
ghost use Rattle.flat_machine.specs.declared.call.Call.TheVariants as call;
ghost use Rattle.flat_machine.specs.Machine.{Machine};
ghost use Rattle.file_manager.specs.declared.volume.Volume.{Volume};
ghost use Rattle.running_words.specs.Bound.{CostsOther};
ghost use Rattle.running_words.specs.Running.{Runs};
ghost use Rattle.fault_core.specs.Core.{state};
ghost use Rattle.space_calls.specs.Halts.{ChangeHalts, MakeSpaceHalts, PlaceHalts, RemoveSpaceHalts};
ghost use Rattle.space_calls.specs.Sees.{StillOn};
ghost use Rattle.filer_kernel.specs.View.{FitsLayout};
ghost use Rattle.space_calls.specs.Calls.{Answers};
ghost use Rattle.space_calls.specs.Outcomes.{HaltsBy, MovesOwn};

use crate::framing::frame_count;
use fault_core::Core;
use flat_machine::Reply;
use labelled_disk::{Disk, Halt};
use std::alloc::Allocator;
use table_calls::{add, place as innermost, remove, set_unit};

/// Makes a space inside its parent, at a page or in the lowest gap that is long enough.
pub fn make_space<D: Disk, A: Allocator>(
    core: &mut Core<D, A>,
    parent: u32,
    pages: u32,
    first: Option<u32>,
) -> Result<Reply, Halt>
    requires size { FitsLayout (state core.old) }
    ensures answers { (volume : Volume) (m : Machine) → Runs core.old volume m
        → Answers m (call.MakeSpace parent pages first) core.old core.new volume result }
    ensures fails { HaltsBy
        (MakeSpaceHalts parent pages first core.old.intervals (state core.old) (state core.new))
        core.old core.new result }
    ensures went { MovesOwn (state core.old) (state core.new) }
    ensures sees { OnOk result (StillOn core.old core.new) }
    ensures cost { CostsOther (state core.old).disk (state core.new).disk }
{
    let answer = match add(core, parent, pages, first) {
        Ok(answer) => answer,
        Err(halt) => return Err(halt),
    };
    let _frames = frame_count(core);
    match answer {
        Ok((handle, first)) => Ok(Reply::Space { handle, first }),
        Err(word) => Ok(Reply::Refused(word)),
    }
}

/// Removes a space that has no children and is not mapped.
pub fn remove_space<D: Disk, A: Allocator>(core: &mut Core<D, A>, space: u32) -> Result<Reply, Halt>
    requires size { FitsLayout (state core.old) }
    ensures answers { (volume : Volume) (m : Machine) → Runs core.old volume m
        → Answers m (call.RemoveSpace space) core.old core.new volume result }
    ensures fails { HaltsBy (RemoveSpaceHalts space core.old.intervals (state core.old) (state core.new))
        core.old core.new result }
    ensures went { MovesOwn (state core.old) (state core.new) }
    ensures sees { OnOk result (StillOn core.old core.new) }
    ensures cost { CostsOther (state core.old).disk (state core.new).disk }
{
    let answer = match remove(core, space) {
        Ok(answer) => answer,
        Err(halt) => return Err(halt),
    };
    let _frames = frame_count(core);
    match answer {
        Ok(()) => Ok(Reply::Done),
        Err(word) => Ok(Reply::Refused(word)),
    }
}

/// The innermost space at a page.
pub fn place<D: Disk, A: Allocator>(core: &mut Core<D, A>, page: u32) -> Result<Reply, Halt>
    requires size { FitsLayout (state core.old) }
    ensures answers { (volume : Volume) (m : Machine) → Runs core.old volume m
        → Answers m (call.Place page) core.old core.new volume result }
    ensures fails { HaltsBy (PlaceHalts page core.old.intervals (state core.old) (state core.new))
        core.old core.new result }
    ensures went { MovesOwn (state core.old) (state core.new) }
    ensures sees { OnOk result (StillOn core.old core.new) }
    ensures cost { CostsOther (state core.old).disk (state core.new).disk }
{
    match innermost(core, page) {
        Ok(Ok((handle, first, pages))) => Ok(Reply::Place {
            handle,
            first,
            pages,
        }),
        Ok(Err(word)) => Ok(Reply::Refused(word)),
        Err(halt) => Err(halt),
    }
}

/// Sets the number of pages that are swapped together.
pub fn set_units<D: Disk, A: Allocator>(
    core: &mut Core<D, A>,
    space: u32,
    pages: u32,
) -> Result<Reply, Halt>
    requires size { FitsLayout (state core.old) }
    ensures answers { (volume : Volume) (m : Machine) → Runs core.old volume m
        → Answers m (call.Units space pages) core.old core.new volume result }
    ensures fails { HaltsBy (ChangeHalts core.old.intervals (state core.old) (state core.new))
        core.old core.new result }
    ensures went { MovesOwn (state core.old) (state core.new) }
    ensures sees { OnOk result (StillOn core.old core.new) }
    ensures cost { CostsOther (state core.old).disk (state core.new).disk }
{
    let answer = match set_unit(core, space, pages) {
        Ok(answer) => answer,
        Err(halt) => return Err(halt),
    };
    let _frames = frame_count(core);
    match answer {
        Ok(()) => Ok(Reply::Done),
        Err(word) => Ok(Reply::Refused(word)),
    }
}

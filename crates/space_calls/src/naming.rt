//! Files that calls may name.
ghost use Rattle.std.specs.Prelude.{◌≡◌, ◌≤◌, ◌+◌, List, IfOk, IfErr, IfSome, MatchResult};
ghost use Rattle.labelled_disk.specs.declared.evidence.Halt.TheVariants as halt;
ghost use Rattle.flat_machine.specs.Machine.{Machine};
ghost use Rattle.file_manager.specs.declared.volume.Volume.{Volume};
ghost use Rattle.running_words.specs.Running.{Runs};
ghost use Rattle.flat_machine.specs.Machine.{nameable};
ghost use Rattle.space_tables.specs.Shows.{IsFirstWith, shows};
ghost use Rattle.space_calls.specs.Naming.{IsNameable, IsSeen};
ghost use Rattle.fault_core.specs.Core.{state};
ghost use Rattle.space_calls.specs.Halts.{LookHalts, NamedHalts, SightHalts};
ghost use Rattle.file_manager.specs.Attributes.{IsAttributesOf};
ghost use Rattle.session_words.specs.Parts.{shapes_of};
ghost use Rattle.labelled_disk.specs.Sectors.{Sector};
ghost use Rattle.file_map.specs.FileMap.{Triples, IsSize};
ghost use Rattle.filer_kernel.specs.Triples.{AreOf, MapIs};
ghost use Rattle.filer_kernel.specs.View.{FitsLayout, HasMemory, kept_by};
ghost use Rattle.space_calls.specs.Calls.{Looks};
ghost use Rattle.space_calls.specs.Outcomes.{HaltsBy};

use crate::bare::shows_nothing;
use fault_core::Core;
use file_manager::{Attributes, attributes_of};
use labelled_disk::{Disk, FileId, Halt};
use space_tables::Shown;
use std::alloc::Allocator;
use table_calls::shows_file;

/// The lowest handle whose space shows a file, and what it shows there; or only one that shows it writable.
pub fn window_on<D: Disk, A: Allocator>(
    core: &mut Core<D, A>,
    id: FileId,
    writable_only: bool,
) -> Result<Option<(u32, Shown)>, Halt>
    requires size { FitsLayout (state core.old) }
    ensures answer { (volume : Volume) (m : Machine) → Runs core.old volume m
        → MatchResult result (IsFirstWith (shows id writable_only) m.spaces) (λ e. e ≡ halt.Disk) }
    ensures looks { Looks core.old core.new }
    ensures fails { HaltsBy (SightHalts core.old.intervals (state core.old) (state core.new)) core.old core.new result }
    ensures cost { (state core.new).disk.transfers ≤ (state core.old).disk.transfers + 14532 }
{
    match shows_nothing(core) {
        Ok(true) => return Ok(None),
        Ok(false) => (),
        Err(halt) => return Err(halt),
    }
    shows_file(core, id, writable_only)
}

// Whether no anonymous window shows the file: the calls on files then see it, if it is there.
fn may_be_named<D: Disk, A: Allocator>(core: &mut Core<D, A>, id: FileId) -> Result<bool, Halt>
    requires size { FitsLayout (state core.old) }
    ensures answer { (volume : Volume) (m : Machine) → Runs core.old volume m
        → MatchResult result (IsSeen m id) (λ e. e ≡ halt.Disk) }
    ensures looks { Looks core.old core.new }
    ensures fails { HaltsBy (SightHalts core.old.intervals (state core.old) (state core.new)) core.old core.new result }
    ensures cost { (state core.new).disk.transfers ≤ (state core.old).disk.transfers + 14532 }
{
    match window_on(core, id, false) {
        Ok(Some((_, shown))) => Ok(!shown.anonymous),
        Ok(None) => Ok(true),
        Err(halt) => Err(halt),
    }
}

// Size, type and marks of the file that has this identifier, if it is there.
pub(crate) fn found_file<D: Disk, A: Allocator>(
    core: &mut Core<D, A>,
    id: FileId,
) -> Result<Option<Attributes>, Halt>
    requires size { FitsLayout (state core.old) }
    ensures answer { (volume : Volume) (m : Machine) → Runs core.old volume m
        → MatchResult result (IsAttributesOf (shapes_of m.files id)) (λ e. e ≡ halt.Disk) }
    ensures looks { Looks core.old core.new }
    ensures fails { HaltsBy (LookHalts id (state core.old) (state core.new)) core.old core.new result }
    ensures client { IfOk result (λ o. IfSome o (λ _. 16 ≤ id)) }
    ensures size { (m : List Sector) (named : Triples) → HasMemory (state core.old) m
        → MapIs (state core.old).layout named m → AreOf named (kept_by (state core.old))
        → IfOk result (λ o. IfSome o (λ found. IsSize named id found.pages)) }
    ensures cost { (state core.new).disk.transfers ≤ (state core.old).disk.transfers + 29 }
{
    attributes_of(&mut core.filer, id)
}

/// Size, type and marks of the file that has this identifier and may be named: no anonymous window shows it. Of a file that is
/// not there no window is looked for.
pub fn named_file<D: Disk, A: Allocator>(
    core: &mut Core<D, A>,
    id: FileId,
) -> Result<Option<Attributes>, Halt>
    requires size { FitsLayout (state core.old) }
    ensures answer { (volume : Volume) (m : Machine) → Runs core.old volume m
        → MatchResult result (IsNameable (nameable m id)) (λ e. e ≡ halt.Disk) }
    ensures looks { Looks core.old core.new }
    ensures fails { HaltsBy (NamedHalts id core.old.intervals (state core.old) (state core.new))
        core.old core.new result }
    ensures client { IfOk result (λ o. IfSome o (λ _. 16 ≤ id)) }
    ensures size { (m : List Sector) (named : Triples) → HasMemory (state core.old) m
        → MapIs (state core.old).layout named m → AreOf named (kept_by (state core.old))
        → IfOk result (λ o. IfSome o (λ found. IsSize named id found.pages)) }
    ensures cost { (state core.new).disk.transfers ≤ (state core.old).disk.transfers + 14561 }
{
    let found = match found_file(core, id) {
        Ok(Some(found)) => found,
        Ok(None) => return Ok(None),
        Err(halt) => return Err(halt),
    };
    match may_be_named(core, id) {
        Ok(true) => Ok(Some(found)),
        Ok(false) => Ok(None),
        Err(halt) => Err(halt),
    }
}

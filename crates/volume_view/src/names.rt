//! The file map beside the labels.
ghost use Rattle.std.specs.Prelude.{◌≡◌, ◌↔◌, ◌*◌, ◌-◌, ◌+◌, List, Some, Err, length, map, IfOk, IfErr, MatchResult};
ghost use Rattle.flat_mem.specs.Vec.{vec_mem_bytes};
ghost use Rattle.labelled_disk.specs.Calls.{ReadsAtMost, Rose};
ghost use Rattle.labelled_disk.specs.Layout.{IsCount, layout_of, data_sectors, first_data, vam, vfm};
ghost use Rattle.labelled_disk.specs.Sectors.{Sector};
ghost use Rattle.file_map.specs.FileMap.{Triples};
ghost use Rattle.file_map.specs.InSectors.{MapNames, label_triples, map_bytes};
ghost use Rattle.volume_root.specs.Sound.{HasFileMap};
ghost use Rattle.volume_view.specs.Form.{HasForm};
ghost use Rattle.volume_view.specs.Names.{labelled, AreNone, NamesIn, IsComparison, IsRevealedOf, SaysForm, SaysAlike, SaysAgree};
ghost use Rattle.volume_view.specs.Pages.{IsDiskOrMemory, SaysNamed};
ghost use Rattle.volume_view.specs.Recorded.{AreReadAlike};
ghost use Rattle.volume_view.specs.Records.{IsNoMemory};

use crate::LookFault;
use crate::differences::NameDifferences;
use crate::form::is_in_form;
use crate::mapped::find_unlabelled;
use crate::pages::read_pages;
use crate::records::read_runs;
use crate::stop::Stop;
use crate::unmapped::find_unmapped;
use flat_mem::VecMem;
use labelled_disk::{Disk, Label, Layout};
use std::alloc::Allocator;

/// What the file map says beside the labels.
#[derive(Drop)]
pub enum Names<A: Allocator> {
    /// This page of the map, as it was read, breaks its form.
    Malformed {
        page: u32,
    },
    /// The map was read: whether it is in form as a whole, and what it and the labels have not in common.
    Read {
        in_form: bool,
        differences: NameDifferences<A>,
    },
}

// What the map in this memory has not in common with the labels.
fn compare_names<A: Allocator + Clone>(
    alloc: A,
    map: &mut VecMem<A>,
    layout: &Layout,
    labels: &[Label],
) -> Result<NameDifferences<A>, Stop>
    requires counted { IsCount layout.now.sectors }
    requires layout { layout.now ≡ layout_of layout.now.sectors }
    requires size { length (vec_mem_bytes map.old) ≡ 512 * vfm layout.now.sectors }
    requires all { length labels.now ≡ layout.now.sectors - first_data layout.now.sectors }
    ensures compared { (named : Triples)
        → NamesIn layout.now.sectors (vec_mem_bytes map.old) named
        → MatchResult result (λ differences. IsComparison layout.now.sectors named
        (labelled layout.now.first labels.now) differences) IsNoMemory }
    ensures alike { IfOk result (λ differences. AreNone differences → AreReadAlike
        layout.now.sectors (vec_mem_bytes map.old) (labelled layout.now.first labels.now)) }
{
    let runs = match read_runs(alloc.clone()?, map, layout) {
        Ok(runs) => runs,
        Err(stop) => return Err(stop),
    };
    let unmapped = match find_unmapped(alloc.clone()?, map, layout, labels) {
        Ok(unmapped) => unmapped,
        Err(stop) => return Err(stop),
    };
    let unlabelled = find_unlabelled(alloc, layout.first, labels, layout.sectors, &runs)?;
    Ok(NameDifferences {
        unmapped,
        unlabelled,
    })
}

/// What the file map says beside the labels. Where a label of its pages isn't right, `labelled` is
/// false afterwards.
pub(crate) fn look_at_names<A: Allocator + Clone, D: Disk>(
    alloc: A,
    disk: &mut D,
    layout: &Layout,
    labels: &[Label],
    labelled: &mut bool,
) -> Result<Names<A>, LookFault>
    requires counted { IsCount (D.state disk.old).sectors }
    requires layout { layout.now ≡ layout_of (D.state disk.old).sectors }
    requires all { length labels.now
        ≡ (D.state disk.old).sectors - first_data (D.state disk.old).sectors }
    ensures revealed { IfOk result (λ names. (d : List Sector) → (D.state disk.old).contents ≡ Some d
        → labels.now ≡ map (λ s. s.0) (data_sectors d)
        → (named : Triples) → MapNames d named → IsRevealedOf named d names) }
    ensures form { IfOk result (λ names. (d : List Sector) → (D.state disk.old).contents ≡ Some d
        → labels.now ≡ map (λ s. s.0) (data_sectors d)
        → SaysForm names (HasForm (length d) (map_bytes d))) }
    ensures alike { IfOk result (λ names. (d : List Sector) → (D.state disk.old).contents ≡ Some d
        → labels.now ≡ map (λ s. s.0) (data_sectors d) → SaysAlike names
        → AreReadAlike (length d) (map_bytes d) (label_triples d)) }
    ensures agrees { IfOk result (λ names. (d : List Sector) → (D.state disk.old).contents ≡ Some d
        → labels.now ≡ map (λ s. s.0) (data_sectors d) → SaysAgree names ↔ HasFileMap d) }
    ensures labelled { IfOk result (λ names. (d : List Sector)
        → (D.state disk.old).contents ≡ Some d
        → SaysNamed labelled.old labelled.new d 2 (1 + vam (length d)) (vfm (length d))) }
    ensures err { IfErr result IsDiskOrMemory }
    ensures cause { result ≡ Err LookFault.Disk
        → Rose (D.state disk.old).faults (D.state disk.new).faults }
    ensures cost { ReadsAtMost (vfm (D.state disk.old).sectors) (D.state disk.old)
        (D.state disk.new) }
{
    let Ok(own) = alloc.clone() else {
        return Err(LookFault::NoMemory);
    };
    let mut map = read_pages(own, disk, 2, 1 + layout.vam, layout.vfm, labelled)?;
    let Ok(own) = alloc.clone() else {
        return Err(LookFault::NoMemory);
    };
    let Ok(in_form) = is_in_form(own, &mut map, layout) else {
        return Err(LookFault::NoMemory);
    };
    match compare_names(alloc, &mut map, layout, labels) {
        Ok(differences) => Ok(Names::Read {
            in_form,
            differences,
        }),
        Err(Stop::Broken { page }) => Ok(Names::Malformed { page }),
        Err(Stop::NoMemory) => Err(LookFault::NoMemory),
    }
}

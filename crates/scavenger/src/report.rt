//! What a restoration reveals of a volume.
ghost use Rattle.std.specs.Prelude.{◌≡◌, ℕ, ◌+◌, ◌≤◌, ◌<◌, ◌^◌, [], IfOk, OnOk, List, length, map, slice_get, Some};
ghost use Rattle.labelled_disk.specs.Layout.{first_data};
ghost use Rattle.labelled_disk.specs.Sectors.{Sector};
ghost use Rattle.label_survey.specs.Survey.{Reveals};
ghost use Rattle.scavenger.specs.Stays.{HasLabels};

use label_survey::Survey;
use labelled_disk::{FileId, Label, NoMemory};
use std::alloc::{AllocError, Allocator};

/// A sector that was freed though its label named a file that stays.
#[derive(Clone, Copy, Debug, PartialEq, Eq)]
pub struct Lost {
    pub sector: u32,
    pub id: FileId,
    /// `ffffffff` where it was a leader.
    pub page: u32,
}

/// What was found on a volume.
#[derive(Drop)]
pub struct Report<A: Allocator> {
    /// The permanent files, which stay.
    pub files: u32,
    /// Their pages, no leader among them.
    pub pages: u32,
    /// The sectors that were freed.
    pub freed: u32,
    lost: Vec<Lost, A>,
}

impl<A: Allocator> Report<A> {
    ghost use Rattle.scavenger.specs.Reported.{lost_in, labelled, Reports};

    /// An empty report, with room for a lost sector for each sector of a disk: 16 bytes each.
    pub fn with_room(alloc: A, sectors: u32) -> Result<Report<A>, NoMemory>
        ensures files { IfOk result (λ report. report.files ≡ 0) }
        ensures pages { IfOk result (λ report. report.pages ≡ 0) }
        ensures freed { IfOk result (λ report. report.freed ≡ 0) }
        ensures lost { IfOk result (λ report. lost_in report ≡ []) }
    {
        Ok(Report {
            files: 0,
            pages: 0,
            freed: 0,
            lost: Vec::with_capacity(alloc, sectors as usize)?,
        })
    }

    // Lists these sectors, each with what its label says.
    fn list(&mut self, first: u32, labels: &[Label], lost: &[u32]) -> Result<(), AllocError>
        requires empty { lost_in self.old ≡ [] }
        requires within { (k : ℕ) (i : ℕ) → slice_get lost.now k ≡ Some i
            → (first ≤ i) × (i < first + length labels.now) }
        ensures listed { OnOk result (lost_in self.new
            ≡ map (labelled first labels.now) lost.now) }
        ensures files { self.new.files ≡ self.old.files }
        ensures pages { self.new.pages ≡ self.old.pages }
        ensures freed { self.new.freed ≡ self.old.freed }
    {
        for k in 0..lost.len() {
            let sector = lost[k];
            let label = &labels[(sector - first) as usize];
            self.lost.push(Lost {
                sector,
                id: label.id,
                page: label.page,
            })?;
        }
        Ok(())
    }

    // Puts the counts of a survey of these labels, and its lost sectors, into an empty report.
    pub(crate) fn fill(
        &mut self,
        first: u32,
        labels: &[Label],
        survey: &Survey<A>,
    ) -> Result<(), AllocError>
        requires empty { lost_in self.old ≡ [] }
        requires first { first ≡ first_data (first + length labels.now) }
        requires few { first + length labels.now < 2 ^ 32 }
        requires reveals { (d : List Sector) → HasLabels d (first + length labels.now) labels.now
            → Reveals d survey.now.sector_states.items survey.now.tally survey.now.lost.items }
        ensures { OnOk result ((d : List Sector) → HasLabels d (first + length labels.now) labels.now
            → Reports d self.new) }
    {
        self.files = survey.tally.files;
        self.pages = survey.tally.pages;
        self.freed = survey.tally.freed;
        self.list(first, labels, &survey.lost)
    }

    /// The lost sectors, ascending.
    pub fn lost(&self) -> &[Lost]
        ensures { result.now ≡ lost_in self.now }
    {
        &self.lost
    }
}

//! For each call, the first of its tests that holds.

use crate::SlowMachine;
use crate::refuse::{first_of, is_root, no_size, no_unit, past_root};
use flat_machine::{Call, Refusal};
use labelled_disk::FileId;
use std::alloc::Allocator;

impl<A: Allocator + Clone> SlowMachine<A> {
    ghost use Rattle.std.specs.Prelude.{length, ◌≡◌, ◌≤◌, List, ℕ};
    ghost use Rattle.flat_machine.specs.declared.call.Call.TheVariants as call_of;
    ghost use Rattle.flat_machine.specs.Form.{IsInForm};
    ghost use Rattle.flat_machine.specs.Refusal.{refusal};

    fn set_size_refusal(&self, id: FileId, pages: u32) -> Option<Refusal>
        ensures { result ≡ refusal self.now (call_of.SetSize id pages) }
    {
        first_of(&[
            self.no_file(id),
            self.is_immutable(id),
            self.cut_while_mapped(id, pages),
            self.no_room_as(id, pages),
        ])
    }

    fn make_space_refusal(&self, parent: u32, pages: u32, first: Option<u32>) -> Option<Refusal>
        ensures { result ≡ refusal self.now (call_of.MakeSpace parent pages first) }
    {
        first_of(&[
            self.no_space(parent),
            no_size(pages),
            self.no_spaces(),
            self.no_place(parent, pages, first),
        ])
    }

    fn remove_refusal(&self, space: u32) -> Option<Refusal>
        ensures { result ≡ refusal self.now (call_of.RemoveSpace space) }
    {
        first_of(&[
            self.no_space(space),
            is_root(space),
            self.has_children(space),
            self.self_mapped(space),
        ])
    }

    fn map_refusal(&self, space: u32, id: FileId, page: u32, writable: bool) -> Option<Refusal>
        ensures { result ≡ refusal self.now (call_of.Map space id page writable) }
    {
        let mut immutable = None;
        if writable {
            immutable = self.is_immutable(id);
        }
        first_of(&[
            self.no_space(space),
            is_root(space),
            self.no_file(id),
            self.path_mapped(space),
            self.past_end(space, id, page),
            immutable,
        ])
    }

    fn map_anonymous_refusal(&self, space: u32) -> Option<Refusal>
        ensures { result ≡ refusal self.now (call_of.MapAnonymous space) }
    {
        first_of(&[
            self.no_space(space),
            is_root(space),
            self.path_mapped(space),
            self.no_room_for_space(space),
            self.no_ids(),
        ])
    }

    fn protect_refusal(&self, space: u32, writable: bool) -> Option<Refusal>
        ensures { result ≡ refusal self.now (call_of.Protect space writable) }
    {
        let mut immutable = None;
        if writable {
            immutable = self.shows_immutable(space);
        }
        first_of(&[self.no_space(space), self.not_mapped(space), immutable])
    }

    fn store_refusal(&self, address: u32, count: u8) -> Option<Refusal>
        requires { (1 ≤ count) × (count ≤ 64) }
        ensures { (bytes : List ℕ) → length bytes ≡ count → result ≡ refusal self.now (call_of.Store address bytes) }
    {
        first_of(&[self.no_map(address, count), self.read_only(address, count)])
    }

    /// The word of the first test of the call that holds.
    pub fn refusal(&self, call: &Call) -> Option<Refusal>
        requires { IsInForm call.now }
        ensures { result ≡ refusal self.now call.now }
    {
        match call {
            Call::Create { pages, kind: _ } => {
                first_of(&[self.no_room(u64::from(*pages) + 1), self.no_ids()])
            }
            Call::Delete { id } => first_of(&[self.no_file(*id), self.file_mapped(*id)]),
            Call::Attributes { id } | Call::MakePermanent { id } => self.no_file(*id),
            Call::SetSize { id, pages } => self.set_size_refusal(*id, *pages),
            Call::MakeImmutable { id } => {
                first_of(&[self.no_file(*id), self.file_mapped_writable(*id)])
            }
            Call::MakeSpace {
                parent,
                pages,
                first,
            } => self.make_space_refusal(*parent, *pages, *first),
            Call::RemoveSpace { space } => self.remove_refusal(*space),
            Call::Place { page } => past_root(*page),
            Call::Units { space, pages } => {
                first_of(&[self.no_space(*space), is_root(*space), no_unit(*pages)])
            }
            Call::Map {
                space,
                id,
                page,
                writable,
            } => self.map_refusal(*space, *id, *page, *writable),
            Call::MapAnonymous { space } => self.map_anonymous_refusal(*space),
            Call::Unmap { space } => first_of(&[self.no_space(*space), self.not_mapped(*space)]),
            Call::Protect { space, writable } => self.protect_refusal(*space, *writable),
            Call::Load { address, count } => self.no_map(*address, *count),
            Call::Store { address, bytes } => {
                self.store_refusal(*address, bytes.as_slice().len() as u8)
            }
            Call::Activate { space }
            | Call::Deactivate { space }
            | Call::Kill { space }
            | Call::ForceOut { space } => self.no_space(*space),
            Call::Next { .. } | Call::Volume | Call::Close | Call::Halt => None,
        }
    }
}

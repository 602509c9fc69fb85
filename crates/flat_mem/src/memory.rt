//! The trait, and the memory that a `&mut` lends.
ghost use Rattle.std.specs.Prelude.{◌≡◌, ℕ, ◌+◌, ◌≤◌, List, length, IfErr, OnOk, OnErr};
ghost use Rattle.flat_mem.specs.Memory.{InOnePage, overwritten, part};

/// A flat list of bytes. Each access lies within one page of 512 bytes and spends at most `COST` transfers.
///
/// Other things may stand beside the bytes, such as the rest of a disk. No access changes them.
pub trait FlatMem {
    /// What an access that failed answers.
    type Error;

    /// The most transfers that one access spends.
    const COST: u64;

    /// The same number, for clauses.
    ghost cost: { ℕ };

    /// How many bytes it has.
    ghost size: { Self → ℕ };

    /// It reveals that its bytes are these.
    ghost reveals: { Self → List ℕ → Type 0 };

    /// The transfers that were spent so far.
    ghost spent: { Self → ℕ };

    /// What stands beside the bytes was kept from the first state to the second.
    ghost beside: { Self → Self → Type 0 };

    /// From the first state to the second there were reads alone: its bytes are the same, and none of them has to be written.
    ghost only_reads: { Self → Self → Type 0 };

    /// The error is accounted for by what happened between the two states.
    ghost accounted: { Self → Self → Self.Error → Type 0 };

    /// How many bytes it has.
    fn len(&self) -> u64
        ensures { result ≡ size self.now };

    /// Reads the bytes from `at` on into `into`. Where it fails, what `into` holds is open.
    fn read(&mut self, at: u64, into: &mut [u8]) -> Result<(), Self::Error>
        requires inside { at + length into.old ≤ size self.old }
        requires in_one_page { InOnePage at (length into.old) }
        ensures read { (b : List ℕ) → reveals self.old b → OnOk result (into.new ≡ part b at (length into.old)) }
        ensures unchanged { (b : List ℕ) → reveals self.old b → reveals self.new b }
        ensures kept { beside self.old self.new }
        ensures looked { only_reads self.old self.new }
        ensures cause { IfErr result (λ e. accounted self.old self.new e) }
        ensures cost { spent self.new ≤ spent self.old + cost };

    /// Writes the bytes from `at` on, and no others. Where it fails, none of them is written.
    fn write(&mut self, at: u64, bytes: &[u8]) -> Result<(), Self::Error>
        requires inside { at + length bytes.now ≤ size self.old }
        requires in_one_page { InOnePage at (length bytes.now) }
        ensures written { (b : List ℕ) → reveals self.old b
            → OnOk result (reveals self.new (overwritten b at bytes.now)) }
        ensures unchanged { (b : List ℕ) → reveals self.old b → OnErr result (reveals self.new b) }
        ensures kept { beside self.old self.new }
        ensures cause { IfErr result (λ e. accounted self.old self.new e) }
        ensures cost { spent self.new ≤ spent self.old + cost };

    /// It reveals one list at most.
    ghost revealed_once: { (m : Self) (b c : List ℕ) → reveals m b → reveals m c → b ≡ c };

    ghost revealed_length: { (m : Self) (b : List ℕ) → reveals m b → length b ≡ size m };

    ghost same_size: { (a b : Self) → beside a b → size a ≡ size b };

    ghost beside_itself: { (m : Self) → beside m m };

    ghost beside_through: { (a b c : Self) → beside a b → beside b c → beside a c };

    ghost only_reads_itself: { (m : Self) → only_reads m m };

    ghost only_reads_through: { (a b c : Self) → only_reads a b → only_reads b c → only_reads a c };

    ghost only_reads_beside: { (a b : Self) → only_reads a b → beside a b };

    ghost only_reads_revealed: { (a b : Self) (bytes : List ℕ) → only_reads a b → reveals a bytes → reveals b bytes };

    ghost accounted_wider: { (a b c d : Self) (e : Self.Error) → beside a b → beside b c → beside c d → accounted b c e → accounted a d e };
}

impl<'m, M: FlatMem> FlatMem for &'m mut M {
    type Error = M::Error;

    const COST: u64 = M::COST;

    ghost cost = { M.cost };

    ghost size = { λ m. M.size m.now };

    ghost reveals = { λ m b. M.reveals m.now b };

    ghost spent = { λ m. M.spent m.now };

    ghost beside = { λ a b. (a.ghost_name ≡ b.ghost_name) × M.beside a.now b.now };

    ghost only_reads = { λ a b. (a.ghost_name ≡ b.ghost_name) × M.only_reads a.now b.now };

    ghost accounted = { λ a b e. M.accounted a.now b.now e };

    ghost revealed_once = { λ m b c h k. M.revealed_once m.now b c h k };

    ghost revealed_length = { λ m b h. M.revealed_length m.now b h };

    ghost same_size = { λ a b h. M.same_size a.now b.now h.1 };

    ghost beside_itself = { λ m. (Prim.cc, M.beside_itself m.now) };

    ghost beside_through = { λ a b c h k. (Prim.cc, M.beside_through a.now b.now c.now h.1 k.1) };

    ghost only_reads_itself = { λ m. (Prim.cc, M.only_reads_itself m.now) };

    ghost only_reads_through = { λ a b c h k. (Prim.cc, M.only_reads_through a.now b.now c.now h.1 k.1) };

    ghost only_reads_beside = { λ a b h. (h.0, M.only_reads_beside a.now b.now h.1) };

    ghost only_reads_revealed = { λ a b bytes h revealed. M.only_reads_revealed a.now b.now bytes h.1 revealed };

    ghost accounted_wider = { λ a b c d e h k l x. M.accounted_wider a.now b.now c.now d.now e h.1 k.1 l.1 x };

    fn len(&self) -> u64 {
        (**self).len()
    }

    fn read(&mut self, at: u64, into: &mut [u8]) -> Result<(), M::Error> {
        (**self).read(at, into)
    }

    fn write(&mut self, at: u64, bytes: &[u8]) -> Result<(), M::Error> {
        (**self).write(at, bytes)
    }
}

//! The held rows of a merge in a heap: that of the first row stands on top.
ghost use Rattle.std.specs.Prelude.{◌≡◌, ◌≢◌, ◌<◌, [], ◌∷◌, length, slice_get, Some, None, Contains, OnOk, IfSome, MatchOption, IsPermutation};
ghost use Rattle.lsm_merge.specs.declared.heads.Head.{Head};
ghost use Rattle.lsm_merge.specs.Order.{row_cmp};

use lsm_bytes::NoMemory;
use lsm_rows::Row;
use std::alloc::Global;
use std::cmp::Ordering;
use std::collections::BinaryHeap;
use std::marker::Model;

/// A row that is held, the last one that the source with this place gave. The contracts of a merge
/// name it; no call takes or gives one.
#[derive(Drop)]
pub struct Head {
    pub row: Row,
    pub place: u32,
}

// The greatest is the one whose row comes first.
fn compare_heads(a: &Head, b: &Head) -> Ordering
    ensures { result ≡ row_cmp b.now.row a.now.row }
{
    let keys = b.row.key.as_slice().cmp(a.row.key.as_slice());
    keys.then(a.row.sequence.cmp(&b.row.sequence))
}

impl PartialEq for Head {
    ghost use Rattle.std.specs.Cmp;
    ghost use Rattle.std.specs.Ordering.{eq_by_cmp};
    ghost use Rattle.std.proofs.lemmas.Cmp.{eq_by_cmp_equiv};
    ghost use Rattle.lsm_merge.specs.Order.{row_cmp};
    ghost use Rattle.lsm_merge.specs.HeadOrder.{head_total};

    ghost eq = { eq_by_cmp (λ a b. row_cmp b.row a.row) };

    ghost laws = { Cmp.partial_equiv_from_equiv (eq_by_cmp_equiv head_total) };

    fn eq(&self, other: &Self) -> bool {
        compare_heads(self, other) == Ordering::Equal
    }
}

impl Eq for Head {
    ghost use Rattle.std.proofs.lemmas.Cmp.{eq_by_cmp_equiv};
    ghost use Rattle.lsm_merge.specs.HeadOrder.{head_total};

    ghost laws = { eq_by_cmp_equiv head_total };
}

impl PartialOrd for Head {
    ghost use Rattle.std.specs.Cmp.{partial_order_from_total};
    ghost use Rattle.std.specs.Prelude.{Some};
    ghost use Rattle.lsm_merge.specs.Order.{row_cmp};
    ghost use Rattle.lsm_merge.specs.HeadOrder.{head_total};

    ghost partial_cmp = { λ a b. Some (row_cmp b.row a.row) };

    ghost laws = { partial_order_from_total head_total };

    fn partial_cmp(&self, other: &Self) -> Option<Ordering> {
        Some(self.cmp(other))
    }
}

impl Ord for Head {
    ghost use Rattle.std.proofs.Common.{rules};
    ghost use Rattle.lsm_merge.specs.Order.{row_cmp};
    ghost use Rattle.lsm_merge.specs.HeadOrder.{head_total};

    ghost cmp = { λ a b. row_cmp b.row a.row };

    ghost total = { head_total };

    ghost matches_partial_cmp = { Prim.search rules };

    ghost matches_eq = { Prim.search rules };

    fn cmp(&self, other: &Self) -> Ordering {
        compare_heads(self, other)
    }
}

/// The held rows. Contracts see them in the heap's order, and for how many there is room.
#[derive(Drop)]
pub struct Heads {
    heap: BinaryHeap<Head>,
}

impl Model for Heads {
    ghost use Rattle.std.specs.BinaryHeap.{IsHeap, heap_items, heap_capacity};
    ghost use Rattle.lsm_merge.specs.Order.{row_cmp};
    ghost use Rattle.lsm_merge.specs.Held.{Held};

    ghost Value = { Held };

    ghost view = { λ h. record { heads = heap_items h.heap; room = heap_capacity h.heap } };

    ghost invariant = { λ h. IsHeap (λ a b. row_cmp b.row a.row) (heap_items h.heap) };
}

impl Heads {
    ghost use Rattle.lsm_merge.specs.Held.{AreFrom, IsPut, IsReplaced};

    /// No rows. It takes its memory from `alloc` as rows come in.
    pub fn new(alloc: Global) -> Self
        ensures { result.heads ≡ [] }
    {
        Heads {
            heap: BinaryHeap::new(alloc),
        }
    }

    /// Makes room for one more.
    pub fn reserve(&mut self) -> Result<(), NoMemory>
        ensures ok { OnOk result (length self.new.heads < self.new.room) }
        ensures same { self.new.heads ≡ self.old.heads }
    {
        self.heap.reserve(1)?;
        Ok(())
    }

    /// The one whose row comes first; None where there are none.
    pub fn first(&self) -> Option<&Head>
        ensures top { MatchOption result (self.now.heads ≡ []) (λ head. slice_get self.now.heads 0 ≡ Some head.now) }
        ensures first { IfSome result (λ head. AreFrom head.now.row self.now.heads) }
    {
        self.heap.peek()
    }

    /// The place of the source that gave it.
    pub fn first_place(&self) -> u32
        requires { self.now.heads ≢ [] }
        ensures { IfSome (slice_get self.now.heads 0) (λ head. head.place ≡ result) }
    {
        self.heap.peek().unwrap().place
    }

    /// Holds a source's answer, if it is a row. There is room for it.
    pub fn put(&mut self, answer: Option<Row>, place: u32)
        requires { length self.old.heads < self.old.room }
        ensures { IsPut answer place self.old.heads self.new.heads }
    {
        if let Some(row) = answer {
            self.heap.push(Head { row, place }).unwrap();
        }
    }

    /// Takes the first one, in whose place its source's next answer comes, if that is a row.
    pub fn replace(&mut self, answer: Option<Row>) -> Head
        requires { self.old.heads ≢ [] }
        ensures top { slice_get self.old.heads 0 ≡ Some result }
        ensures first { AreFrom result.row self.old.heads }
        ensures replaced { IsReplaced answer result self.old.heads self.new.heads }
    {
        let head = self.heap.pop().unwrap();
        let place = head.place;
        self.put(answer, place);
        head
    }
}

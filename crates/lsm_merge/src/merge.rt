//! Merging the rows of several sources.
ghost use Rattle.std.specs.Prelude.{◌≡◌, ◌≢◌, ◌+◌, ◌<◌, ◌≤◌, ◌^◌, [], length, map, slice_get, Contains, Some, None, IsTrue, IsFalse, OnOk, OnErr, IfOk, IfErr, IfSome, MatchOption};
ghost use Rattle.std.specs.Borrow.{Lends, sem};
ghost use Rattle.lsm_merge.specs.Merging.{Merging, IsReady, IsNext, IsOver, IsAhead, KeepsRows, ToldFaults, HasCause};

use crate::faults::MergeFault;
use crate::heads::Heads;
use crate::sources::RowSource;
use lsm_rows::Row;
use std::alloc::Global;
use std::marker::Model;

/// A merge of sorted sources. It gives each user key once, with its newest row, in the order of
/// keys. Contracts see the row that was found and isn't given yet, the held rows, how many sources
/// were asked, and the sources.
#[derive(Drop)]
pub struct Merge<R> {
    sources: Vec<R>,
    heads: Heads,
    asked: u32,
    found: Option<Row>,
}

impl<R> Model for Merge<R> {
    ghost use Rattle.lsm_merge.specs.Merging.{Merging};

    ghost Value = { Merging R };

    ghost view = { λ m. record { found = m.found; heads = m.heads.heads; asked = m.asked; sources = m.sources.items } };
}

impl<R: RowSource> Merge<R> {
    ghost use Rattle.lsm_merge.specs.Steps.{HasMore, IsSettled, IsFound, IsStep, rows_ahead, rows_to_come};
    ghost use Rattle.lsm_merge.specs.Merging.{with_source};
    ghost use Rattle.lsm_merge.specs.contracts.merge.Merge.{the_row};

    /// A merge of these sources, of which none was asked; fewer than 2^32. It takes its memory
    /// from `alloc` as it is asked.
    pub fn new(alloc: Global, sources: Vec<R>) -> Self
        requires { length sources.items < 2 ^ 32 }
        ensures { result ≡ record { found = None; heads = []; asked = 0; sources = sources.items } }
    {
        Merge {
            sources,
            heads: Heads::new(alloc),
            asked: 0,
            found: None,
        }
    }

    /// Gives the next user key's newest row; None where no row is left and all sources are at
    /// their end. After a refusal no row is lost, and the call may be made again.
    pub fn next(&mut self) -> Result<Option<Row>, MergeFault<R::Fault>>
        requires { IsReady R.left R.ended self.old }
        ensures ok { IfOk result (λ row. MatchOption row (IsOver R.left R.ended self.old self.new)
            (λ next. IsNext R.left self.old next self.new)) }
        ensures fewer { IfOk result (λ row. IfSome row (λ _. rows_to_come R.left self.new < rows_to_come R.left self.old)) }
        ensures asked { OnOk result (self.new.asked ≡ length self.new.sources) }
        ensures count { rows_to_come R.left self.new ≤ rows_to_come R.left self.old }
        ensures err { OnErr result (KeepsRows R.left self.old self.new) }
        ensures cause { IfErr result (λ fault. HasCause R.fault fault self.new.sources) }
        ensures answers { ToldFaults R.fault result self.old.sources self.new.sources }
        ensures ahead { IsAhead R.left R.ended self.old self.new }
        ensures ready { IsReady R.left R.ended self.new }
        ensures whole { map R.whole self.new.sources ≡ map R.whole self.old.sources }
    {
        self.find()?;
        Ok(self.found.take())
    }

    /// Lends a source, so that rows may be added behind those that it has left, each past every
    /// row that it gave, and that it may learn that none follow.
    pub fn source(&mut self, place: u32) -> &mut R
        requires { place < length self.old.sources }
        ensures* writes_back { sem 𝓛 (Lends (the_row R.row) R.row self.entry result (with_source self.old place)) }
        ensures source { slice_get self.old.sources place ≡ Some result.now }
    {
        &mut self.sources[place as usize]
    }

    // Finds the next user key's newest row, and holds of each source that isn't at its end a row
    // of a later user key.
    fn find(&mut self) -> Result<(), MergeFault<R::Fault>>
        requires { IsReady R.left R.ended self.old }
        ensures step { IsStep R.left R.ended R.fault result self.old self.new }
        ensures ok { OnOk result (IsFound self.new) }
        ensures whole { map R.whole self.new.sources ≡ map R.whole self.old.sources }
    {
        self.ask_all()?;
        while self.has_more() {
            self.take_first()?;
        }
        Ok(())
    }

    // Asks the sources that weren't asked yet.
    fn ask_all(&mut self) -> Result<(), MergeFault<R::Fault>>
        requires { IsReady R.left R.ended self.old }
        ensures step { IsStep R.left R.ended R.fault result self.old self.new }
        ensures ok { OnOk result (self.new.asked ≡ length self.new.sources) }
        ensures whole { map R.whole self.new.sources ≡ map R.whole self.old.sources }
    {
        while (self.asked as usize) < self.sources.as_slice().len() {
            self.ask_next()?;
        }
        Ok(())
    }

    // Asks the next source of those that weren't asked yet.
    fn ask_next(&mut self) -> Result<(), MergeFault<R::Fault>>
        requires ready { IsReady R.left R.ended self.old }
        requires more { self.old.asked < length self.old.sources }
        ensures step { IsStep R.left R.ended R.fault result self.old self.new }
        ensures ok { OnOk result (self.new.asked ≡ self.old.asked + 1) }
        ensures whole { map R.whole self.new.sources ≡ map R.whole self.old.sources }
    {
        if self.heads.reserve().is_err() {
            return Err(MergeFault::NoMemory);
        }
        let place = self.asked;
        match self.sources[place as usize].next() {
            Ok(answer) => {
                self.heads.put(answer, place);
                self.asked = place + 1;
                Ok(())
            }
            Err(fault) => Err(MergeFault::Source { place, fault }),
        }
    }

    // Whether the first held row belongs to what is found: no row is found yet, or it is of the
    // found row's user key.
    fn has_more(&self) -> bool
        requires { IsReady R.left R.ended self.now }
        ensures more { IsTrue result → HasMore self.now }
        ensures settled { IsFalse result → IsSettled self.now }
    {
        match self.heads.first() {
            Some(head) => match &self.found {
                Some(row) => head.row.key.as_slice() == row.key.as_slice(),
                None => true,
            },
            None => false,
        }
    }

    // Takes the first held row, which is found, or no newer than the found one of its user key.
    // Its source's next row is held in its stead.
    fn take_first(&mut self) -> Result<(), MergeFault<R::Fault>>
        requires ready { IsReady R.left R.ended self.old }
        requires more { HasMore self.old }
        requires asked { self.old.asked ≡ length self.old.sources }
        ensures step { IsStep R.left R.ended R.fault result self.old self.new }
        ensures asked { self.new.asked ≡ length self.new.sources }
        ensures fewer { OnOk result (rows_ahead R.left self.new < rows_ahead R.left self.old) }
        ensures whole { map R.whole self.new.sources ≡ map R.whole self.old.sources }
    {
        let place = self.heads.first_place();
        match self.sources[place as usize].next() {
            Ok(answer) => {
                let head = self.heads.replace(answer);
                self.found = Some(self.found.take().unwrap_or(head.row));
                Ok(())
            }
            Err(fault) => Err(MergeFault::Source { place, fault }),
        }
    }
}

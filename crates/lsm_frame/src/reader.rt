//! The reader of a log.
ghost use Rattle.std.specs.Prelude.{◌≡◌, ◌+◌, ◌*◌, ◌≤◌, ℕ, List, Some, None, IfErr, IfSome};
ghost use Rattle.lsm_io.specs.Causes.{Rose};
ghost use Rattle.lsm_frame.specs.Reader.{Tells, Stays, IsRecord, EndsBehind, ending_of, record_in};
ghost use Rattle.lsm_frame.specs.declared.next.FrameError.TheVariants.{ReadFault};

use crate::Ending;
use crate::found::{Found, read_record};
use crate::loaded::Loaded;
use crate::next::{FrameError, Next};
use lsm_disk::View;
use std::alloc::Global;
use std::marker::Model;

/// Reads the records of a view from its start on, one after the other. Contracts see what is seen of the view, how many
/// records were given, where the last one begins, and how the text ends, where the reader came to its end.
///
/// The view is read block by block, each block once unless a refusal came in the midst of a record. The reader keeps one
/// block, and memory grows with the bytes that were read, never with a length that the text claims.
#[derive(Drop)]
pub struct FrameReader<V: View> {
    alloc: Global,
    view: V,
    loaded: Loaded,
    at: u64,
    given: u64,
    place: u64,
    ended: Option<Ending>,
}

impl<V: View> Model for FrameReader<V> {
    ghost use Rattle.lsm_frame.specs.Reader.{Reader};
    ghost use Rattle.lsm_frame.specs.Found.{Agrees};

    ghost Value = { Reader };

    ghost view = { λ r. record { viewed = V.viewed r.view; given = r.given; place = r.place; ended = r.ended } };

    ghost invariant = { λ r. Agrees (V.viewed r.view) r.loaded.buffer.items r.loaded.base r.given r.at r.ended };
}

impl<V: View> FrameReader<V> {
    /// A reader at the start of a view. It takes no memory and reads nothing yet, and grows by the allocator that it
    /// keeps.
    pub fn new(alloc: Global, view: V) -> Self
        ensures { result ≡ record { viewed = V.viewed view; given = 0; place = 0; ended = None } }
    {
        FrameReader {
            alloc,
            view,
            loaded: Loaded {
                buffer: Vec::new(alloc),
                base: None,
            },
            at: 0,
            given: 0,
            place: 0,
            ended: None,
        }
    }

    /// The next record, or how the text ends. An end is answered again by each later call, which reads nothing. After a
    /// `ReadFault` or `NoMemory` the next call looks for the same record.
    pub fn next(&mut self) -> Result<Next, FrameError>
        ensures record { (text : List ℕ) → Tells self.old.viewed text →
            IfSome (record_in result) (λ payload. IsRecord text self.old.given self.new.place payload) }
        ensures end { (text : List ℕ) → Tells self.old.viewed text →
            IfSome (ending_of result) (λ ending. EndsBehind text self.old.given ending) }
        ensures given { IfSome (record_in result) (λ _. self.new.given ≡ self.old.given + 1) }
        ensures same { record_in result ≡ None → (self.new.given ≡ self.old.given) × (self.new.place ≡ self.old.place) }
        ensures ended { self.new.ended ≡ ending_of result }
        ensures again { IfSome self.old.ended (λ ending. (ending_of result ≡ Some ending) × (self.new ≡ self.old)) }
        ensures few { 7 * self.new.given ≤ self.new.viewed.len }
        ensures view { Stays self.old.viewed self.new.viewed }
        ensures cause { IfErr result (λ e. (e ≡ ReadFault) → Rose self.old.viewed.faults self.new.viewed.faults) }
    {
        if let Some(ending) = self.ended {
            return answer(ending);
        }
        match read_record(&mut self.view, &mut self.loaded, self.alloc, self.at)? {
            Found::Over(ending) => {
                self.ended = Some(ending);
                answer(ending)
            }
            Found::Record {
                place,
                next,
                payload,
            } => {
                self.at = next;
                self.place = place;
                self.given += 1;
                Ok(Next::Record(payload))
            }
        }
    }

    /// Where the record begins that `next` gave last, in bytes from the start of the view; 0 where it gave none.
    pub fn place(&self) -> u64
        ensures { result ≡ self.now.place }
    {
        self.place
    }

    /// Hands the view back.
    pub fn into_view(self) -> V
        ensures { V.viewed result ≡ self.viewed }
    {
        self.view
    }
}

/// How a reader answers that the text ends so.
fn answer(ending: Ending) -> Result<Next, FrameError>
    ensures end { ending_of result ≡ Some ending }
    ensures record { record_in result ≡ None }
    ensures cause { IfErr result (λ e. (e ≡ ReadFault) → ⊥) }
{
    match ending {
        Ending::End => Ok(Next::End),
        Ending::Torn { place } => Ok(Next::Torn { place }),
        Ending::Damaged { place, kept, found } => Err(FrameError::Damaged { place, kept, found }),
        Ending::Malformed { place } => Err(FrameError::Malformed { place }),
    }
}

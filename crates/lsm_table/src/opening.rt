//! The parts of a table, read through a view of it.
ghost use Rattle.std.specs.Prelude.{◌≡◌, ◌+◌, ◌≤◌, ◌^◌, ◌<◌, Ok, ℕ, List, All, length, IfOk, IfErr};
ghost use Rattle.lsm_io.specs.Causes.{Rose};
ghost use Rattle.lsm_frame.specs.Reader.{Tells, Stays};
ghost use Rattle.lsm_table.specs.declared.faults.TableFault.TheVariants.{ReadFault};
ghost use Rattle.std.specs.Bool.{OnTrue, OnFalse};
ghost use Rattle.lsm_table.specs.DataBlocks.{IsStoredBlock, IsStoredFault};
ghost use Rattle.lsm_table.specs.Opening.{part_at, footer_of, contents_at, properties_at, IsIndex, IsFaultOf, IsIndexFault, IsOutside, Opens, IsRefused, TellsBlock};

use crate::building::{FOOTER, PROPERTIES};
use crate::faults::TableFault;
use crate::index::tell_blocks;
use crate::parts::{Places, Properties, contents_in, footer_in, properties_in};
use crate::storing::BEHIND;
use lsm_block::{Block, BlockError};
use lsm_bytes::{Bytes, NoMemory};
use lsm_disk::View;
use std::alloc::Global;

// Room for so many bytes.
fn room(alloc: Global, len: usize) -> Result<Vec<u8>, NoMemory>
    ensures { IfOk result (λ room. length room.items ≡ len) }
{
    let room = vec![in alloc; 0; len]?;
    Ok(room)
}

// So many bytes from a place on. They are there, so memory is never asked for by a length that a table only claims.
#[tactic(auto, unfolding(crate::specs::Opening::IsOutside))]
fn read_part<V: View>(
    alloc: Global,
    view: &mut V,
    place: u64,
    len: usize,
) -> Result<Bytes, TableFault>
    requires { place + len ≤ (V.viewed view.old).len }
    ensures part { IfOk result (λ part. (text : List ℕ) → Tells (V.viewed view.old) text → part ≡ part_at place len text) }
    ensures len { IfOk result (λ part. length part ≡ len) }
    ensures outside { IfErr result IsOutside }
    ensures view { Stays (V.viewed view.old) (V.viewed view.new) }
    ensures cause { IfErr result (λ e. e ≡ ReadFault → Rose (V.viewed view.old).faults (V.viewed view.new).faults) }
{
    let mut part = room(alloc, len)?;
    view.read_at(place, &mut part)?;
    Ok(Bytes::from_vec(part))
}

// The contents of so many bytes that are stored at a place.
pub(crate) fn read_contents<V: View>(
    alloc: Global,
    view: &mut V,
    place: u64,
    len: u64,
) -> Result<Bytes, TableFault>
    requires there { place + len + 5 ≤ (V.viewed view.old).len }
    requires fits { len + 5 < 2 ^ 64 }
    ensures ok { IfOk result (λ contents. (text : List ℕ) → Tells (V.viewed view.old) text → contents_at place len text ≡ Ok contents) }
    ensures err { IfErr result (λ e. (text : List ℕ) → Tells (V.viewed view.old) text → IsFaultOf (contents_at place len text) e) }
    ensures len { IfOk result (λ contents. length contents ≡ len) }
    ensures there { (text : List ℕ) → Tells (V.viewed view.old) text → place + len + 5 ≤ length text }
    ensures view { Stays (V.viewed view.old) (V.viewed view.new) }
    ensures cause { IfErr result (λ e. e ≡ ReadFault → Rose (V.viewed view.old).faults (V.viewed view.new).faults) }
{
    let mut part = read_part(alloc, view, place, len as usize + BEHIND)?;
    contents_in(place, part.as_slice())?;
    part.truncate(len as usize);
    Ok(part)
}

// What the footer tells.
fn read_footer<V: View>(alloc: Global, view: &mut V) -> Result<Places, TableFault>
    ensures ok { IfOk result (λ places. (text : List ℕ) → Tells (V.viewed view.old) text → footer_of text ≡ Ok places) }
    ensures err { IfErr result (λ e. (text : List ℕ) → Tells (V.viewed view.old) text → IsFaultOf (footer_of text) e) }
    ensures index { IfOk result (λ places. places.index + places.len + 5 ≡ places.properties) }
    ensures properties { IfOk result (λ places. places.properties + 77 ≡ (V.viewed view.old).len) }
    ensures view { Stays (V.viewed view.old) (V.viewed view.new) }
    ensures cause { IfErr result (λ e. e ≡ ReadFault → Rose (V.viewed view.old).faults (V.viewed view.new).faults) }
{
    let len = view.len();
    if len < FOOTER as u64 {
        return Err(TableFault::Malformed { place: 0 });
    }
    let place = len - FOOTER as u64;
    let footer = read_part(alloc, view, place, FOOTER)?;
    footer_in(place, footer.as_slice())
}

// The index where the footer tells it.
fn read_index<V: View>(alloc: Global, view: &mut V, places: Places) -> Result<Block, TableFault>
    requires there { places.index + places.len + 5 ≤ (V.viewed view.old).len }
    requires fits { places.len + 5 < 2 ^ 64 }
    ensures ok { IfOk result (λ index. (text : List ℕ) → Tells (V.viewed view.old) text → IsIndex text places index) }
    ensures places { IfOk result (λ index. All TellsBlock index) }
    ensures err { IfErr result (λ e. (text : List ℕ) → Tells (V.viewed view.old) text → IsIndexFault text places e) }
    ensures view { Stays (V.viewed view.old) (V.viewed view.new) }
    ensures cause { IfErr result (λ e. e ≡ ReadFault → Rose (V.viewed view.old).faults (V.viewed view.new).faults) }
{
    let contents = read_contents(alloc, view, places.index, places.len)?;
    match Block::parse(alloc, contents) {
        Ok(index) => {
            if tell_blocks(index.entries()) {
                Ok(index)
            } else {
                Err(TableFault::Malformed {
                    place: places.index,
                })
            }
        }
        Err(BlockError::Malformed { .. }) => Err(TableFault::Malformed {
            place: places.index,
        }),
        Err(BlockError::NoMemory) => Err(TableFault::NoMemory),
    }
}

// The properties at a place.
fn read_properties<V: View>(
    alloc: Global,
    view: &mut V,
    place: u64,
) -> Result<Properties, TableFault>
    requires { place + 41 ≤ (V.viewed view.old).len }
    ensures ok { IfOk result (λ properties. (text : List ℕ) → Tells (V.viewed view.old) text → properties_at place text ≡ Ok properties) }
    ensures err { IfErr result (λ e. (text : List ℕ) → Tells (V.viewed view.old) text → IsFaultOf (properties_at place text) e) }
    ensures view { Stays (V.viewed view.old) (V.viewed view.new) }
    ensures cause { IfErr result (λ e. e ≡ ReadFault → Rose (V.viewed view.old).faults (V.viewed view.new).faults) }
{
    let contents = read_contents(alloc, view, place, (PROPERTIES - BEHIND) as u64)?;
    properties_in(place, contents.as_slice())
}

/// The properties of a table, and its index.
pub(crate) fn read_ends<V: View>(
    alloc: Global,
    view: &mut V,
) -> Result<(Properties, Block), TableFault>
    ensures ok { IfOk result (λ ends. (text : List ℕ) → Tells (V.viewed view.old) text → Opens text ends.0 ends.1) }
    ensures places { IfOk result (λ ends. All TellsBlock ends.1) }
    ensures err { IfErr result (λ e. (text : List ℕ) → Tells (V.viewed view.old) text → IsRefused text e) }
    ensures view { Stays (V.viewed view.old) (V.viewed view.new) }
    ensures cause { IfErr result (λ e. e ≡ ReadFault → Rose (V.viewed view.old).faults (V.viewed view.new).faults) }
{
    let places = read_footer(alloc, view)?;
    let index = read_index(alloc, view, places)?;
    let properties = read_properties(alloc, view, places.properties)?;
    Ok((properties, index))
}

// Whether contents of so many bytes can be stored at a place of a table of this length.
fn is_there(size: u64, place: u64, len: u64) -> bool
    ensures yes { OnTrue result (place + len + 5 ≤ size) }
    ensures no { OnFalse result (size < place + len + 5) }
{
    u128::from(place) + u128::from(len) + BEHIND as u128 <= u128::from(size)
}

/// The block whose contents, of so many bytes, are stored at a place.
pub(crate) fn read_block<V: View>(
    alloc: Global,
    view: &mut V,
    place: u64,
    len: u64,
) -> Result<Block, TableFault>
    ensures ok { IfOk result (λ block. (text : List ℕ) → Tells (V.viewed view.old) text → IsStoredBlock text place len block) }
    ensures err { IfErr result (λ e. (text : List ℕ) → Tells (V.viewed view.old) text → IsStoredFault text place len e) }
    ensures view { Stays (V.viewed view.old) (V.viewed view.new) }
    ensures cause { IfErr result (λ e. e ≡ ReadFault → Rose (V.viewed view.old).faults (V.viewed view.new).faults) }
{
    if !is_there(view.len(), place, len) {
        return Err(TableFault::Malformed { place });
    }
    let contents = read_contents(alloc, view, place, len)?;
    match Block::parse(alloc, contents) {
        Ok(block) => Ok(block),
        Err(BlockError::Malformed { .. }) => Err(TableFault::Malformed { place }),
        Err(BlockError::NoMemory) => Err(TableFault::NoMemory),
    }
}

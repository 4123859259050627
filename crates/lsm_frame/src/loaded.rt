//! The block of a view that is in memory.
ghost use Rattle.std.specs.Prelude.{◌≡◌, ◌-◌, ◌%◌, ◌<◌, ◌≤◌, ◌^◌, Some, length, take, drop, OnOk, IfErr};
ghost use Rattle.lsm_io.specs.Causes.{Rose};
ghost use Rattle.lsm_frame.specs.Loaded.{size_at, base_of, IsLoaded, Loads};
ghost use Rattle.lsm_frame.specs.Reader.{Stays};
ghost use Rattle.lsm_frame.specs.declared.next.Refusal.TheVariants.{ReadFault};

use crate::next::Refusal;
use crate::pieces::BLOCK;
use lsm_bytes::NoMemory;
use lsm_disk::View;
use std::alloc::Global;

/// The block of a view that is in memory.
#[derive(Drop)]
pub(crate) struct Loaded {
    /// Room for the view's first block, which is its longest; none before the first read.
    pub(crate) buffer: Vec<u8>,
    /// Where the block begins that is in memory.
    pub(crate) base: Option<u64>,
}

/// How many bytes of a view of this length lie in the block that begins here.
fn size_at(len: u64, base: u64) -> usize
    requires { base ≤ len }
    ensures { result ≡ size_at len base }
{
    (len - base).min(BLOCK as u64) as usize
}

/// Makes room for the first block of a view of this length.
fn make_room(buffer: &mut Vec<u8>, len: u64, alloc: Global) -> Result<(), NoMemory>
    ensures { OnOk result (size_at len 0 ≤ length buffer.new.items) }
{
    let size = size_at(len, 0);
    if buffer.len() < size {
        *buffer = vec![in alloc; 0; size]?;
    }
    Ok(())
}

/// Reads a block into the front of the buffer.
fn read_block<V: View>(view: &mut V, buffer: &mut [u8], base: u64) -> Result<(), Refusal>
    requires base { base ≤ (V.viewed view.old).len }
    requires room { size_at (V.viewed view.old).len base ≤ length buffer.old }
    ensures loaded { OnOk result (IsLoaded (V.viewed view.new) buffer.new base) }
    ensures stays { Stays (V.viewed view.old) (V.viewed view.new) }
    ensures cause { IfErr result (λ e. (e ≡ ReadFault) → Rose (V.viewed view.old).faults (V.viewed view.new).faults) }
{
    let size = size_at(view.len(), base);
    view.read_at(base, buffer.split_at_mut(size).0)?;
    Ok(())
}

/// Brings the block of a place into memory, where it isn't there.
pub(crate) fn bring<V: View>(
    view: &mut V,
    loaded: &mut Loaded,
    alloc: Global,
    at: u64,
) -> Result<(), Refusal>
    requires at { at ≤ (V.viewed view.old).len }
    requires loads { Loads (V.viewed view.old) loaded.old.buffer.items loaded.old.base }
    ensures base { OnOk result (loaded.new.base ≡ Some (base_of at)) }
    ensures loads { Loads (V.viewed view.new) loaded.new.buffer.items loaded.new.base }
    ensures stays { Stays (V.viewed view.old) (V.viewed view.new) }
    ensures cause { IfErr result (λ e. (e ≡ ReadFault) → Rose (V.viewed view.old).faults (V.viewed view.new).faults) }
{
    let base = at - at % BLOCK as u64;
    if loaded.base == Some(base) {
        return Ok(());
    }
    loaded.base = None;
    make_room(&mut loaded.buffer, view.len(), alloc)?;
    read_block(view, &mut loaded.buffer, base)?;
    loaded.base = Some(base);
    Ok(())
}

/// The bytes from a place on that are there of its block.
pub(crate) fn rest_of(buffer: &[u8], len: u64, at: u64) -> &[u8]
    requires at { at ≤ len }
    requires room { size_at len (base_of at) ≤ length buffer.now }
    ensures { result.now ≡ drop (at % 32768) (take (size_at len (base_of at)) buffer.now) }
{
    let offset = at % BLOCK as u64;
    let size = size_at(len, at - offset);
    &buffer[offset as usize..size]
}

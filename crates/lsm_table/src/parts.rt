//! The parts of a table that an opening looks at, each in its bytes.
ghost use Rattle.std.specs.Prelude.{◌≡◌, ◌≢◌, ◌+◌, ◌-◌, ◌≤◌, ◌<◌, Ok, Err, true, length, take, IfOk, IfErr};
ghost use Rattle.lsm_table.specs.declared.faults.TableFault.TheVariants.{ReadFault};
ghost use Rattle.lsm_table.specs.Opening.{places_in, lie_in_turn, footer_in, contents_in, properties_in};

use crate::building::{FOOTER, MAGIC, PROPERTIES};
use crate::faults::TableFault;
use crate::storing::{BEHIND, checksum};
use lsm_bytes::{Malformed, mask, read_u32, read_u64};
use lsm_names::{SESSION_LENGTH, Session};

/// Where the last parts begin, in bytes from the table's start, and how long the index's contents are.
#[derive(Clone, Copy, Debug, PartialEq, Eq)]
pub(crate) struct Places {
    pub(crate) index: u64,
    pub(crate) len: u64,
    pub(crate) properties: u64,
}

/// What a table says of itself.
#[derive(Clone, Copy, Debug, PartialEq, Eq)]
pub struct Properties {
    /// The number that it has in its store.
    pub number: u64,
    /// The session of the store that wrote it.
    pub session: Session,
    /// How many rows it has.
    pub rows: u64,
}

// The places that a footer tells.
fn places_of(footer: &[u8]) -> Result<Places, Malformed>
    requires { length footer.now ≡ 36 }
    ensures { result ≡ Ok (places_in footer.now) }
{
    Ok(Places {
        index: read_u64(footer, 0)?,
        len: read_u64(footer, 8)?,
        properties: read_u64(footer, 16)?,
    })
}

// Whether index, properties and footer lie directly behind each other.
fn lie_in_turn(places: Places, footer: u64) -> bool
    ensures { result ≡ lie_in_turn places footer }
{
    let index_ends = u128::from(places.index) + u128::from(places.len) + BEHIND as u128;
    let properties_end = u128::from(places.properties) + PROPERTIES as u128;
    index_ends == u128::from(places.properties) && properties_end == u128::from(footer)
}

/// What the footer at a place tells, of which these are the 36 bytes.
#[tactic(auto, unfolding(crate::specs::Opening::footer_in))]
pub(crate) fn footer_in(place: u64, footer: &[u8]) -> Result<Places, TableFault>
    requires { length footer.now ≡ 36 }
    ensures told { result ≡ footer_in place footer.now }
    ensures inside { IfErr result (λ fault. fault ≢ ReadFault) }
    ensures in_turn { IfOk result (λ places. lie_in_turn places place ≡ true) }
{
    if footer.split_at(FOOTER - MAGIC.len()).1 != MAGIC.as_slice() {
        return Err(TableFault::Malformed { place });
    }
    let (Ok(places), Ok(kept)) = (places_of(footer), read_u32(footer, 24)) else {
        return Err(TableFault::Malformed { place });
    };
    let found = mask(checksum(footer.split_at(24).0));
    if kept != found {
        return Err(TableFault::Damaged { place, kept, found });
    }
    if !lie_in_turn(places, place) {
        return Err(TableFault::Malformed { place });
    }
    Ok(places)
}

/// The contents that are stored in a part, which begins at a place.
#[tactic(auto, unfolding(crate::specs::Opening::contents_in))]
pub(crate) fn contents_in(place: u64, part: &[u8]) -> Result<&[u8], TableFault>
    requires { 5 ≤ length part.now }
    ensures ok { IfOk result (λ contents. contents_in place part.now ≡ Ok contents.now) }
    ensures err { IfErr result (λ fault. contents_in place part.now ≡ Err fault) }
    ensures inside { IfErr result (λ fault. fault ≢ ReadFault) }
    ensures front { IfOk result (λ contents. contents.now ≡ take (length part.now - 5) part.now) }
{
    let len = part.len() - BEHIND;
    if part[len] != 0 {
        return Err(TableFault::Malformed { place });
    }
    let Ok(kept) = read_u32(part, len + 1) else {
        return Err(TableFault::Malformed { place });
    };
    let found = mask(checksum(part.split_at(len + 1).0));
    if kept != found {
        return Err(TableFault::Damaged { place, kept, found });
    }
    Ok(part.split_at(len).0)
}

/// The properties that contents of 36 bytes tell, which are stored at a place.
#[tactic(auto, unfolding(crate::specs::Opening::properties_in))]
pub(crate) fn properties_in(place: u64, contents: &[u8]) -> Result<Properties, TableFault>
    requires { length contents.now ≡ 36 }
    ensures told { result ≡ properties_in place contents.now }
    ensures inside { IfErr result (λ fault. fault ≢ ReadFault) }
{
    let mut name = [0u8; SESSION_LENGTH];
    name.copy_from_slice(contents.split_at(8).1.split_at(SESSION_LENGTH).0);
    let Some(session) = Session::new(name) else {
        return Err(TableFault::Malformed { place });
    };
    let (Ok(number), Ok(rows)) = (read_u64(contents, 0), read_u64(contents, 28)) else {
        return Err(TableFault::Malformed { place });
    };
    Ok(Properties {
        number,
        session,
        rows,
    })
}

//! The actors that a script has named.
ghost use Rattle.std.specs.Prelude.{◌≡◌, [], OnOk, IfOk, take, length, ◌≤◌};
ghost use Rattle.ldb_script.specs.Plain.{is_known, has_place, with_actor, line_at};

use crate::line::{Line, parse_line};
use lsm_bytes::{Bytes, NoMemory};
use std::alloc::Global;
use std::marker::Model;

/// How many actors a script has at most.
const MOST: usize = 64;

/// The actors that lines have named, the first first. Contracts see the list of their names.
#[derive(Drop)]
pub struct Actors {
    alloc: Global,
    names: Vec<Bytes>,
}

impl Model for Actors {
    ghost use Rattle.std.specs.Prelude.{List, ℕ};

    ghost Value = { List (List ℕ) };

    ghost view = { λ a. a.names.items };
}

impl Actors {
    /// Nobody was named.
    pub fn new(alloc: Global) -> Self
        ensures { result ≡ [] }
    {
        Actors {
            alloc,
            names: Vec::new(alloc),
        }
    }

    fn is_known(&self, actor: &[u8]) -> bool
        ensures { result ≡ is_known self.now actor.now }
    {
        for name in &self.names {
            if actor == name.as_slice() {
                return true;
            }
        }
        false
    }

    fn has_place(&self, actor: &[u8]) -> bool
        ensures { result ≡ has_place self.now actor.now }
    {
        self.is_known(actor) || self.names.len() < MOST
    }

    /// Notes that a line named this actor.
    pub fn name(&mut self, actor: &[u8]) -> Result<(), NoMemory>
        ensures { OnOk result (self.new ≡ with_actor self.old actor.now) }
    {
        if self.is_known(actor) {
            return Ok(());
        }
        let actor = Bytes::from_slice(self.alloc, actor)?;
        self.names.push(actor)?;
        Ok(())
    }

    /// What a line asks for, where it is in the grammar behind the lines so far.
    #[tactic(auto, unfolding(crate::specs::Plain::line_at))]
    pub fn parse(&self, alloc: Global, line: &[u8]) -> Result<Option<Line>, NoMemory>
        requires { length line.now ≤ 8388608 }
        ensures { IfOk result (λ parsed. parsed ≡ line_at self.now line.now) }
    {
        match parse_line(alloc, line)? {
            None => Ok(None),
            Some(Line::Blank) => Ok(Some(Line::Blank)),
            Some(Line::Ask { actor, command }) => {
                if self.has_place(actor.as_slice()) {
                    Ok(Some(Line::Ask { actor, command }))
                } else {
                    Ok(None)
                }
            }
        }
    }
}

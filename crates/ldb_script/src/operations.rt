//! The operations that a line names, at least one.
ghost use Rattle.std.specs.Prelude.{◌≡◌, ◌≤◌, length, Some};
ghost use Rattle.ldb_script.specs.Script.{some_of, one_of};

use lsm_rows::Op;
use std::marker::Model;

/// At least one operation. No limit was tested yet. Contracts see the list of them.
#[derive(Drop)]
pub struct Operations {
    ops: Vec<Op>,
}

impl Model for Operations {
    ghost use Rattle.std.specs.Prelude.{List, ◌≤◌, length};
    ghost use Rattle.lsm_rows.specs.declared.operations.Op.{Op};

    ghost Value = { List Op };

    ghost view = { λ o. o.ops.items };

    ghost invariant = { λ o. 1 ≤ length o.ops.items };
}

impl Operations {
    /// These, where there is at least one.
    pub fn some_of(ops: Vec<Op>) -> Option<Operations>
        ensures { result ≡ some_of (Some ops.items) }
    {
        if ops.is_empty() {
            None
        } else {
            Some(Operations { ops })
        }
    }

    /// These, where there is exactly one.
    pub fn one_of(ops: Vec<Op>) -> Option<Operations>
        ensures { result ≡ one_of (Some ops.items) }
    {
        if ops.len() == 1 {
            Some(Operations { ops })
        } else {
            None
        }
    }

    /// The operations, in their order.
    pub fn as_slice(&self) -> &[Op]
        ensures ops { result.now ≡ self.now }
        ensures some { 1 ≤ length self.now }
    {
        &self.ops
    }
}

// A sheet with its own tables, as a type: what the calls that answer go by, once the lent tables have been compared with the sheet. A contract sees the sheet.

ghost use Rattle.std.specs.Prelude.{◌≡◌, ℕ, List, ltb, length};
ghost use Rattle.tree.specs.Labels.{label_table};
ghost use Rattle.tree.specs.Tour.{tour_table};
ghost use Rattle.tree.specs.Lifts.{lift_table};
ghost use Rattle.tree.specs.Preorder.{preorder};
ghost use Rattle.tree.specs.Nodes.{Small};
ghost use Rattle.tree.specs.Tables.{own, lent_in};

use crate::Lent;
use std::marker::Model;

// "An accepted sheet, lent with its own tables."
#[derive(Drop)]
pub struct OwnTables<'a> {
    lent: Lent<'a, 'a>,
}

impl<'a> Model for OwnTables<'a> {
    ghost Value = { List ℕ };

    ghost view = { λ t. t.lent.parents.now };

    ghost invariant = { λ t. Small t.lent.parents.now × (lent_in t.lent ≡ own t.lent.parents.now) };
}

impl<'a> OwnTables<'a> {
    // What was lent, where it is that.
    pub fn new(lent: Lent<'a, 'a>) -> OwnTables<'a>
        requires { Small lent.parents.now × (lent_in lent ≡ own lent.parents.now) }
        ensures { result ≡ lent.entry.parents.now }
    {
        OwnTables { lent }
    }

    // How many parts the sheet has.
    #[inline(always)]
    pub fn len(&self) -> usize
        ensures { result ≡ length self.now }
    {
        self.lent.parents.len()
    }

    // Whether a number is one of its parts: it is one rooted tree of at most 16,384.
    pub fn has_part(&self, part: usize) -> bool
        ensures value { result ≡ ltb part (length self.now) }
        ensures small { Small self.now }
    {
        part < self.lent.parents.len()
    }

    // The sheet.
    #[inline(always)]
    pub fn parents(&self) -> &'a [u16]
        ensures { result.now ≡ self.now }
    {
        self.lent.parents
    }

    // Its label table.
    #[inline(always)]
    pub fn label(&self) -> &'a [u16]
        ensures { result.now ≡ label_table self.now }
    {
        self.lent.label
    }

    // Its tour table.
    #[inline(always)]
    pub fn tour(&self) -> &'a [u16]
        ensures { result.now ≡ tour_table self.now }
    {
        self.lent.tour
    }

    // Its lift table.
    #[inline(always)]
    pub fn lift(&self) -> &'a [u16]
        ensures { result.now ≡ lift_table self.now }
    {
        self.lent.lift
    }

    // Its parts in preorder.
    #[inline(always)]
    pub fn order(&self) -> &'a [u16]
        ensures { result.now ≡ preorder self.now }
    {
        self.lent.order
    }
}

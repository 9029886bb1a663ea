use crate::items::{item_from, member_of};
use crate::shares::share_of;
use ax_basis::{BasisItem, Member, Share};
use ax_case_lines::{CaseFault, CaseLine, name_of};
use std::alloc::Global;
use std::mem;

/// The shares of a batch, and the members and items of its next share.
#[derive(Drop)]
pub(crate) struct Batch {
    pub(crate) shares: Vec<Share>,
    members: Vec<Member>,
    items: Vec<BasisItem>,
}

impl Batch {
    pub(crate) fn new(alloc: Global) -> Batch {
        Batch {
            shares: Vec::new(alloc),
            members: Vec::new(alloc),
            items: Vec::new(alloc),
        }
    }

    /// Adds the member `AGGREGATE NUMBER`.
    pub(crate) fn add_member(&mut self, line: &CaseLine) -> Result<(), CaseFault> {
        let member = member_of(line.alloc, &line.text)?;
        Ok(self.members.push(member)?)
    }

    /// Adds the item `NAME KIND PAYLOAD`.
    pub(crate) fn add_item(&mut self, marked: bool, line: &CaseLine) -> Result<(), CaseFault> {
        let item = item_from(line.alloc, marked, &line.text)?;
        Ok(self.items.push(item)?)
    }

    /// Makes a share of the members and items, of the sequence that a text names.
    pub(crate) fn add_share(&mut self, parked: bool, line: &CaseLine) -> Result<(), CaseFault> {
        let alloc = line.alloc;
        let sequence = name_of(alloc, &line.text)?;
        let members = mem::replace(&mut self.members, Vec::new(alloc));
        let items = mem::replace(&mut self.items, Vec::new(alloc));
        let share = share_of(sequence, parked, members, items)?;
        Ok(self.shares.push(share)?)
    }
}

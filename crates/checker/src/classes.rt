//! Which classes the rows of a certificate tell of at the nodes.

ghost use Rattle.std.specs.Prelude.{◌≡◌};
ghost use Rattle.checker.specs.CertificateTests.{mask_in, cancels_told, groups_told, lives_told};
ghost use Rattle.checker.specs.RowLaws.{masks_told, pending_in_row};

use crate::laid_out::{mask_in, masks_at};
use bodies::{Arrivals, CancelClass, GroupClass, may_be_cancel, may_be_group};
use flow::NodePlace;
use path_faults::Lives;
use tracked_rows::GroupState;

/// The rows of a certificate of a body that is laid out, and what they are read by.
#[derive(Clone, Copy)]
pub struct RowClasses<'c> {
    /// For each node its row, if it has one.
    pub rows: &'c Vec<Option<usize>>,
    /// The groups that have bits.
    pub groups: &'c Vec<u32>,
    pub states: &'c [Vec<u16>],
}

impl RowClasses<'_> {
    /// The mask of the variable at that place where the node comes next.
    fn mask(&self, place: usize, node: usize) -> u16
        ensures { result ≡ mask_in (masks_told self.now node) place }
    {
        mask_in(masks_at(self.rows, self.states, node), place)
    }
}

impl Arrivals for RowClasses<'_> {
    ghost cancels = { λ r. cancels_told r.groups.now.items (masks_told r) };

    ghost groups = { λ r. groups_told (masks_told r) };

    ghost pending_groups = { λ r. r.groups.now.items };

    fn has_cancel(&self, variable: usize, node: usize, class: CancelClass) -> bool {
        may_be_cancel(self.mask(variable, node), class, self.groups)
    }

    fn has_group(&self, variable: usize, node: usize, class: GroupClass) -> bool {
        may_be_group(self.mask(variable, node), class)
    }

    fn pending_groups(&self) -> &[u32] {
        self.groups
    }

    ghost no_others = { pending_in_row };
}

impl Lives for RowClasses<'_> {
    ghost lives = { λ r node. lives_told (masks_told r) node.node };

    fn is_live(&self, node: NodePlace, group: usize) -> bool {
        may_be_group(
            self.mask(group, node.node),
            GroupClass::InState(GroupState::Live),
        )
    }
}

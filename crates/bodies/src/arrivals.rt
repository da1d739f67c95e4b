//! Which classes arrive where.

ghost use Rattle.std.specs.Prelude.{◌≡◌, ℕ, Bool, true, List, Contains};
ghost use Rattle.bodies.specs.ClassViews.{cancel_class_view, group_class_view};
ghost use Rattle.meaning.specs.Classes.{pending};

use crate::cancels::CancelClass;
use crate::groups::GroupClass;

/// Which classes of a body's variables arrive at the nodes of its graph. A variable is told by its place in the list of
/// the body's variables, a node by its number in the graph.
pub trait Arrivals {
    ghost cancels: { Self → ℕ → ℕ → Rattle.meaning.specs.Classes.CancelClass → Bool };

    ghost groups: { Self → ℕ → ℕ → Rattle.meaning.specs.Classes.GroupClass → Bool };

    ghost pending_groups: { Self → List ℕ };

    /// Whether the cancel variable may be of that class where the node comes next.
    fn has_cancel(&self, variable: usize, node: usize, class: CancelClass) -> bool
        ensures { result ≡ cancels self.now variable node (cancel_class_view class) };

    /// Whether the group variable may be of that class where the node comes next.
    fn has_group(&self, variable: usize, node: usize, class: GroupClass) -> bool
        ensures { result ≡ groups self.now variable node (group_class_view class) };

    /// The numbers of all groups in which some cancel variable may be pending somewhere, and perhaps of others.
    fn pending_groups(&self) -> &[u32]
        ensures { result.now ≡ pending_groups self.now };

    ghost no_others: { (a : Self) (i n g : ℕ) → cancels a i n (pending g) ≡ true → Contains (pending_groups a) g };
}

//! Where a way ends: at which occurrence with which class of a variable the fault is that is asked for.

ghost use Rattle.std.specs.Prelude.{◌≡◌, map};
ghost use Rattle.bodies.specs.NodeEvents.{node_event_view};
ghost use Rattle.events.specs.VariableViews.{variable_view};
ghost use Rattle.meaning.specs.Classes.{pending};
ghost use Rattle.meaning_packages.specs.Credits.{is_live as is_live_class};
ghost use Rattle.meaning_packages.specs.PathFaults.{is_declared, is_handed, is_handed_kept, is_lost, makes_it};
ghost use Rattle.path_faults.specs.FaultViews.{code_view, deed_view, fault_view};
ghost use Rattle.path_faults.specs.FoundFaults.{owes_call};
ghost use Rattle.bodies.specs.ClassViews.{cancel_class_view, group_class_view};
ghost use Rattle.tracked_rows.specs.EventViews.{handed_view};
ghost use Rattle.ways.specs.Ends.{is_left, is_open, is_binding_fault, is_making_fault, is_living_fault, is_return_fault, cancel_ends_at, group_ends_at, end_of, is_end};

use bodies::{CancelClass, GroupClass, NodeEvent, cancel_class, group_class};
use events::Variable;
use facts::VariableKind;
use flow::NodePlace;
use path_faults::{
    Deed, Lives, PathCode, PathFault, deed_of, is_declared, is_handed_kept, makes_it, owes_call,
};
use tracked_rows::{GroupState, Handed};

/// What is asked of a pair: whether the class of the variable is this fault there.
#[derive(Drop)]
pub struct End<'c, 'a, L> {
    /// The body's variables.
    pub variables: &'c [Variable<'a>],
    /// The numbers of the body's groups.
    pub groups: &'c [u32],
    /// Which groups may be live at which nodes.
    pub live: &'c L,
    /// One of the variables.
    pub variable: Variable<'a>,
    pub fault: PathFault<'a>,
}

/// A node, and what it does of which a class may be a fault.
#[derive(Clone, Copy)]
struct There<'e> {
    node: NodePlace,
    deed: Deed<'e>,
}

fn is_binding_fault(code: PathCode) -> bool
    ensures { result ≡ is_binding_fault (code_view code) }
{
    match code {
        PathCode::Overwritten => true,
        PathCode::NotCalled
        | PathCode::GroupIsLive
        | PathCode::GroupOverwritten
        | PathCode::LeftToLiveGroup
        | PathCode::PassedOn => false,
    }
}

fn is_making_fault(code: PathCode) -> bool
    ensures { result ≡ is_making_fault (code_view code) }
{
    match code {
        PathCode::GroupOverwritten => true,
        PathCode::Overwritten
        | PathCode::NotCalled
        | PathCode::GroupIsLive
        | PathCode::LeftToLiveGroup
        | PathCode::PassedOn => false,
    }
}

fn is_living_fault(code: PathCode) -> bool
    ensures { result ≡ is_living_fault (code_view code) }
{
    match code {
        PathCode::GroupIsLive => true,
        PathCode::Overwritten
        | PathCode::NotCalled
        | PathCode::GroupOverwritten
        | PathCode::LeftToLiveGroup
        | PathCode::PassedOn => false,
    }
}

/// Whether the group of the class may have work that goes on.
fn is_live_class(class: GroupClass) -> bool
    ensures { result ≡ is_live_class (group_class_view class) }
{
    match class {
        GroupClass::InState(GroupState::Live) => true,
        GroupClass::Unmade | GroupClass::InState(GroupState::Idle) | GroupClass::Awaited => false,
    }
}

impl<'a, L: Lives> End<'_, 'a, L> {
    /// Whether what the cancel variable holds is lost where it is bound again.
    fn is_lost(&self, class: CancelClass) -> bool
        ensures { result ≡ is_lost (map variable_view self.now.variables.now) (cancel_class_view class) }
    {
        match class {
            CancelClass::Opened | CancelClass::Kept => true,
            CancelClass::Unset | CancelClass::Safe => false,
            CancelClass::Pending(group) => !makes_it(self.variables, group),
        }
    }

    /// Whether it is open, or kept in an object that a return of these does not hand on.
    fn is_open(&self, handed: &[Handed], class: CancelClass) -> bool
        ensures { result ≡ is_open self.now.variable.number (map handed_view handed.now) (cancel_class_view class) }
    {
        match class {
            CancelClass::Opened => true,
            CancelClass::Kept => !is_handed_kept(self.variable.number, handed),
            CancelClass::Unset | CancelClass::Safe | CancelClass::Pending(_) => false,
        }
    }

    /// Whether that group may be live at the node.
    fn lives(&self, node: NodePlace, number: u32) -> bool
        ensures { result ≡ is_left (map variable_view self.now.variables.now) (L.lives self.now.live.now node)
            (pending number) }
    {
        for (place, group) in self.variables.iter().enumerate() {
            if group.kind.is_group() && group.number == number && self.live.is_live(node, place) {
                return true;
            }
        }
        false
    }

    /// Whether it is pending in a group that may be live at the node.
    fn is_left(&self, node: NodePlace, class: CancelClass) -> bool
        ensures { result ≡ is_left (map variable_view self.now.variables.now) (L.lives self.now.live.now node)
            (cancel_class_view class) }
    {
        match class {
            CancelClass::Pending(group) => self.lives(node, group),
            CancelClass::Unset | CancelClass::Opened | CancelClass::Kept | CancelClass::Safe =>
                false,
        }
    }

    /// Whether the class is the fault at a return of these.
    fn is_return_fault(&self, node: NodePlace, handed: &[Handed], class: CancelClass) -> bool
        ensures { result ≡ is_return_fault (map variable_view self.now.variables.now)
            (L.lives self.now.live.now node) self.now.variable.number (map handed_view handed.now)
            (code_view self.now.fault.code) (cancel_class_view class) }
    {
        match self.fault.code {
            PathCode::NotCalled => self.is_open(handed, class),
            PathCode::LeftToLiveGroup => self.is_left(node, class),
            PathCode::Overwritten
            | PathCode::GroupIsLive
            | PathCode::GroupOverwritten
            | PathCode::PassedOn => false,
        }
    }

    fn cancel_ends(&self, there: There<'_>, class: CancelClass) -> bool
        ensures { result ≡ cancel_ends_at (map variable_view self.now.variables.now)
            (L.lives self.now.live.now there.entry.node) (variable_view self.now.variable)
            (fault_view self.now.fault) there.entry.node.at (cancel_class_view class) (deed_view there.entry.deed) }
    {
        match there.deed {
            Deed::Nothing | Deed::Makes(_) => false,
            Deed::Binds(bound) => {
                is_binding_fault(self.fault.code)
                    && bound.number == self.variable.number
                    && bound.at == self.fault.at
                    && self.is_lost(class)
            }
            Deed::Returns(handed) => {
                there.node.at == self.fault.at
                    && owes_call(self.variable, handed)
                    && self.is_return_fault(there.node, handed, class)
            }
        }
    }

    fn group_ends(&self, there: There<'_>, class: GroupClass) -> bool
        ensures { result ≡ group_ends_at (variable_view self.now.variable) (fault_view self.now.fault)
            there.entry.node.at (group_class_view class) (deed_view there.entry.deed) }
    {
        match there.deed {
            Deed::Nothing | Deed::Binds(_) => false,
            Deed::Makes(made) => {
                is_making_fault(self.fault.code)
                    && made.number == self.variable.number
                    && made.at == self.fault.at
                    && is_live_class(class)
            }
            Deed::Returns(_) => {
                is_living_fault(self.fault.code)
                    && there.node.at == self.fault.at
                    && is_declared(self.variable.role)
                    && is_live_class(class)
            }
        }
    }

    /// Whether the class of that number is the fault at the node.
    fn ends(&self, there: There<'_>, class: usize) -> bool
        ensures { result ≡ end_of (map variable_view self.now.variables.now) self.now.groups.now
            (L.lives self.now.live.now there.entry.node) (variable_view self.now.variable)
            (fault_view self.now.fault) there.entry.node.at class (deed_view there.entry.deed) }
    {
        match self.variable.kind {
            VariableKind::Cancel => match cancel_class(class, self.groups) {
                Some(class) => self.cancel_ends(there, class),
                None => false,
            },
            VariableKind::Group => match group_class(class) {
                Some(class) => self.group_ends(there, class),
                None => false,
            },
        }
    }

    /// Whether the class of that number is the fault that is asked for, where the node does this.
    pub fn is_at(&self, node: NodePlace, event: NodeEvent<'_, '_>, class: usize) -> bool
        ensures { result ≡ is_end (map variable_view self.now.variables.now) self.now.groups.now
            (L.lives self.now.live.now node) (variable_view self.now.variable) (fault_view self.now.fault)
            record { at = node.at; order = node.order; event = node_event_view event.entry } class }
    {
        let there = There {
            node,
            deed: deed_of(event),
        };
        self.variable.name == self.fault.name && self.ends(there, class)
    }
}
